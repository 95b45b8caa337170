//! What a traced run answers.
use guest_run::{Stop, SysError};
use std::alloc::AllocError;
use thiserror::Error;
use trace_file::Edges;

/// A traced run.
#[derive(Drop)]
pub struct Traced {
    /// The pair of 0 and the entry, and the pair of address and target of each transfer that did not
    /// fault.
    pub edges: Edges,
    /// How the guest stands: `Budget` where it still runs.
    pub stop: Stop,
    /// How many steps were taken, the exiting or faulting one too.
    pub steps: u64,
    /// How many of them read a flag that was not defined.
    pub undefined: u64,
}

/// Why a run was not traced to its end. No trace is left.
#[derive(Debug, PartialEq, Eq, Drop, Error)]
pub enum TracingError {
    /// The input failed.
    #[error("input")]
    Input,
    /// The output failed.
    #[error("output")]
    Out,
    /// The report failed.
    #[error("report")]
    Report,
    /// The edges are more than [`FILE_EDGE_LIMIT`](trace_file::FILE_EDGE_LIMIT).
    #[error("too many edges")]
    Union,
    /// Want of memory.
    #[error("out of memory")]
    Memory,
}

impl From<AllocError> for TracingError {
    ghost use Rattle.std.specs.Prelude.{◌≡◌};
    ghost use Rattle.tracer.specs.declared.answers.TracingError.TheVariants.{Memory};

    ghost from_gives = { λ _ e. e ≡ Memory };

    fn from(_: AllocError) -> Self {
        TracingError::Memory
    }
}

impl From<SysError> for TracingError {
    ghost use Rattle.std.specs.Prelude.{◌≡◌};
    ghost use Rattle.tracer.specs.TracedRun.{error_of};

    ghost from_gives = { λ e f. f ≡ error_of e };

    fn from(error: SysError) -> Self {
        match error {
            SysError::Input => TracingError::Input,
            SysError::Out => TracingError::Out,
            SysError::Report => TracingError::Report,
            SysError::Memory => TracingError::Memory,
        }
    }
}
