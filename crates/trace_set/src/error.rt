//! Why a set of traces refuses.
use std::alloc::AllocError;
use thiserror::Error;

/// The most live traces.
pub const TRACE_LIMIT: u32 = 4096;

/// The most additions: the greatest number that a trace is given.
pub const ADDITION_LIMIT: u32 = 1048576;

/// Why [`TraceSet::add`](crate::TraceSet::add) adds nothing.
#[derive(Debug, PartialEq, Eq, Drop, Error)]
pub enum SetError {
    /// [`TRACE_LIMIT`] traces are live.
    #[error("limit traces 4096")]
    Traces,
    /// The live traces and the new one have more than [`EDGE_LIMIT`](trace_file::EDGE_LIMIT) edges, one
    /// of several counted in each.
    #[error("limit edges 16777216")]
    Edges,
    /// [`ADDITION_LIMIT`] traces were added.
    #[error("limit additions 1048576")]
    Spent,
    /// Want of memory.
    #[error("out of memory")]
    Memory,
}

impl From<AllocError> for SetError {
    ghost use Rattle.std.specs.Prelude.{◌≡◌};
    ghost use Rattle.trace_set.specs.declared.error.SetError.TheVariants.{Memory};

    ghost from_gives = { λ _ e. e ≡ Memory };

    fn from(_: AllocError) -> Self {
        SetError::Memory
    }
}

/// No live trace has the number.
#[derive(Debug, PartialEq, Eq, Drop, Error)]
#[error("no live trace has the number")]
pub struct Unknown;
