//! Why a trace file is not read.
use std::alloc::AllocError;
use thiserror::Error;

/// Why [`read_trace`](crate::read_trace) gives no edges.
#[derive(Debug, PartialEq, Eq, Drop, Error)]
pub enum TraceError {
    /// The file is refused, with a number of 21 and 23 to 26 (docs/TRACES.md), at a place in the file.
    #[error("refused {number} {place}")]
    Refused {
        /// Which refusal: 21, or 23 to 26.
        number: u8,
        /// The offset in the file of what is wrong. For a file that is too short, its length.
        place: u32,
    },
    /// The trace is of another executable, refused with the number 22 at 8: the digest in the file.
    #[error("refused 22 8")]
    Other {
        /// The SHA-256 of the executable that the trace is of.
        found: [u8; 32],
    },
    /// Want of memory, for a file that is accepted.
    #[error("out of memory")]
    Memory,
}

impl From<AllocError> for TraceError {
    ghost use Rattle.std.specs.Prelude.{◌≡◌};
    ghost use Rattle.trace_file.specs.declared.error.TraceError.TheVariants.{Memory};

    ghost from_gives = { λ _ e. e ≡ Memory };

    fn from(_: AllocError) -> Self {
        TraceError::Memory
    }
}
