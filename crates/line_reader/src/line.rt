//! What a reader of lines answers.
use std::alloc::AllocError;
use thiserror::Error;

/// What stands next in a script.
#[derive(Debug, PartialEq, Eq, Drop)]
pub enum Line {
    /// Nothing is left.
    End,
    /// The line has more bytes than it may have.
    Long,
    /// A line, without its LF.
    Whole(Vec<u8>),
}

/// Why no line was read.
#[derive(Clone, Copy, Debug, PartialEq, Eq, Error)]
pub enum LineError {
    /// The source failed.
    #[error("the source failed")]
    Failed,
    /// Want of memory.
    #[error("out of memory")]
    Memory,
}

impl From<AllocError> for LineError {
    ghost use Rattle.std.specs.Prelude.{◌≡◌};
    ghost use Rattle.line_reader.specs.declared.line.LineError.TheVariants.{Memory};

    ghost from_gives = { λ _ e. e ≡ Memory };

    fn from(_: AllocError) -> Self {
        LineError::Memory
    }
}
