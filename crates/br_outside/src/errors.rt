//! What the calls of the outside answer where they do not succeed.

use std::alloc::AllocError;
use thiserror::Error;

/// Why a fetch gives no content.
#[derive(Clone, Copy, Debug, PartialEq, Eq, Error)]
pub enum ShelfError {
    /// The outside failed, or has no such name.
    #[error("the file could not be read")]
    Failed,
    /// The content is longer than the limit of the call.
    #[error("the file is too long")]
    TooLong,
    /// There is no memory for the content.
    #[error("out of memory")]
    Memory,
}

impl From<AllocError> for ShelfError {
    ghost use Rattle.std.specs.Prelude.{◌≡◌};
    ghost use Rattle.br_outside.specs.declared.errors.ShelfError.TheVariants.{Memory};

    ghost from_gives = { λ _ error. error ≡ Memory };

    fn from(_error: AllocError) -> ShelfError {
        ShelfError::Memory
    }
}

/// Why a store did not put the content under the name.
#[derive(Clone, Copy, Debug, PartialEq, Eq, Error)]
pub enum StoreError {
    /// The outside failed: what the name holds is unknown.
    #[error("the file could not be written")]
    Failed,
    /// There is no memory for the content: nothing changed.
    #[error("out of memory")]
    Memory,
}

impl From<AllocError> for StoreError {
    ghost use Rattle.std.specs.Prelude.{◌≡◌};
    ghost use Rattle.br_outside.specs.declared.errors.StoreError.TheVariants.{Memory};

    ghost from_gives = { λ _ error. error ≡ Memory };

    fn from(_error: AllocError) -> StoreError {
        StoreError::Memory
    }
}

/// Why a give did not append the whole piece.
#[derive(Clone, Copy, Debug, PartialEq, Eq, Error)]
pub enum SinkError {
    /// The outside failed: a prefix of the piece was written.
    #[error("the output could not be written")]
    Failed,
    /// There is no memory for the piece: nothing was written.
    #[error("out of memory")]
    Memory,
}

impl From<AllocError> for SinkError {
    ghost use Rattle.std.specs.Prelude.{◌≡◌};
    ghost use Rattle.br_outside.specs.declared.errors.SinkError.TheVariants.{Memory};

    ghost from_gives = { λ _ error. error ≡ Memory };

    fn from(_error: AllocError) -> SinkError {
        SinkError::Memory
    }
}

/// A take failed: nothing was taken.
#[derive(Clone, Copy, Debug, PartialEq, Eq, Error)]
#[error("the input could not be read")]
pub struct Failed;
