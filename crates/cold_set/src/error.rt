//! Why there are no cold starts.
use std::alloc::AllocError;
use thiserror::Error;

/// The most cold starts that there may be. An executable and a graph that give more are refused.
pub const MAX_COLD: u32 = 65536;

/// Why [`cold_starts`](crate::cold_starts) gives none.
#[derive(Debug, PartialEq, Eq, Drop, Error)]
pub enum ColdSetError {
    /// There are more than [`MAX_COLD`].
    #[error("limit cold 65536")]
    Cold,
    /// Want of memory.
    #[error("out of memory")]
    Memory,
}

impl From<AllocError> for ColdSetError {
    ghost use Rattle.std.specs.Prelude.{◌≡◌};
    ghost use Rattle.cold_set.specs.declared.error.ColdSetError.TheVariants.{Memory};

    ghost from_gives = { λ _ e. e ≡ Memory };

    fn from(_: AllocError) -> Self {
        ColdSetError::Memory
    }
}
