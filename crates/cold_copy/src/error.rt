//! Why no file with copies is written.
use std::alloc::AllocError;

/// Why no file was written.
#[derive(Clone, Copy, Debug, PartialEq, Eq)]
pub enum ColdError {
    /// The graph has more than 65536 blocks.
    Blocks,
    /// There are more than [`MAX_COLD`](cold_set::MAX_COLD) cold starts.
    Cold,
    /// The recovered code is longer than [`MAX_CODE`](code_layout::MAX_CODE).
    Code,
    /// Memory was wanting.
    Memory,
}

impl From<AllocError> for ColdError {
    ghost use Rattle.std.specs.Prelude.{◌≡◌};
    ghost use Rattle.cold_copy.specs.declared.error.ColdError.TheVariants.{Memory};

    ghost from_gives = { λ _ e. e ≡ Memory };

    fn from(_: AllocError) -> Self {
        ColdError::Memory
    }
}
