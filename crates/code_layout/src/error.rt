//! Why a layout takes no more.
use std::alloc::AllocError;

/// Why [`Layout::add`](crate::Layout::add) adds nothing.
#[derive(Clone, Copy, Debug, PartialEq, Eq)]
pub enum LayoutError {
    /// The code would be longer than [`MAX_CODE`](crate::MAX_CODE).
    TooLong,
    /// Memory was wanting.
    Memory,
}

impl From<AllocError> for LayoutError {
    ghost use Rattle.std.specs.Prelude.{◌≡◌};
    ghost use Rattle.code_layout.specs.declared.error.LayoutError.TheVariants.{Memory};

    ghost from_gives = { λ _ e. e ≡ Memory };

    fn from(_: AllocError) -> Self {
        LayoutError::Memory
    }
}
