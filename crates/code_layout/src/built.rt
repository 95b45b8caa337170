//! What was built, and why nothing was.
use elf_read::Bytes;
use std::alloc::AllocError;

/// A file that was written for an original.
#[derive(Drop)]
pub struct Built {
    /// The bytes of the file.
    pub bytes: Bytes,
    /// The number of blocks that were recovered.
    pub blocks: u32,
    /// The length of the recovered code in bytes.
    pub code: u32,
}

/// Why no file was written.
#[derive(Clone, Copy, Debug, PartialEq, Eq)]
pub enum BuildError {
    /// The graph has more than 65536 blocks.
    Blocks,
    /// The recovered code is longer than [`MAX_CODE`](crate::MAX_CODE).
    Code,
    /// Memory was wanting.
    Memory,
}

impl From<AllocError> for BuildError {
    ghost use Rattle.std.specs.Prelude.{◌≡◌};
    ghost use Rattle.code_layout.specs.declared.built.BuildError.TheVariants.{Memory};

    ghost from_gives = { λ _ e. e ≡ Memory };

    fn from(_: AllocError) -> Self {
        BuildError::Memory
    }
}
