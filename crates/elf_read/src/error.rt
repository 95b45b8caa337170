//! Why a file is not read.
use std::alloc::AllocError;
use thiserror::Error;

/// Why [`read_elf`](crate::read_elf) gives no executable.
#[derive(Debug, PartialEq, Eq, Drop, Error)]
pub enum ElfError {
    /// The file is refused, by the refusal of the lowest number that holds (docs/FILES.md).
    #[error("refused {number} {place}")]
    Refused {
        /// Which refusal, from 1 to 13.
        number: u8,
        /// Its offset in the file: a field of the ELF header, or the program header at fault. For a file that
        /// is too short, its length.
        place: u32,
    },
    /// Want of memory, for a file that is accepted.
    #[error("out of memory")]
    Memory,
}

impl From<AllocError> for ElfError {
    ghost use Rattle.std.specs.Prelude.{◌≡◌};
    ghost use Rattle.elf_read.specs.declared.error.ElfError.TheVariants.{Memory};

    ghost from_gives = { λ _ e. e ≡ Memory };

    fn from(_: AllocError) -> Self {
        ElfError::Memory
    }
}
