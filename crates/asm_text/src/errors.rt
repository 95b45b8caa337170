//! Why a source is not assembled.
use std::alloc::AllocError;
use thiserror::Error;

/// Why a source is not assembled.
#[derive(Clone, Copy, Debug, PartialEq, Eq, Error)]
pub enum AsmError {
    /// The source is refused: 41, a line is none of the forms; 42, a label stands for the second time; 43, a label that is used
    /// stands nowhere; 44, the lines give no bytes. Lines are counted from 1, and 44 has line 0.
    #[error("refused {number} {line}")]
    Refused { number: u8, line: u32 },
    /// Want of memory.
    #[error("out of memory")]
    Memory,
}

impl From<AllocError> for AsmError {
    ghost use Rattle.std.specs.Prelude.{◌≡◌};
    ghost use Rattle.asm_text.specs.declared.errors.AsmError.TheVariants.{Memory};

    ghost from_gives = { λ _ e. e ≡ Memory };

    fn from(_: AllocError) -> Self {
        AsmError::Memory
    }
}
