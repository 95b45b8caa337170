//! The law of assembled files.
ghost use Rattle.asm_text.specs.Law.{AsmLaw};

use asm_line::{forms_give_bytes, lines_give_forms, transfers_are_valid};
use elf_flat::flat_accepted;
use ia_decode::encoding_length;
use ia_encode::round_trip;

/// The file of a source of at most [`SOURCE_LIMIT`](crate::SOURCE_LIMIT) bytes is accepted as an original, with the entry
/// 0x08048054, and at the address of each line with an instruction that instruction is found, with the length of its canonical
/// spelling.
pub fn asm_law()
    ensures { AsmLaw }
{
    lines_give_forms();
    forms_give_bytes();
    transfers_are_valid();
    flat_accepted();
    round_trip();
    encoding_length();
}
