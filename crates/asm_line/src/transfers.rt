//! Transfers to labels.

ghost use Rattle.std.specs.Prelude.{◌≡◌, IsTrue};
ghost use Rattle.asm_line.specs.Forms.{transfer_of, instruction_of, size_of_transfer, is_transfer};

use asm_inst::{One, distance};
use ia_inst::Inst;

/// A transfer that goes to an address.
#[derive(Clone, Copy, Debug, PartialEq, Eq)]
pub enum Transfer {
    /// A conditional jump, by its condition, below 16.
    Jcc(u8),
    /// JMP.
    Jmp,
    /// CALL.
    Call,
}

/// The transfer that a mnemonic of one operand names, if it names one.
pub fn transfer_of(name: One) -> Option<Transfer>
    ensures { result ≡ transfer_of name }
{
    match name {
        One::Jcc(cond) => Some(Transfer::Jcc(cond)),
        One::Jmp => Some(Transfer::Jmp),
        One::Call => Some(Transfer::Call),
        _ => None,
    }
}

/// The instruction that goes from its own address to another.
pub fn instruction_of(kind: Transfer, at: u32, to: u32) -> Inst
    ensures { result ≡ instruction_of kind at to }
{
    match kind {
        Transfer::Jcc(cond) => {
            let rel = distance(at, 6, to);
            Inst::Jcc { cond, rel }
        }
        Transfer::Jmp => {
            let rel = distance(at, 5, to);
            Inst::Jmp { rel }
        }
        Transfer::Call => {
            let rel = distance(at, 5, to);
            Inst::Call { rel }
        }
    }
}

/// The bytes of a transfer's canonical spelling, which do not depend on the distance.
pub fn size_of_transfer(kind: Transfer) -> u32
    ensures { result ≡ size_of_transfer kind }
{
    match kind {
        Transfer::Jcc(_) => 6,
        Transfer::Jmp | Transfer::Call => 5,
    }
}
