//! Opcodes before which no prefix may stand.

ghost use Rattle.std.specs.Prelude.{◌≡◌};
ghost use Rattle.ia_inst.specs.Reading.{Gives};
ghost use Rattle.ia_inst.specs.Instructions.{simple_at};

use crate::arithmetic::{alu_byte, multiply};
use crate::bytes::{byte, four, sign_extended, two};
use crate::moves::pop;
use ia_inst::{Inst, Simple, Src};

/// 6A.
#[tactic(auto, unfolding(ia_inst::specs::Instructions::simple_at))]
fn push_byte(bytes: &[u8]) -> Option<(Inst, &[u8])>
    ensures { Gives (λ x. (x.0, x.1.now)) result (simple_at Simple.PushByte bytes.now) }
{
    let (n, rest) = byte(bytes)?;
    let src = Src::Imm(sign_extended(n));
    Some((Inst::Push { src }, rest))
}

/// 68.
#[tactic(auto, unfolding(ia_inst::specs::Instructions::simple_at))]
fn push_word(bytes: &[u8]) -> Option<(Inst, &[u8])>
    ensures { Gives (λ x. (x.0, x.1.now)) result (simple_at Simple.PushWord bytes.now) }
{
    let (n, rest) = four(bytes)?;
    let src = Src::Imm(n);
    Some((Inst::Push { src }, rest))
}

/// 70 to 7F.
#[tactic(auto, unfolding(ia_inst::specs::Instructions::simple_at))]
fn short_jcc(cond: u8, bytes: &[u8]) -> Option<(Inst, &[u8])>
    ensures { Gives (λ x. (x.0, x.1.now)) result (simple_at (Simple.ShortJcc cond) bytes.now) }
{
    let (n, rest) = byte(bytes)?;
    let rel = sign_extended(n);
    Some((Inst::Jcc { cond, rel }, rest))
}

/// E9.
#[tactic(auto, unfolding(ia_inst::specs::Instructions::simple_at))]
fn jmp(bytes: &[u8]) -> Option<(Inst, &[u8])>
    ensures { Gives (λ x. (x.0, x.1.now)) result (simple_at Simple.Jmp bytes.now) }
{
    let (rel, rest) = four(bytes)?;
    Some((Inst::Jmp { rel }, rest))
}

/// EB.
#[tactic(auto, unfolding(ia_inst::specs::Instructions::simple_at))]
fn short_jmp(bytes: &[u8]) -> Option<(Inst, &[u8])>
    ensures { Gives (λ x. (x.0, x.1.now)) result (simple_at Simple.ShortJmp bytes.now) }
{
    let (n, rest) = byte(bytes)?;
    let rel = sign_extended(n);
    Some((Inst::Jmp { rel }, rest))
}

/// E8.
#[tactic(auto, unfolding(ia_inst::specs::Instructions::simple_at))]
fn call(bytes: &[u8]) -> Option<(Inst, &[u8])>
    ensures { Gives (λ x. (x.0, x.1.now)) result (simple_at Simple.Call bytes.now) }
{
    let (rel, rest) = four(bytes)?;
    Some((Inst::Call { rel }, rest))
}

/// C2.
#[tactic(auto, unfolding(ia_inst::specs::Instructions::simple_at))]
fn return_and_pop(bytes: &[u8]) -> Option<(Inst, &[u8])>
    ensures { Gives (λ x. (x.0, x.1.now)) result (simple_at Simple.RetPop bytes.now) }
{
    let (pop, rest) = two(bytes)?;
    Some((Inst::Ret { pop }, rest))
}

/// CD, of which the one interrupt is 80.
#[tactic(auto, unfolding(ia_inst::specs::Instructions::simple_at))]
fn interrupt(bytes: &[u8]) -> Option<(Inst, &[u8])>
    ensures { Gives (λ x. (x.0, x.1.now)) result (simple_at Simple.Interrupt bytes.now) }
{
    let (n, rest) = byte(bytes)?;
    if n == 0x80 {
        Some((Inst::Int80, rest))
    } else {
        None
    }
}

/// What stands behind such an opcode.
#[tactic(auto, unfolding(ia_inst::specs::Instructions::simple_at))]
pub fn simple(opcode: Simple, bytes: &[u8]) -> Option<(Inst, &[u8])>
    ensures { Gives (λ x. (x.0, x.1.now)) result (simple_at opcode bytes.now) }
{
    match opcode {
        Simple::Whole(inst) => Some((inst, bytes)),
        Simple::PushByte => push_byte(bytes),
        Simple::PushWord => push_word(bytes),
        Simple::PopOperand => pop(bytes),
        Simple::Multiply { byte } => multiply(byte, bytes),
        Simple::AluByte => alu_byte(bytes),
        Simple::ShortJcc(cond) => short_jcc(cond, bytes),
        Simple::Jmp => jmp(bytes),
        Simple::ShortJmp => short_jmp(bytes),
        Simple::Call => call(bytes),
        Simple::RetPop => return_and_pop(bytes),
        Simple::Interrupt => interrupt(bytes),
    }
}
