//! Opcodes of two bytes, the first of which is 0F.

ghost use Rattle.std.specs.Prelude.{◌≡◌};
ghost use Rattle.ia_inst.specs.Reading.{Gives};
ghost use Rattle.ia_inst.specs.Instructions.{hint_at, is_repeat, end_branch_at, extend_at, second_at, escape_at};

use crate::bytes::{byte, four};
use crate::opcode::second_from;
use crate::operand::operand;
use crate::prefixes::{is_bare, padding, width};
use ia_inst::{Inst, Prefixes, Second, Width};

/// 1F.
#[tactic(auto, unfolding(ia_inst::specs::Instructions::hint_at))]
fn hint(prefixes: Prefixes, bytes: &[u8]) -> Option<(Inst, &[u8])>
    ensures { Gives (λ x. (x.0, x.1.now)) result (hint_at prefixes bytes.now) }
{
    let _wide = padding(prefixes)?;
    let (reg, _, rest) = operand(bytes)?;
    if reg == 0 {
        Some((Inst::Nop, rest))
    } else {
        None
    }
}

/// 1E, of which FB behind F3 is read.
#[tactic(auto, unfolding(ia_inst::specs::Instructions::end_branch_at))]
fn end_branch(prefixes: Prefixes, bytes: &[u8]) -> Option<(Inst, &[u8])>
    ensures { Gives (λ x. (x.0, x.1.now)) result (end_branch_at prefixes bytes.now) }
{
    let (last, rest) = byte(bytes)?;
    match prefixes {
        Prefixes::Repeat if last == 0xfb => Some((Inst::Nop, rest)),
        _ => None,
    }
}

/// B6 and BE.
#[tactic(auto, unfolding(ia_inst::specs::Instructions::extend_at))]
fn extend(prefixes: Prefixes, signed: bool, bytes: &[u8]) -> Option<(Inst, &[u8])>
    ensures { Gives (λ x. (x.0, x.1.now)) result (extend_at prefixes signed bytes.now) }
{
    let to = width(prefixes, false)?;
    let (dst, src, rest) = operand(bytes)?;
    Some((
        Inst::Extend {
            signed,
            from: Width::B8,
            to,
            dst,
            src,
        },
        rest,
    ))
}

/// B7 and BF.
#[tactic(auto, unfolding(ia_inst::specs::Instructions::second_at))]
fn extend_word(signed: bool, bytes: &[u8]) -> Option<(Inst, &[u8])>
    ensures { Gives (λ x. (x.0, x.1.now)) result (second_at Prefixes.Bare (Second.ExtendWord signed) bytes.now) }
{
    let (dst, src, rest) = operand(bytes)?;
    let inst = Inst::Extend {
        signed,
        from: Width::B16,
        to: Width::B32,
        dst,
        src,
    };
    Some((inst, rest))
}

/// 40 to 4F.
#[tactic(auto, unfolding(ia_inst::specs::Instructions::second_at))]
fn cmov(cond: u8, bytes: &[u8]) -> Option<(Inst, &[u8])>
    ensures { Gives (λ x. (x.0, x.1.now)) result (second_at Prefixes.Bare (Second.Cmov cond) bytes.now) }
{
    let (dst, src, rest) = operand(bytes)?;
    Some((Inst::Cmov { cond, dst, src }, rest))
}

/// 90 to 9F.
#[tactic(auto, unfolding(ia_inst::specs::Instructions::second_at))]
fn setcc(cond: u8, bytes: &[u8]) -> Option<(Inst, &[u8])>
    ensures { Gives (λ x. (x.0, x.1.now)) result (second_at Prefixes.Bare (Second.Setcc cond) bytes.now) }
{
    let (_, dst, rest) = operand(bytes)?;
    Some((Inst::Setcc { cond, dst }, rest))
}

/// AF.
#[tactic(auto, unfolding(ia_inst::specs::Instructions::second_at))]
fn imul(bytes: &[u8]) -> Option<(Inst, &[u8])>
    ensures { Gives (λ x. (x.0, x.1.now)) result (second_at Prefixes.Bare Second.Imul bytes.now) }
{
    let (dst, src, rest) = operand(bytes)?;
    let by = None;
    Some((Inst::Imul { dst, src, by }, rest))
}

/// 80 to 8F.
#[tactic(auto, unfolding(ia_inst::specs::Instructions::second_at))]
fn jcc(cond: u8, bytes: &[u8]) -> Option<(Inst, &[u8])>
    ensures { Gives (λ x. (x.0, x.1.now)) result (second_at Prefixes.Bare (Second.Jcc cond) bytes.now) }
{
    let (rel, rest) = four(bytes)?;
    Some((Inst::Jcc { cond, rel }, rest))
}

/// What stands behind 0F and a second byte.
#[tactic(auto, unfolding(ia_inst::specs::Instructions::second_at))]
fn second(prefixes: Prefixes, opcode: Second, bytes: &[u8]) -> Option<(Inst, &[u8])>
    ensures { Gives (λ x. (x.0, x.1.now)) result (second_at prefixes opcode bytes.now) }
{
    match opcode {
        Second::Hint => hint(prefixes, bytes),
        Second::EndBranch => end_branch(prefixes, bytes),
        Second::ExtendByte { signed } => extend(prefixes, signed, bytes),
        _ if !is_bare(prefixes) => None,
        Second::ExtendWord { signed } => extend_word(signed, bytes),
        Second::Cmov(cond) => cmov(cond, bytes),
        Second::Setcc(cond) => setcc(cond, bytes),
        Second::Imul => imul(bytes),
        Second::Jcc(cond) => jcc(cond, bytes),
    }
}

/// What stands behind 0F.
#[tactic(auto, unfolding(ia_inst::specs::Instructions::escape_at))]
pub fn escape(prefixes: Prefixes, bytes: &[u8]) -> Option<(Inst, &[u8])>
    ensures { Gives (λ x. (x.0, x.1.now)) result (escape_at prefixes bytes.now) }
{
    let (first, rest) = byte(bytes)?;
    let opcode = second_from(first)?;
    second(prefixes, opcode, rest)
}
