//! Shifts and rotations.

ghost use Rattle.std.specs.Prelude.{◌≡◌};
ghost use Rattle.ia_inst.specs.Reading.{Gives};
ghost use Rattle.ia_inst.specs.Instructions.{by_at, shift_of, shift_at};

use crate::bytes::byte;
use crate::operand::operand;
use crate::prefixes::{is_bare, width};
use ia_inst::{By, Count, Inst, Prefixes, ShiftOp};

/// By how much.
#[tactic(auto, unfolding(ia_inst::specs::Instructions::by_at))]
fn count(by: By, bytes: &[u8]) -> Option<(Count, &[u8])>
    ensures { Gives (λ x. (x.0, x.1.now)) result (by_at by bytes.now) }
{
    match by {
        By::One => Some((Count::Imm(1), bytes)),
        By::Byte => {
            let (n, rest) = byte(bytes)?;
            Some((Count::Imm(n), rest))
        }
        By::Cl => Some((Count::Cl, bytes)),
    }
}

/// The shift of a reg field.
fn shift_op(reg: u8) -> Option<ShiftOp>
    ensures { result ≡ shift_of reg }
{
    match reg {
        4 => Some(ShiftOp::Shl),
        5 => Some(ShiftOp::Shr),
        7 => Some(ShiftOp::Sar),
        _ => None,
    }
}

/// C0, C1 and D0 to D3.
#[tactic(auto, unfolding(ia_inst::specs::Instructions::shift_at))]
pub fn shift(prefixes: Prefixes, by: By, first: bool, bytes: &[u8]) -> Option<(Inst, &[u8])>
    ensures { Gives (λ x. (x.0, x.1.now)) result (shift_at prefixes by first bytes.now) }
{
    let (reg, dst, rest) = operand(bytes)?;
    let (count, rest) = count(by, rest)?;
    if reg < 2 {
        if !first && is_bare(prefixes) {
            return Some((
                Inst::Rotate {
                    right: reg == 1,
                    dst,
                    count,
                },
                rest,
            ));
        }
        return None;
    }
    let w = width(prefixes, first)?;
    let op = shift_op(reg)?;
    Some((Inst::Shift { op, w, dst, count }, rest))
}
