//! ModRM and SIB bytes (SDM volume 2, 2.1.3 to 2.1.5).

ghost use Rattle.std.specs.Prelude.{◌≡◌, ◌<◌, ◌/◌, ◌%◌};
ghost use Rattle.ia_inst.specs.Reading.{Gives, displacement_at, based_at, memory_at, operand_at};
ghost use Rattle.ia_inst.specs.Operands.{scaled};

use crate::bytes::{byte, four, sign_extended};
use ia_inst::{Addr, Rm};

/// What the mod field has follow.
#[tactic(auto, unfolding(ia_inst::specs::Reading::displacement_at))]
fn displacement(mode: u8, bytes: &[u8]) -> Option<(u32, &[u8])>
    ensures { Gives (λ x. (x.0, x.1.now)) result (displacement_at mode bytes.now) }
{
    match mode {
        0 => Some((0, bytes)),
        1 => {
            let (low, rest) = byte(bytes)?;
            Some((sign_extended(low), rest))
        }
        _ => four(bytes),
    }
}

/// An address with this base field and index.
#[tactic(auto, unfolding(ia_inst::specs::Reading::based_at))]
fn based(mode: u8, base: u8, index: Option<(u8, u8)>, bytes: &[u8]) -> Option<(Addr, &[u8])>
    ensures { Gives (λ x. (x.0, x.1.now)) result (based_at mode base index bytes.now) }
{
    if mode == 0 && base == 5 {
        let (disp, rest) = four(bytes)?;
        return Some((
            Addr {
                base: None,
                index,
                disp,
            },
            rest,
        ));
    }
    let (disp, rest) = displacement(mode, bytes)?;
    Some((
        Addr {
            base: Some(base),
            index,
            disp,
        },
        rest,
    ))
}

/// The index of a SIB byte.
fn index(register: u8, scale: u8) -> Option<(u8, u8)>
    requires { scale < 4 }
    ensures { result ≡ scaled register scale }
{
    if register == 4 {
        None
    } else {
        Some((register, 1 << scale))
    }
}

/// The address that fields mod and rm begin.
#[tactic(auto, unfolding(ia_inst::specs::Reading::memory_at))]
fn memory(mode: u8, low: u8, bytes: &[u8]) -> Option<(Addr, &[u8])>
    ensures { Gives (λ x. (x.0, x.1.now)) result (memory_at mode low bytes.now) }
{
    if low == 4 {
        let (sib, rest) = byte(bytes)?;
        based(mode, sib % 8, index(sib / 8 % 8, sib / 64), rest)
    } else {
        based(mode, low, None, bytes)
    }
}

/// Reads the number in the reg field, and a register or a place in memory.
#[tactic(auto, unfolding(ia_inst::specs::Reading::operand_at, ia_inst::specs::Reading::fields_at))]
pub fn operand(bytes: &[u8]) -> Option<(u8, Rm, &[u8])>
    ensures { Gives (λ x. (x.0, x.1, x.2.now)) result (operand_at bytes.now) }
{
    let (fields, rest) = byte(bytes)?;
    let reg = fields / 8 % 8;
    if fields / 64 == 3 {
        return Some((reg, Rm::Reg(fields % 8), rest));
    }
    let (address, rest) = memory(fields / 64, fields % 8, rest)?;
    Some((reg, Rm::Mem(address), rest))
}
