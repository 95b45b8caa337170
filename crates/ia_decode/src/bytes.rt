//! Bytes and immediates.

ghost use Rattle.std.specs.Prelude.{◌≡◌};
ghost use Rattle.std.specs.Int.{w16, w32};
ghost use Rattle.ia_inst.specs.Operands.{extended};
ghost use Rattle.ia_inst.specs.Spells.{extended_to};
ghost use Rattle.ia_inst.specs.Reading.{Gives, byte_at, four_at};
ghost use Rattle.ia_inst.specs.Instructions.{two_at, imm_at};

use ia_inst::Width;

/// Reads one byte.
#[tactic(auto, unfolding(ia_inst::specs::Reading::byte_at))]
pub fn byte(bytes: &[u8]) -> Option<(u8, &[u8])>
    ensures { Gives (λ x. (x.0, x.1.now)) result (byte_at bytes.now) }
{
    match bytes {
        [] => None,
        [first, rest @ ..] => Some((*first, rest)),
    }
}

/// Reads two bytes, the lowest first.
#[tactic(auto, unfolding(ia_inst::specs::Instructions::two_at))]
pub fn two(bytes: &[u8]) -> Option<(u16, &[u8])>
    ensures { Gives (λ x. (x.0, x.1.now)) result (two_at bytes.now) }
{
    match bytes {
        [a, b, rest @ ..] => Some((u16::from_le_bytes([*a, *b]), rest)),
        _ => None,
    }
}

/// Reads four bytes, the lowest first.
#[tactic(auto, unfolding(ia_inst::specs::Reading::four_at))]
pub fn four(bytes: &[u8]) -> Option<(u32, &[u8])>
    ensures { Gives (λ x. (x.0, x.1.now)) result (four_at bytes.now) }
{
    match bytes {
        [a, b, c, d, rest @ ..] => Some((u32::from_le_bytes([*a, *b, *c, *d]), rest)),
        _ => None,
    }
}

/// Reads an immediate of a width.
#[tactic(auto, unfolding(ia_inst::specs::Instructions::imm_at))]
pub fn immediate(width: Width, bytes: &[u8]) -> Option<(u32, &[u8])>
    ensures { Gives (λ x. (x.0, x.1.now)) result (imm_at width bytes.now) }
{
    match width {
        Width::B8 => {
            let (n, rest) = byte(bytes)?;
            Some((n as u32, rest))
        }
        Width::B16 => {
            let (n, rest) = two(bytes)?;
            Some((n as u32, rest))
        }
        Width::B32 => four(bytes),
    }
}

/// A byte as a signed number.
pub fn sign_extended(byte: u8) -> u32
    ensures { result ≡ extended byte }
{
    if byte < 128 {
        byte as u32
    } else {
        byte as u32 + 0xffff_ff00
    }
}

/// A byte as a signed number, modulo 2 to the width.
pub fn sign_extended_to(width: Width, byte: u8) -> u32
    ensures { result ≡ extended_to width byte }
{
    match width {
        Width::B8 => byte as u32,
        Width::B16 => {
            if byte < 128 {
                byte as u32
            } else {
                byte as u32 + 0xff00
            }
        }
        Width::B32 => sign_extended(byte),
    }
}
