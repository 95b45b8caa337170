//! Values of operators on numbers (SDM volume 1, 4.2.1 and 3.4.3.1; volume 2, SAL/SAR/SHL/SHR, MOVSX).
ghost use Rattle.std.specs.Prelude.{◌≡◌, ◌<◌, ◌*◌, ◌%◌, ◌^◌, ◌*ℤ◌};
ghost use Rattle.br_word.specs.Words.{signed, out_of_range, wrap, floor_div};
ghost use Rattle.ssa_form.specs.Value.{bin_value, one_value};

use ssa_form::{BinOp, OneOp};

/// The greatest number of 32 bits.
const ONES: u32 = 0xFFFF_FFFF;

/// The signed number, shifted right and rounded down.
fn sar(a: u32, count: u32) -> u32
    requires { count < 32 }
    ensures { result ≡ wrap (2 ^ 32) (floor_div (signed 32 a) (2 ^ count)) }
{
    if a >> 31 == 1 {
        ONES - ((ONES - a) >> count)
    } else {
        a >> count
    }
}

/// The low bits of the number, shifted left.
fn shl(a: u32, count: u32) -> u32
    requires { count < 32 }
    ensures { result ≡ a * 2 ^ count % 2 ^ 32 }
{
    (((a as u64) << count) & ONES as u64) as u32
}

/// Whether the product of the two as signed numbers does not fit 32 bits.
fn mul_over(a: u32, b: u32) -> bool
    ensures { result ≡ out_of_range 32 (signed 32 a *ℤ signed 32 b) }
{
    a.cast_signed().checked_mul(b.cast_signed()).is_none()
}

/// What an operator of two gives.
pub fn bin(op: BinOp, a: u32, b: u32) -> u32
    ensures { result ≡ bin_value op a b }
{
    match op {
        BinOp::Add => a.wrapping_add(b),
        BinOp::Sub => a.wrapping_sub(b),
        BinOp::And => a & b,
        BinOp::Or => a | b,
        BinOp::Xor => a ^ b,
        BinOp::Mul => a.wrapping_mul(b),
        BinOp::MulOver => mul_over(a, b) as u32,
        BinOp::Shl => shl(a, b % 32),
        BinOp::Shr => a >> (b % 32),
        BinOp::Sar => sar(a, b % 32),
        BinOp::Eq => (a == b) as u32,
        BinOp::Ult => (a < b) as u32,
    }
}

/// What an operator of one gives.
pub fn one(op: OneOp, a: u32) -> u32
    ensures { result ≡ one_value op a }
{
    match op {
        OneOp::Parity => ((a & 0xFF).count_ones() % 2 == 0) as u32,
        OneOp::Sext8 => sext8(a % 0x100),
        OneOp::Sext16 => sext16(a % 0x1_0000),
    }
}

/// A byte, sign extended.
fn sext8(a: u32) -> u32
    requires { a < 2 ^ 8 }
    ensures { result ≡ wrap (2 ^ 32) (signed 8 a) }
{
    if a < 0x80 { a } else { a + 0xFFFF_FF00 }
}

/// Two bytes, sign extended.
fn sext16(a: u32) -> u32
    requires { a < 2 ^ 16 }
    ensures { result ≡ wrap (2 ^ 32) (signed 16 a) }
{
    if a < 0x8000 { a } else { a + 0xFFFF_0000 }
}
