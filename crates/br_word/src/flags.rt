//! Results and flags of sums, differences, logic and shifts (SDM volume 1, 3.4.3.1; volume 2, ADD, SUB, AND,
//! SAL/SAR/SHL/SHR). No call takes memory.

ghost use Rattle.std.specs.Prelude.{◌≡◌, ◌+◌, ◌-◌, ◌*◌, ◌/◌, ◌%◌, ◌^◌, ◌<◌, ◌≤◌, ℕ, Bool};
ghost use Rattle.br_word.specs.Words.{bits_of};
ghost use Rattle.br_word.specs.Flags.{add_result, sub_result, logic_result, shift_of, shift_value, shift_carry};
ghost use Rattle.br_word.specs.Words.{signed, wrap, floor_div};

use crate::types::{Flags, ShiftOp, Width};

/// A sum or a difference modulo 2 to the width, and its flags.
#[derive(Clone, Copy, Debug, PartialEq, Eq)]
pub struct Sum {
    /// The result, below 2 to the width.
    pub value: u32,
    /// CF and OF as `add_flags` and `sub_flags` say; PF, ZF and SF of the result.
    pub flags: Flags,
}

/// A shifted value, its flags, and whether CF and OF are defined.
#[derive(Clone, Copy, Debug, PartialEq, Eq)]
pub struct Shifted {
    /// The shifted number, below 2 to the width.
    pub value: u32,
    /// CF, OF, and PF, ZF and SF of the shifted number.
    pub flags: Flags,
    /// Whether CF is defined: always for SAR, below the width for SHL and SHR (SDM volume 2, SAL/SAR/SHL/SHR).
    pub cf_known: bool,
    /// Whether OF is defined: for a count of 1.
    pub of_known: bool,
}

/// The number of bits of a width.
fn bits(w: Width) -> u32
    ensures { result ≡ bits_of w }
{
    match w {
        Width::B8 => 8,
        Width::B16 => 16,
        Width::B32 => 32,
    }
}

/// The greatest number of a width.
fn mask(w: Width) -> u32
    ensures { result ≡ 2 ^ bits_of w - 1 }
{
    match w {
        Width::B8 => 0xFF,
        Width::B16 => 0xFFFF,
        Width::B32 => 0xFFFF_FFFF,
    }
}

/// The flags of a bitwise operation with this result, a number of the width: CF and OF are 0.
pub fn logic_flags(w: Width, value: u32) -> Flags
    requires { value < 2 ^ bits_of w }
    ensures { result ≡ logic_result w value }
{
    Flags {
        cf: false,
        pf: (value & 0xFF).count_ones() % 2 == 0,
        zf: value == 0,
        sf: value >> (bits(w) - 1) == 1,
        of: false,
    }
}

/// `a + b`, and 1 for a carry, of two numbers of the width: CF where the sum passes the width, OF where the signed sum does.
pub fn add_flags(w: Width, a: u32, b: u32, carry: bool) -> Sum
    requires a_fits { a < 2 ^ bits_of w }
    requires b_fits { b < 2 ^ bits_of w }
    ensures value { result ≡ add_result w a b carry }
    ensures fits { result.value < 2 ^ bits_of w }
{
    let total = a as u64 + b as u64 + carry as u64;
    let value = (total & mask(w) as u64) as u32;
    let flags = logic_flags(w, value);
    Sum {
        value,
        flags: Flags {
            cf: total >> bits(w) == 1,
            of: ((a ^ value) & (b ^ value)) >> (bits(w) - 1) == 1,
            pf: flags.pf,
            zf: flags.zf,
            sf: flags.sf,
        },
    }
}

/// `a - b`, and 1 less for a borrow, of two numbers of the width: CF where `a` is below `b` and the borrow, OF where the signed
/// difference passes the width.
pub fn sub_flags(w: Width, a: u32, b: u32, borrow: bool) -> Sum
    requires a_fits { a < 2 ^ bits_of w }
    requires b_fits { b < 2 ^ bits_of w }
    ensures { result ≡ sub_result w a b borrow }
{
    let taken = b as u64 + borrow as u64;
    let value = ((a as u64 + mask(w) as u64 + 1 - taken) & mask(w) as u64) as u32;
    let flags = logic_flags(w, value);
    Sum {
        value,
        flags: Flags {
            cf: (a as u64) < taken,
            of: ((a ^ b) & (a ^ value)) >> (bits(w) - 1) == 1,
            pf: flags.pf,
            zf: flags.zf,
            sf: flags.sf,
        },
    }
}

/// The signed value, shifted right and rounded down.
fn sar(w: Width, a: u32, count: u32) -> u32
    requires a_fits { a < 2 ^ bits_of w }
    requires count_fits { count < 32 }
    ensures { result ≡ wrap (2 ^ bits_of w) (floor_div (signed (bits_of w) a) (2 ^ count)) }
{
    let ones = mask(w);
    if a >> (bits(w) - 1) == 1 {
        ones - ((ones - a) >> count)
    } else {
        a >> count
    }
}

/// A number of the width shifted by less than 32.
fn shift_word(op: ShiftOp, w: Width, a: u32, count: u32) -> u32
    requires a_fits { a < 2 ^ bits_of w }
    requires count_fits { count < 32 }
    ensures { result ≡ shift_value op (bits_of w) a count }
{
    match op {
        ShiftOp::Shl => (((a as u64) << count) & mask(w) as u64) as u32,
        ShiftOp::Shr => a >> count,
        ShiftOp::Sar => sar(w, a, count),
    }
}

/// The last bit that is shifted out.
fn last_out(op: ShiftOp, w: Width, a: u32, count: u32) -> bool
    requires a_fits { a < 2 ^ bits_of w }
    requires at_least { 1 ≤ count }
    requires at_most { count ≤ 31 }
    ensures { result ≡ shift_carry op (bits_of w) a count }
{
    match op {
        ShiftOp::Shl => (((a as u64) << count) >> bits(w)) & 1 == 1,
        ShiftOp::Shr => (a >> (count - 1)) & 1 == 1,
        ShiftOp::Sar => sar(w, a, count - 1) & 1 == 1,
    }
}

/// A number of the width shifted by 1 to 31. CF is the last bit shifted out, undefined for SHL and SHR from the width on; OF is
/// defined for a count of 1 alone.
pub fn shift_result(op: ShiftOp, w: Width, a: u32, count: u32) -> Shifted
    requires a_fits { a < 2 ^ bits_of w }
    requires at_least { 1 ≤ count }
    requires at_most { count ≤ 31 }
    ensures value { result ≡ shift_of op w a count }
    ensures fits { result.value < 2 ^ bits_of w }
{
    let value = shift_word(op, w, a, count);
    let cf = last_out(op, w, a, count);
    let flags = logic_flags(w, value);
    let (of, cf_known) = match op {
        ShiftOp::Shl => (flags.sf != cf, count < bits(w)),
        ShiftOp::Shr => (logic_flags(w, a).sf, count < bits(w)),
        ShiftOp::Sar => (false, true),
    };
    Shifted {
        value,
        flags: Flags {
            cf,
            of,
            pf: flags.pf,
            zf: flags.zf,
            sf: flags.sf,
        },
        cf_known,
        of_known: count == 1,
    }
}

#[cfg(test)]
mod tests {
    use super::*;

    /// Values of the manual's pages, worked by hand.
    #[test]
    fn stated_values(rt: HostRuntime) {
        let sum = add_flags(Width::B8, 0x7F, 1, false);
        assert_eq!(rt; sum.value, 0x80);
        assert!(rt;
            sum.flags.of && sum.flags.sf && !sum.flags.cf && !sum.flags.zf && !sum.flags.pf
        );
        let difference = sub_flags(Width::B32, 0, 0, true);
        assert_eq!(rt; difference.value, 0xFFFF_FFFF);
        assert!(rt;
            difference.flags.cf
                && difference.flags.sf
                && !difference.flags.of
                && difference.flags.pf
        );
        assert!(rt; logic_flags(Width::B16, 0).zf);
        let shifted = shift_result(ShiftOp::Sar, Width::B8, 0x80, 31);
        assert_eq!(rt; shifted.value, 0xFF);
        assert!(rt; shifted.flags.cf && shifted.cf_known && !shifted.of_known);
        assert!(rt; !shift_result(ShiftOp::Shl, Width::B8, 1, 8).cf_known);
    }
}
