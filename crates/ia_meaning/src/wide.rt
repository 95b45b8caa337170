//! Rotations, products and quotients (SDM volume 2, RCL/RCR/ROL/ROR, MUL, IMUL, DIV, IDIV).

ghost use Rattle.std.specs.Prelude.{◌≡◌, ◌≤◌, ◌*◌, ◌%◌, ◌^◌};
ghost use Rattle.ia_inst.specs.Wide.{rotated_left, rotated_right, product, signed_product, product_overflows, quotient, signed_quotient};

/// A word rotated to the left by 1 to 31 bits.
#[tactic(auto, using(crate::proofs::Products::rotate_left_is))]
pub fn rotate_left(a: u32, n: u32) -> u32
    requires low { 1 ≤ n }
    requires high { n ≤ 31 }
    ensures { result ≡ rotated_left a n }
{
    a.rotate_left(n)
}

/// A word rotated to the right by 1 to 31 bits.
#[tactic(auto, using(crate::proofs::Products::rotate_right_is))]
pub fn rotate_right(a: u32, n: u32) -> u32
    requires low { 1 ≤ n }
    requires high { n ≤ 31 }
    ensures { result ≡ rotated_right a n }
{
    a.rotate_right(n)
}

/// The product of two words, all 64 bits.
pub fn multiply(a: u32, b: u32) -> u64
    ensures { result ≡ product a b }
{
    a as u64 * b as u64
}

/// The product of two signed words, all 64 bits.
pub fn multiply_signed(a: u32, b: u32) -> u64
    ensures { result ≡ signed_product a b }
{
    (a.cast_signed() as i64 * b.cast_signed() as i64).cast_unsigned()
}

/// The signed product does not fit 32 bits.
pub fn overflows(a: u32, b: u32) -> bool
    ensures { result ≡ product_overflows a b }
{
    a.cast_signed().checked_mul(b.cast_signed()).is_none()
}

/// The quotient and the remainder. None for a divisor 0, or where the quotient does not fit 32 bits.
pub fn divide(n: u64, d: u32) -> Option<(u32, u32)>
    ensures { result ≡ quotient n d }
{
    if d == 0 {
        return None;
    }
    let q = n / d as u64;
    if q > 0xFFFF_FFFF {
        return None;
    }
    Some((q as u32, (n % d as u64) as u32))
}

/// The quotient, rounded towards 0, and the remainder, of signed numbers. None for a divisor 0, or where the quotient
/// does not fit 32 bits.
pub fn divide_signed(n: u64, d: u32) -> Option<(u32, u32)>
    ensures { result ≡ signed_quotient n d }
{
    if d == 0 {
        return None;
    }
    let x = n.cast_signed();
    let y = d.cast_signed() as i64;
    match x.checked_div(y) {
        None => None,
        Some(q) => {
            if q < -0x8000_0000 || q > 0x7FFF_FFFF {
                return None;
            }
            Some(((q as i32).cast_unsigned(), ((x % y) as i32).cast_unsigned()))
        }
    }
}
