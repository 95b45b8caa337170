//! Bytes by their digits.

ghost use Rattle.std.specs.Prelude.{◌≡◌, ◌++◌, ◌<◌, ◌≤◌, length, IsTrue, OnOk};
ghost use Rattle.std.specs.List.{list_all};
ghost use Rattle.asm_line.specs.Forms.{is_digit, value_of, are_digits, values};

use asm_inst::digit_of;
use std::alloc::AllocError;

/// The most bytes of one line.
pub const BYTE_LIMIT: usize = 64;

/// The value of a digit, and 0 of what is none.
fn value_of(digit: u8) -> u8
    ensures value { result ≡ value_of digit }
    ensures small { result < 16 }
{
    match digit_of(digit) {
        Some(value) => value as u8,
        None => 0,
    }
}

fn is_digit(digit: u8) -> bool
    ensures { result ≡ is_digit digit }
{
    digit_of(digit).is_some()
}

fn are_hexadecimal(digits: &[u8]) -> bool
    ensures { result ≡ list_all is_digit digits.now }
{
    digits.iter().all(|digit| is_digit(*digit))
}

/// Whether these are the digits of 1 to [`BYTE_LIMIT`] bytes, two lower-case hexadecimal digits each.
#[tactic(auto, unfolding(crate::specs::Forms::are_digits))]
pub fn are_digits(digits: &[u8]) -> bool
    ensures { result ≡ are_digits digits.now }
{
    !digits.is_empty()
        && digits.len() <= 2 * BYTE_LIMIT
        && digits.len() % 2 == 0
        && are_hexadecimal(digits)
}

/// How many bytes digits give.
pub fn count_bytes(digits: &[u8]) -> u32
    requires { IsTrue (are_digits digits.now) }
    ensures count { result ≡ length (values digits.now) }
    ensures few { result ≤ 64 }
{
    (digits.len() / 2) as u32
}

/// Appends the bytes of digits. After want of memory a part of them may stand in `out`.
pub fn put_digits(out: &mut Vec<u8>, mut digits: &[u8]) -> Result<(), AllocError>
    ensures { OnOk result (out.new.items ≡ out.old.items ++ values digits.now) }
{
    while let [high, low, rest @ ..] = digits {
        out.push(value_of(*high) * 16 + value_of(*low))?;
        digits = rest;
    }
    Ok(())
}
