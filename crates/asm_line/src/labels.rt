//! Labels.

ghost use Rattle.std.specs.Prelude.{◌≡◌};
ghost use Rattle.std.specs.List.{list_all};
ghost use Rattle.asm_line.specs.Forms.{is_decimal, is_name_byte, opens_name, is_register, is_label};

use asm_inst::any_register;
use std::str;

/// The most bytes of a label.
pub const LABEL_LIMIT: usize = 64;

/// A digit, a lower-case letter or `_`.
#[tactic(auto, unfolding(asm_inst::specs::Names::is_plain))]
fn is_name_byte(byte: u8) -> bool
    ensures { result ≡ is_name_byte byte }
{
    matches!(byte, b'0'..=b'9' | b'a'..=b'z') || byte == b'_'
}

/// Whether there is a first byte, and that is no digit.
fn opens_name(name: &[u8]) -> bool
    ensures { result ≡ opens_name name.now }
{
    match name {
        [first, ..] => !matches!(*first, b'0'..=b'9'),
        [] => false,
    }
}

fn are_name_bytes(name: &[u8]) -> bool
    ensures { result ≡ list_all is_name_byte name.now }
{
    name.iter().all(|byte| is_name_byte(*byte))
}

/// Whether it is the name of a register of 8, 16 or 32 bits.
fn is_register(name: &[u8]) -> bool
    ensures { result ≡ is_register name.now }
{
    match str::from_utf8(name) {
        Ok(text) => any_register(text).is_some(),
        // each name of a register is text
        Err(_) => false,
    }
}

/// Whether these bytes are a label.
///
/// A label has 1 to [`LABEL_LIMIT`] of the characters `a` to `z`, `0` to `9` and `_`, does not begin with a digit, and is no
/// register's name.
#[tactic(auto, unfolding(crate::specs::Forms::is_label))]
pub fn is_label(name: &[u8]) -> bool
    ensures { result ≡ is_label name.now }
{
    opens_name(name) && name.len() <= LABEL_LIMIT && are_name_bytes(name) && !is_register(name)
}
