//! Numbers in hexadecimal.
ghost use Rattle.std.specs.Prelude.{◌≡◌, IfOk, string_bytes};
ghost use Rattle.show_text.specs.Listing.{address_text, bytes_text};

use ia_inst::Width;
use ia_text::digits_text;
use std::alloc::{AllocError, Global};

/// An address in eight digits.
pub fn address_text(alloc: Global, at: u32) -> Result<String, AllocError>
    ensures { IfOk result (λ text. string_bytes text ≡ address_text at) }
{
    digits_text(alloc, Width::B32, at)
}

/// Each byte in two digits.
pub fn bytes_text(alloc: Global, bytes: &[u8]) -> Result<String, AllocError>
    ensures { IfOk result (λ text. string_bytes text ≡ bytes_text bytes.now) }
{
    let mut text = String::new(alloc);
    for byte in bytes {
        text.push_str(&digits_text(alloc, Width::B8, u32::from(*byte))?)?;
    }
    Ok(text)
}
