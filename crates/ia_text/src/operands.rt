//! The texts of operands.

ghost use Rattle.std.specs.Prelude.{◌≡◌, IfOk, string_bytes};
ghost use Rattle.ia_text.specs.Operands.{digits_text, number_text, displacement_text, index_text, sum_text, address_text, place_text, source_text, count_text};

use crate::names::{register_name, size_word};
use ia_inst::{Addr, Count, Rm, Src, Width};
use std::alloc::{AllocError, Global};

/// A number in hexadecimal digits, at least two for each byte of the width. The only error is want of
/// memory.
pub fn digits_text(alloc: Global, w: Width, n: u32) -> Result<String, AllocError>
    ensures { IfOk result (λ text. string_bytes text ≡ digits_text w n) }
{
    match w {
        Width::B8 => format!(in alloc; "{n:02x}"),
        Width::B16 => format!(in alloc; "{n:04x}"),
        Width::B32 => format!(in alloc; "{n:08x}"),
    }
}

/// The same behind `0x`.
pub fn number_text(alloc: Global, w: Width, n: u32) -> Result<String, AllocError>
    ensures { IfOk result (λ text. string_bytes text ≡ number_text w n) }
{
    let digits = digits_text(alloc, w, n)?;
    format!(in alloc; "0x{digits}")
}

/// A displacement behind a base or an index: nothing where it is 0.
fn displacement_text(alloc: Global, disp: u32) -> Result<String, AllocError>
    ensures { IfOk result (λ text. string_bytes text ≡ displacement_text disp) }
{
    if disp == 0 {
        return Ok(String::new(alloc));
    }
    let number = number_text(alloc, Width::B32, disp)?;
    format!(in alloc; "+{number}")
}

fn index_text(alloc: Global, index: (u8, u8)) -> Result<String, AllocError>
    ensures { IfOk result (λ text. string_bytes text ≡ index_text index) }
{
    let (register, scale) = index;
    let name = register_name(Width::B32, register);
    format!(in alloc; "{name}*{scale}")
}

/// The parts of an address.
fn sum_text(alloc: Global, addr: &Addr) -> Result<String, AllocError>
    ensures { IfOk result (λ text. string_bytes text ≡ sum_text addr.now.base addr.now.index addr.now.disp) }
{
    match (addr.base, addr.index) {
        (None, None) => number_text(alloc, Width::B32, addr.disp),
        (Some(base), None) => {
            let base = register_name(Width::B32, base);
            let displacement = displacement_text(alloc, addr.disp)?;
            format!(in alloc; "{base}{displacement}")
        }
        (None, Some(index)) => {
            let index = index_text(alloc, index)?;
            let displacement = displacement_text(alloc, addr.disp)?;
            format!(in alloc; "{index}{displacement}")
        }
        (Some(base), Some(index)) => {
            let base = register_name(Width::B32, base);
            let index = index_text(alloc, index)?;
            let displacement = displacement_text(alloc, addr.disp)?;
            format!(in alloc; "{base}+{index}{displacement}")
        }
    }
}

/// An address in brackets.
pub fn address_text(alloc: Global, addr: &Addr) -> Result<String, AllocError>
    ensures { IfOk result (λ text. string_bytes text ≡ address_text addr.now) }
{
    let sum = sum_text(alloc, addr)?;
    format!(in alloc; "[{sum}]")
}

/// A register, or a place in memory with the size of the access.
pub fn place_text(alloc: Global, w: Width, rm: &Rm) -> Result<String, AllocError>
    ensures { IfOk result (λ text. string_bytes text ≡ place_text w rm.now) }
{
    match rm {
        Rm::Reg(r) => String::from_str(alloc, register_name(w, *r)),
        Rm::Mem(addr) => {
            let size = size_word(w);
            let address = address_text(alloc, addr)?;
            format!(in alloc; "{size} {address}")
        }
    }
}

/// What an instruction reads.
pub fn source_text(alloc: Global, w: Width, src: &Src) -> Result<String, AllocError>
    ensures { IfOk result (λ text. string_bytes text ≡ source_text w src.now) }
{
    match src {
        Src::Rm(rm) => place_text(alloc, w, rm),
        Src::Imm(n) => number_text(alloc, w, *n),
    }
}

/// By how much a shift or a rotation goes.
pub fn count_text(alloc: Global, count: Count) -> Result<String, AllocError>
    ensures { IfOk result (λ text. string_bytes text ≡ count_text count) }
{
    match count {
        Count::Imm(n) => number_text(alloc, Width::B8, u32::from(n)),
        Count::Cl => String::from_str(alloc, "cl"),
    }
}
