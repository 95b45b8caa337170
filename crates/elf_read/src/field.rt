//! The fields of a file, the lowest byte first (ELF, e_ident[EI_DATA] = ELFDATA2LSB).
ghost use Rattle.std.specs.Prelude.{◌≡◌, ◌+◌, ◌-◌, ◌≤◌, length, take, drop, min};
ghost use Rattle.elf_read.specs.Elf.{field};

use byteorder::{ByteOrder, LittleEndian};

/// The bytes from a place on.
fn tail(bytes: &[u8], at: usize) -> &[u8]
    requires { at ≤ length bytes.now }
    ensures { result.now ≡ drop at bytes.now }
{
    &bytes[at..]
}

/// The bytes from a place on, so many of them, or as many as there are.
pub fn part(bytes: &[u8], at: usize, count: usize) -> &[u8]
    ensures { result.now ≡ take count (drop at bytes.now) }
{
    let rest = tail(bytes, at.min(bytes.len()));
    &rest[..count.min(rest.len())]
}

/// The 16-bit number at an offset.
pub fn half_at(bytes: &[u8], at: usize) -> u16
    requires { at + 2 ≤ length bytes.now }
    ensures { result ≡ field 2 at bytes.now }
{
    LittleEndian::read_u16(tail(bytes, at))
}

/// The 32-bit number at an offset.
pub fn word_at(bytes: &[u8], at: usize) -> u32
    requires { at + 4 ≤ length bytes.now }
    ensures { result ≡ field 4 at bytes.now }
{
    LittleEndian::read_u32(tail(bytes, at))
}
