//! One segment in a file: its place, its program header and its bytes.
ghost use Rattle.std.specs.Prelude.{◌≡◌, ◌+◌, ◌≤◌, ◌<◌, ◌^◌, [], ◌++◌, length, OnOk};
ghost use Rattle.elf_read.specs.declared.limits.TheConstants.{GUEST_LOWEST};
ghost use Rattle.elf_read.specs.Elf.{IsSegment};
ghost use Rattle.elf_write.specs.File.{flags_of_perms, padding, offset_of, end_after, piece_of, program_header};

use crate::number::{push_word, push_zeros};
use br_word::Perms;
use elf_read::Segment;
use std::alloc::AllocError;

/// The permissions as p_flags (ELF, program header): PF_X is 1, PF_W 2 and PF_R 4.
fn flags_word(p: Perms) -> u32
    ensures { result ≡ flags_of_perms p }
{
    (if p.exec { 1 } else { 0 }) + (if p.write { 2 } else { 0 }) + (if p.read { 4 } else { 0 })
}

/// How many zeros come before a segment's bytes, so that offset and address agree below a page of 4096.
fn padding_of(at: u32, s: &Segment) -> u32
    ensures value { result ≡ padding at s.now }
    ensures bound { result < 4096 }
{
    (s.start % 4096 + 4096 - at % 4096) % 4096
}

/// Where the file ends after the segment's bytes, if it ended at `at` before them.
pub fn end_of_piece(at: u32, s: &Segment) -> u32
    requires at { at + s.now.size ≤ 2 ^ 31 }
    requires s { IsSegment GUEST_LOWEST s.now }
    ensures value { result ≡ end_after at s.now }
    ensures bound { result ≤ at + 4096 + s.now.size }
{
    if s.bytes.len() == 0 {
        at
    } else {
        at + padding_of(at, s) + s.bytes.len() as u32
    }
}

/// The segment's p_offset, if the file ended at `at` before it.
fn place_of(at: u32, s: &Segment) -> u32
    requires { at ≤ 2 ^ 31 }
    ensures { result ≡ offset_of at s.now }
{
    if s.bytes.len() == 0 {
        s.start % 4096
    } else {
        at + padding_of(at, s)
    }
}

/// The segment's program header (ELF, program header), if the file ended at `at` before its bytes.
pub fn push_header(out: &mut Vec<u8>, at: u32, s: &Segment) -> Result<(), AllocError>
    requires at { at ≤ 2 ^ 31 }
    requires s { IsSegment GUEST_LOWEST s.now }
    ensures { OnOk result (out.new.items ≡ out.old.items ++ program_header at s.now []) }
{
    push_word(out, 1)?;
    push_word(out, place_of(at, s))?;
    push_word(out, s.start)?;
    push_word(out, s.start)?;
    push_word(out, s.bytes.len() as u32)?;
    push_word(out, s.size)?;
    push_word(out, flags_word(s.perms))?;
    push_word(out, 4096)?;
    Ok(())
}

/// The segment's padding and bytes, nothing for a segment without bytes.
pub fn push_piece(out: &mut Vec<u8>, at: u32, s: &Segment) -> Result<(), AllocError>
    ensures { OnOk result (out.new.items ≡ out.old.items ++ piece_of at s.now) }
{
    if s.bytes.len() == 0 {
        return Ok(());
    }
    push_zeros(out, padding_of(at, s))?;
    out.extend_from_slice(s.bytes.as_slice())?;
    Ok(())
}
