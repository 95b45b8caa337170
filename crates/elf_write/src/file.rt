//! Files of segments.
ghost use Rattle.std.specs.Prelude.{◌≡◌, ◌+◌, ◌*◌, ◌≤◌, ◌^◌, [], ◌++◌, length, Ok, OnOk, IfOk};
ghost use Rattle.elf_read.specs.declared.exe.Reach.TheVariants.{Guest};
ghost use Rattle.elf_read.specs.declared.limits.TheConstants.{GUEST_LOWEST};
ghost use Rattle.elf_read.specs.Elf.{AreSegments, sizes, elf, exe_of};
ghost use Rattle.elf_write.specs.File.{end_of_all, program_headers, pieces, file_header, file_of, IsWritable};

use crate::number::{push_half, push_word};
use crate::piece::{end_of_piece, push_header, push_piece};
use elf_read::Segment;
use std::alloc::{AllocError, Global};

/// Where the file ends after the bytes of these segments, if it ended at `start` before them.
fn end_of_pieces(start: u32, segments: &[Segment]) -> u32
    requires each { AreSegments GUEST_LOWEST segments.now }
    requires room { start + 4096 * length segments.now + sizes segments.now ≤ 2 ^ 31 }
    ensures value { result ≡ end_of_all start segments.now }
    ensures bound { result ≤ start + 4096 * length segments.now + sizes segments.now }
{
    let mut at = start;
    for segment in segments {
        at = end_of_piece(at, segment);
    }
    at
}

/// The headers of segments whose bytes begin at `start`.
fn push_headers(out: &mut Vec<u8>, start: u32, segments: &[Segment]) -> Result<(), AllocError>
    requires each { AreSegments GUEST_LOWEST segments.now }
    requires room { start + 4096 * length segments.now + sizes segments.now ≤ 2 ^ 31 }
    ensures { OnOk result (out.new.items ≡ out.old.items ++ program_headers start segments.now []) }
{
    let mut at = start;
    for segment in segments {
        push_header(out, at, segment)?;
        at = end_of_piece(at, segment);
    }
    Ok(())
}

/// The bytes of segments, which begin at `start`.
fn push_pieces(out: &mut Vec<u8>, start: u32, segments: &[Segment]) -> Result<(), AllocError>
    requires each { AreSegments GUEST_LOWEST segments.now }
    requires room { start + 4096 * length segments.now + sizes segments.now ≤ 2 ^ 31 }
    ensures { OnOk result (out.new.items ≡ out.old.items ++ pieces start segments.now) }
{
    let mut at = start;
    for segment in segments {
        push_piece(out, at, segment)?;
        at = end_of_piece(at, segment);
    }
    Ok(())
}

/// The ELF header of so many segments, with its program headers right behind it.
#[tactic(auto, unfolding(br_word::specs::Memory::bytes_of))]
fn push_file_header(out: &mut Vec<u8>, count: u16, entry: u32) -> Result<(), AllocError>
    ensures { OnOk result (out.new.items ≡ out.old.items ++ file_header count entry []) }
{
    out.extend_from_slice(&[
        0x7F, 0x45, 0x4C, 0x46, 1, 1, 1, 0, 0, 0, 0, 0, 0, 0, 0, 0, 2, 0, 3, 0, 1, 0, 0, 0,
    ])?;
    push_word(out, entry)?;
    out.extend_from_slice(&[52, 0, 0, 0, 0, 0, 0, 0, 0, 0, 0, 0, 52, 0, 32, 0])?;
    push_half(out, count)?;
    out.extend_from_slice(&[0, 0, 0, 0, 0, 0])?;
    Ok(())
}

/// The file of these segments, with the entry at an address (docs/FILES.md; System V ABI, chapters 4
/// and 5). Read as a guest it gives the same segments and entry.
///
/// There are at most [`GUEST_SEGMENT_LIMIT`](elf_read::GUEST_SEGMENT_LIMIT) segments, which ascend and have
/// at most [`GUEST_MEMORY_LIMIT`](elf_read::GUEST_MEMORY_LIMIT) bytes in memory together, and the entry lies
/// in an executable one.
///
/// Errors: only for want of memory.
pub fn write_elf(alloc: Global, segments: &[Segment], entry: u32) -> Result<Vec<u8>, AllocError>
    requires { IsWritable segments.now entry }
    ensures file { IfOk result (λ file. file.items ≡ file_of segments.now entry) }
    ensures read { IfOk result (λ file. elf Guest file.items ≡ Ok (exe_of entry segments.now)) }
{
    write_joined(alloc, segments, &[], entry)
}

/// The file of the segments of `first` and then those of `rest`, as [`write_elf`] writes it of one
/// slice: for segments of which some are borrowed from an executable. It takes memory for the file
/// alone, once.
///
/// Errors: only for want of memory.
pub fn write_joined(
    alloc: Global,
    first: &[Segment],
    rest: &[Segment],
    entry: u32,
) -> Result<Vec<u8>, AllocError>
    requires { IsWritable (first.now ++ rest.now) entry }
    ensures file { IfOk result (λ file. file.items ≡ file_of (first.now ++ rest.now) entry) }
    ensures read { IfOk result (λ file. elf Guest file.items ≡ Ok (exe_of entry (first.now ++ rest.now))) }
{
    let count = first.len() + rest.len();
    let start = 52 + 32 * count as u32;
    let middle = end_of_pieces(start, first);
    let end = end_of_pieces(middle, rest);
    let mut out = Vec::with_capacity(alloc, end as usize)?;
    push_file_header(&mut out, count as u16, entry)?;
    push_headers(&mut out, start, first)?;
    push_headers(&mut out, middle, rest)?;
    push_pieces(&mut out, start, first)?;
    push_pieces(&mut out, middle, rest)?;
    Ok(out)
}
