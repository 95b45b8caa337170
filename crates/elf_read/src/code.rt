//! The code of an executable.
ghost use Rattle.std.specs.Prelude.{◌≡◌, ◌+◌, ◌-◌, ◌≤◌, ◌<◌, ◌&&◌, ◌++◌, length, take, drop};
ghost use Rattle.elf_read.specs.Elf.{IsGuest, is_exec, in_segment};
ghost use Rattle.elf_read.specs.Code.{code_at, segment_bytes};

use crate::exe::{Exe, Segment};

fn is_code(segment: &Segment, at: u32) -> bool
    ensures { result ≡ (segment.now.perms.exec && in_segment at segment.now) }
{
    segment.perms.exec
        && segment.start <= at
        && (at as u64) < segment.start as u64 + segment.size as u64
}

/// The bytes of a segment from an offset on, at most 15.
fn copy_bytes(segment: &Segment, offset: u32, into: &mut [u8; 15]) -> u8
    requires inside { offset ≤ segment.now.size }
    requires bytes { length segment.now.bytes ≤ segment.now.size }
    ensures count { result ≡ length (take 15 (drop offset (segment_bytes segment.now))) }
    ensures bytes { into.new ≡ take 15 (drop offset (segment_bytes segment.now)) ++ drop result into.old }
{
    let bytes = segment.bytes.as_slice();
    let count = (segment.size - offset).min(15) as usize;
    for i in 0..count {
        let at = offset as usize + i;
        into[i] = if at < bytes.len() { bytes[at] } else { 0 };
    }
    count as u8
}

/// Writes the bytes of the executable segment that holds `at`, from there on, at most 15, to the front
/// of `into`, and answers how many: fewer only where the segment ends, 0 where `at` lies in no
/// executable segment. Bytes that the segment has in memory and not in the file are zero. The rest of
/// `into` stays.
pub fn exec_bytes(exe: &Exe, at: u32, into: &mut [u8; 15]) -> u8
    requires { IsGuest exe.now }
    ensures count { result ≡ length (take 15 (code_at at exe.now.segments)) }
    ensures bytes { into.new ≡ take 15 (code_at at exe.now.segments) ++ drop result into.old }
{
    for segment in exe.segments.as_slice() {
        if is_code(segment, at) {
            return copy_bytes(segment, at - segment.start, into);
        }
    }
    0
}

/// Whether an address lies in an executable segment.
pub fn in_exec(exe: &Exe, at: u32) -> bool
    requires { IsGuest exe.now }
    ensures { result ≡ is_exec at exe.now.segments }
{
    for segment in exe.segments.as_slice() {
        if is_code(segment, at) {
            return true;
        }
    }
    false
}
