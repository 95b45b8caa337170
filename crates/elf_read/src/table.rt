//! The checks of all program headers, one walk each.
ghost use Rattle.std.specs.Prelude.{◌≡◌, ◌≤◌, [], ◌∷◌, length};
ghost use Rattle.elf_read.specs.declared.limits.TheConstants.{GUEST_FILE_LIMIT};
ghost use Rattle.elf_read.specs.Elf.{loaded, first_below, holds_entry, first_past, most_segments, most_memory};
ghost use Rattle.elf_read.specs.Reads.{IsTable, failed_at};

use crate::check::{Check, is_failed};
use crate::exe::Reach;
use crate::header::{Header, Table, has_memory, permissions, read_header};
use crate::limits::{
    GUEST_MEMORY_LIMIT, GUEST_SEGMENT_LIMIT, ORIGINAL_MEMORY_LIMIT, ORIGINAL_SEGMENT_LIMIT,
};

/// The place of the first header at which a check fails.
pub fn failing_place(bytes: &[u8], table: Table, check: Check) -> Option<u32>
    requires size { length bytes.now ≤ GUEST_FILE_LIMIT }
    requires table { IsTable bytes.now table }
    ensures { result ≡ failed_at check bytes.now }
{
    for i in 0..table.count {
        let header = read_header(bytes, table.start + 32 * i);
        if is_failed(check, bytes.len() as u32, &header) {
            return Some(header.place);
        }
    }
    None
}

/// The place of the first loaded header that starts below the end of the one before it.
pub fn unordered_place(bytes: &[u8], table: Table) -> Option<u32>
    requires size { length bytes.now ≤ GUEST_FILE_LIMIT }
    requires table { IsTable bytes.now table }
    ensures { result ≡ first_below 0 (loaded bytes.now) }
{
    let mut end = 0;
    for i in 0..table.count {
        let header = read_header(bytes, table.start + 32 * i);
        if has_memory(&header) {
            if (header.vaddr as u64) < end {
                return Some(header.place);
            }
            end = header.vaddr as u64 + header.memsz as u64;
        }
    }
    None
}

fn is_entry(header: &Header, entry: u32) -> bool
    ensures { result ≡ holds_entry entry (header.now ∷ []) }
{
    permissions(header.flags).exec
        && header.vaddr <= entry
        && (entry as u64) < header.vaddr as u64 + header.memsz as u64
}

/// Whether an address lies in a loaded header with PF_X.
pub fn is_in_code(bytes: &[u8], table: Table, entry: u32) -> bool
    requires size { length bytes.now ≤ GUEST_FILE_LIMIT }
    requires table { IsTable bytes.now table }
    ensures { result ≡ holds_entry entry (loaded bytes.now) }
{
    for i in 0..table.count {
        let header = read_header(bytes, table.start + 32 * i);
        if has_memory(&header) && is_entry(&header, entry) {
            return true;
        }
    }
    false
}

fn segment_limit(reach: Reach) -> u32
    ensures { result ≡ most_segments reach }
{
    match reach {
        Reach::Original => ORIGINAL_SEGMENT_LIMIT,
        Reach::Guest => GUEST_SEGMENT_LIMIT,
    }
}

fn memory_limit(reach: Reach) -> u32
    ensures { result ≡ most_memory reach }
{
    match reach {
        Reach::Original => ORIGINAL_MEMORY_LIMIT,
        Reach::Guest => GUEST_MEMORY_LIMIT,
    }
}

/// The place of the first loaded header past the limits of number and memory.
pub fn excess_place(bytes: &[u8], table: Table, reach: Reach) -> Option<u32>
    requires size { length bytes.now ≤ GUEST_FILE_LIMIT }
    requires table { IsTable bytes.now table }
    ensures { result ≡ first_past (most_segments reach) (most_memory reach) (loaded bytes.now) }
{
    let mut count = segment_limit(reach);
    let mut room = memory_limit(reach);
    for i in 0..table.count {
        let header = read_header(bytes, table.start + 32 * i);
        if has_memory(&header) {
            if count == 0 || header.memsz > room {
                return Some(header.place);
            }
            count -= 1;
            room -= header.memsz;
        }
    }
    None
}
