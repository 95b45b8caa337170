//! The segments of a file.
ghost use Rattle.std.specs.Prelude.{◌≡◌, ◌≤◌, length, map, IfOk};
ghost use Rattle.elf_read.specs.declared.limits.TheConstants.{GUEST_FILE_LIMIT, HIGHEST_END};
ghost use Rattle.elf_read.specs.Elf.{loaded, segment_of, end_of_last, round_up};
ghost use Rattle.elf_read.specs.Reads.{IsTable};

use crate::exe::{Bytes, Segment};
use crate::field::part;
use crate::header::{Header, Table, has_memory, permissions, read_header};
use std::alloc::{AllocError, Global};

fn load_segment(alloc: Global, bytes: &[u8], header: &Header) -> Result<Segment, AllocError>
    ensures { IfOk result (λ s. s ≡ segment_of bytes.now header.now) }
{
    let part = part(bytes, header.offset as usize, header.filesz as usize);
    Ok(Segment {
        start: header.vaddr,
        size: header.memsz,
        perms: permissions(header.flags),
        bytes: Bytes::of(part.to_vec(alloc)?),
    })
}

/// The segments of the loaded headers.
pub fn load_segments(alloc: Global, bytes: &[u8], table: Table) -> Result<Vec<Segment>, AllocError>
    requires size { length bytes.now ≤ GUEST_FILE_LIMIT }
    requires table { IsTable bytes.now table }
    ensures { IfOk result (λ v. v.items ≡ map (segment_of bytes.now) (loaded bytes.now)) }
{
    let mut segments = Vec::new(alloc);
    for i in 0..table.count {
        let header = read_header(bytes, table.start + 32 * i);
        if has_memory(&header) {
            segments.push(load_segment(alloc, bytes, &header)?)?;
        }
    }
    Ok(segments)
}

/// The end of the last segment, rounded up to a multiple of 4096.
pub fn heap_start(segments: &[Segment]) -> u32
    requires { end_of_last segments.now ≤ HIGHEST_END }
    ensures { result ≡ round_up (end_of_last segments.now) }
{
    let count = segments.len();
    if count == 0 {
        return 0;
    }
    let last = &segments[count - 1];
    (last.start + last.size + 4095) / 4096 * 4096
}
