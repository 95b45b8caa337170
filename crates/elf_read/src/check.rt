//! The checks of single program headers.
ghost use Rattle.std.specs.Prelude.{◌≡◌};
ghost use Rattle.elf_read.specs.Elf.{lowest, is_other_kind, writes_code, is_outside, has_more_bytes};
ghost use Rattle.elf_read.specs.Reads.{fails};

use crate::exe::Reach;
use crate::header::{Header, has_memory, permissions};
use crate::limits::{GUEST_LOWEST, HIGHEST_END, ORIGINAL_LOWEST};

/// What no program header may be (refusals 7, 8, 9 and 12, docs/FILES.md).
#[derive(Clone, Copy)]
pub enum Check {
    /// Of type PT_DYNAMIC, PT_INTERP or PT_TLS.
    OtherKind,
    /// Loaded, writable and executable at once.
    WritesCode,
    /// Loaded, and outside the addresses of such an executable or past the end of the file.
    IsOutside(Reach),
    /// Of type PT_LOAD, with more bytes in the file than in memory.
    HasMoreBytes,
}

fn lowest_address(reach: Reach) -> u32
    ensures { result ≡ lowest reach }
{
    match reach {
        Reach::Original => ORIGINAL_LOWEST,
        Reach::Guest => GUEST_LOWEST,
    }
}

/// Whether the type is PT_DYNAMIC, PT_INTERP or PT_TLS.
fn has_other_kind(header: &Header) -> bool
    ensures { result ≡ is_other_kind header.now }
{
    header.kind == 2 || header.kind == 3 || header.kind == 7
}

fn is_writable_code(header: &Header) -> bool
    ensures { result ≡ writes_code header.now }
{
    let perms = permissions(header.flags);
    perms.write && perms.exec
}

fn reaches_outside(reach: Reach, total: u32, header: &Header) -> bool
    ensures { result ≡ is_outside reach total header.now }
{
    header.vaddr < lowest_address(reach)
        || header.vaddr as u64 + header.memsz as u64 > HIGHEST_END as u64
        || (0 < header.filesz && header.offset as u64 + header.filesz as u64 > total as u64)
}

fn has_more_in_file(header: &Header) -> bool
    ensures { result ≡ has_more_bytes header.now }
{
    header.kind == 1 && header.filesz > header.memsz
}

/// Whether a check fails, for a file of `total` bytes.
pub fn is_failed(check: Check, total: u32, header: &Header) -> bool
    ensures { result ≡ fails check total header.now }
{
    match check {
        Check::OtherKind => has_other_kind(header),
        Check::WritesCode => has_memory(header) && is_writable_code(header),
        Check::IsOutside(reach) => has_memory(header) && reaches_outside(reach, total, header),
        Check::HasMoreBytes => has_more_in_file(header),
    }
}
