//! Files are read.
ghost use Rattle.std.specs.Prelude.{◌≡◌, ◌+◌, ◌≤◌, not, [], ◌∷◌, length, take, IfOk};
ghost use Rattle.elf_read.specs.declared.exe.Reach.TheVariants.{Original};
ghost use Rattle.elf_read.specs.declared.limits.TheConstants.{GUEST_FILE_LIMIT};
ghost use Rattle.elf_read.specs.Elf.{wrong_magic, wrong_version, wrong_field, wrong_table, place_if, holds_entry, field, loaded, refusals, table_refusals, first_refused, IsExe};
ghost use Rattle.elf_read.specs.Reads.{ReadsElf, Says, IsTable};

use crate::check::Check;
use crate::error::ElfError;
use crate::exe::{Exe, Reach, Segments};
use crate::field::{half_at, word_at};
use crate::header::Table;
use crate::load::{heap_start, load_segments};
use crate::table::{excess_place, failing_place, is_in_code, unordered_place};
use std::alloc::Global;

/// The refusal of a number, where there is a place for it.
fn check(number: u8, place: Option<u32>) -> Result<(), ElfError>
    ensures { Says result (first_refused number (place ∷ [])) }
{
    match place {
        Some(place) => Err(ElfError::Refused { number, place }),
        None => Ok(()),
    }
}

fn magic_place(bytes: &[u8]) -> Option<u32>
    requires { 52 ≤ length bytes.now }
    ensures { result ≡ wrong_magic bytes.now }
{
    if bytes[0] != 0x7F {
        Some(0)
    } else if bytes[1] != 0x45 {
        Some(1)
    } else if bytes[2] != 0x4C {
        Some(2)
    } else if bytes[3] != 0x46 {
        Some(3)
    } else {
        None
    }
}

fn version_place(bytes: &[u8]) -> Option<u32>
    requires { 52 ≤ length bytes.now }
    ensures { result ≡ wrong_version bytes.now }
{
    if bytes[4] != 1 {
        Some(4)
    } else if bytes[5] != 1 {
        Some(5)
    } else if bytes[6] != 1 {
        Some(6)
    } else if word_at(bytes, 20) != 1 {
        Some(20)
    } else {
        None
    }
}

fn half_place(bytes: &[u8], at: u32, value: u16) -> Option<u32>
    requires { at + 2 ≤ length bytes.now }
    ensures { result ≡ wrong_field 2 at value bytes.now None }
{
    if half_at(bytes, at as usize) == value {
        None
    } else {
        Some(at)
    }
}

fn table_place(bytes: &[u8]) -> Option<u32>
    requires { 52 ≤ length bytes.now }
    ensures { result ≡ wrong_table bytes.now }
{
    let end = word_at(bytes, 28) as u64 + 32 * half_at(bytes, 44) as u64;
    if half_at(bytes, 40) != 52 {
        Some(40)
    } else if half_at(bytes, 42) != 32 {
        Some(42)
    } else if end > bytes.len() as u64 {
        Some(28)
    } else {
        None
    }
}

/// The refusals 1 to 6, and where the program headers lie.
fn check_file(bytes: &[u8]) -> Result<Table, ElfError>
    requires { length bytes.now ≤ GUEST_FILE_LIMIT }
    ensures refused { Says result (first_refused 1 (take 6 (refusals Original bytes.now))) }
    ensures table { IfOk result (IsTable bytes.now) }
    ensures long { IfOk result (λ _. 52 ≤ length bytes.now) }
{
    if bytes.len() < 52 {
        return Err(ElfError::Refused {
            number: 1,
            place: bytes.len() as u32,
        });
    }
    check(2, magic_place(bytes))?;
    check(3, version_place(bytes))?;
    check(4, half_place(bytes, 16, 2))?;
    check(5, half_place(bytes, 18, 3))?;
    check(6, table_place(bytes))?;
    Ok(Table {
        start: word_at(bytes, 28),
        count: half_at(bytes, 44) as u32,
    })
}

fn entry_place(bytes: &[u8], table: Table) -> Option<u32>
    requires size { length bytes.now ≤ GUEST_FILE_LIMIT }
    requires long { 52 ≤ length bytes.now }
    requires table { IsTable bytes.now table }
    ensures { result ≡ place_if (not (holds_entry (field 4 24 bytes.now) (loaded bytes.now))) 24 None }
{
    if is_in_code(bytes, table, word_at(bytes, 24)) {
        None
    } else {
        Some(24)
    }
}

/// The refusals 7 to 13.
fn check_table(bytes: &[u8], table: Table, reach: Reach) -> Result<(), ElfError>
    requires size { length bytes.now ≤ GUEST_FILE_LIMIT }
    requires long { 52 ≤ length bytes.now }
    requires table { IsTable bytes.now table }
    ensures { Says result (first_refused 7 (table_refusals reach bytes.now)) }
{
    check(7, failing_place(bytes, table, Check::OtherKind))?;
    check(8, failing_place(bytes, table, Check::WritesCode))?;
    check(9, failing_place(bytes, table, Check::IsOutside(reach)))?;
    check(10, unordered_place(bytes, table))?;
    check(11, entry_place(bytes, table))?;
    check(12, failing_place(bytes, table, Check::HasMoreBytes))?;
    check(13, excess_place(bytes, table, reach))
}

/// The executable that a file holds, as an original or as a guest (docs/FILES.md; System V ABI,
/// chapters 4 and 5). The bytes of its segments are copied once. `bytes` has at most
/// [`GUEST_FILE_LIMIT`](crate::GUEST_FILE_LIMIT) bytes.
///
/// Errors: [`ElfError::Refused`] exactly where the file is refused, with the lowest number of a refusal
/// that holds and its place. [`ElfError::Memory`] for want of memory, only for a file that is accepted.
pub fn read_elf(alloc: Global, bytes: &[u8], reach: Reach) -> Result<Exe, ElfError>
    requires { length bytes.now ≤ GUEST_FILE_LIMIT }
    ensures read { ReadsElf reach bytes.now result }
    ensures fields { IfOk result (IsExe reach) }
{
    let table = check_file(bytes)?;
    check_table(bytes, table, reach)?;
    let segments = load_segments(alloc, bytes, table)?;
    Ok(Exe {
        entry: word_at(bytes, 24),
        brk_start: heap_start(&segments),
        segments: Segments::of(segments),
    })
}
