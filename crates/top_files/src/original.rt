//! Originals: the executables that are rebuilt and traced.
ghost use Rattle.std.specs.Prelude.{◌≤◌, IfOk, length};
ghost use Rattle.elf_read.specs.Elf.{elf, IsOriginal, IsGuest};
ghost use Rattle.elf_read.specs.declared.exe.Reach.TheVariants.{Original};
ghost use Rattle.top_plan.specs.World.{World, on_shelf};
ghost use Rattle.top_plan.specs.Parts.{Goes, Checks};
ghost use Rattle.top_files.specs.OriginalPart.{of_word, original_part, with_digest, subject_part};

use br_outside::Shelf;
use elf_read::{ElfError, Exe, ORIGINAL_FILE_LIMIT, Reach, read_elf};
use std::alloc::Global;
use top_plan::{Cause, Halt, fetch_file};
use trace_file::digest;

/// An original whose runs are traced, and the digest of its file, which its traces carry.
#[derive(Drop)]
pub struct Subject {
    /// What the file says, as an original.
    pub exe: Exe,
    /// The SHA-256 digest of the file (FIPS 180-4).
    pub digest: [u8; 32],
}

/// What a file says as an original.
///
/// The error is the refusal, with the position `word` of the word that names the file, or want of
/// memory.
fn original_of(alloc: Global, bytes: &[u8], word: u32) -> Result<Exe, Halt>
    requires { length bytes.now ≤ ORIGINAL_FILE_LIMIT }
    ensures checks { Checks (λ exe. exe) result (of_word word (elf Original bytes.now)) }
    ensures original { IfOk result IsOriginal }
{
    match read_elf(alloc, bytes, Reach::Original) {
        Ok(exe) => Ok(exe),
        Err(ElfError::Refused { number, place }) => Err(Halt::Because(Cause::RefusedWord {
            word,
            number: u32::from(number),
            place,
        })),
        Err(ElfError::Memory) => Err(Halt::Memory),
    }
}

/// The original under a name, fetched and read. The name stands at the position `word`.
///
/// The error is a failure of the shelf, the limit of the file, the refusal, or want of memory.
pub fn fetch_original<F: Shelf>(
    alloc: Global,
    shelf: &mut F,
    name: &str,
    word: u32,
) -> Result<Exe, Halt>
    ensures goes { (w : World) → Goes (λ exe. exe) (original_part name.now word)
        (on_shelf w (F.seen shelf.old)) result (on_shelf w (F.seen shelf.new)) }
    ensures original { IfOk result IsOriginal }
{
    let bytes = fetch_file(alloc, shelf, name, ORIGINAL_FILE_LIMIT)?;
    original_of(alloc, bytes.as_slice(), word)
}

/// An original with the digest of its bytes. The error is as that of [`original_of`].
fn subject_of(alloc: Global, bytes: &[u8], word: u32) -> Result<Subject, Halt>
    requires { length bytes.now ≤ ORIGINAL_FILE_LIMIT }
    ensures checks { Checks (λ subject. subject) result (with_digest bytes.now (of_word word (elf Original bytes.now))) }
    ensures original { IfOk result (λ subject. IsOriginal subject.exe) }
{
    let exe = original_of(alloc, bytes, word)?;
    Ok(Subject {
        exe,
        digest: digest(bytes),
    })
}

/// The original under a name, fetched and read, with the digest of its file. The name stands at the
/// position `word`.
///
/// The error is a failure of the shelf, the limit of the file, the refusal, or want of memory.
pub fn fetch_subject<F: Shelf>(
    alloc: Global,
    shelf: &mut F,
    name: &str,
    word: u32,
) -> Result<Subject, Halt>
    ensures goes { (w : World) → Goes (λ subject. subject) (subject_part name.now word)
        (on_shelf w (F.seen shelf.old)) result (on_shelf w (F.seen shelf.new)) }
    ensures original { IfOk result (λ subject. IsOriginal subject.exe) }
    ensures guest { IfOk result (λ subject. IsGuest subject.exe) }
{
    let bytes = fetch_file(alloc, shelf, name, ORIGINAL_FILE_LIMIT)?;
    subject_of(alloc, bytes.as_slice(), word)
}
