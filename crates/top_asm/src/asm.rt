//! `asm N TEXT`: the executable that a source stands for, stored under a name.
ghost use Rattle.std.specs.Prelude.{◌≤◌, length, string_bytes, Ok};
ghost use Rattle.asm_text.specs.declared.limits.TheConstants.{SOURCE_LIMIT};
ghost use Rattle.asm_text.specs.Source.{assembled};
ghost use Rattle.top_plan.specs.World.{World, on_shelf};
ghost use Rattle.top_plan.specs.Plan.{Fetches, Went};
ghost use Rattle.top_plan.specs.Parts.{Goes, Checks, checked};
ghost use Rattle.top_plan.specs.Texts.{end_of};
ghost use Rattle.top_asm.specs.AsmPlan.{file_of_word, assembled_line, store_part, asm_plan};

use asm_text::{AsmError, SOURCE_LIMIT, assemble};
use br_outside::Shelf;
use std::alloc::Global;
use top_plan::{Cause, Finish, Halt, Outcome, fetch_file, store_file};

/// The file of a source, whose name stands at the position 2.
///
/// The error is the source's first refusal, with that position, or want of memory.
fn file_of(alloc: Global, source: &[u8]) -> Result<Vec<u8>, Halt>
    requires { length source.now ≤ SOURCE_LIMIT }
    ensures { Checks (λ file. file.items) result (file_of_word 2 (assembled source.now)) }
{
    match assemble(alloc, source) {
        Ok(file) => Ok(file),
        Err(AsmError::Refused { number, line }) => Err(Halt::Because(Cause::RefusedWord {
            word: 2,
            number: u32::from(number),
            place: line,
        })),
        Err(AsmError::Memory) => Err(Halt::Memory),
    }
}

/// The file of the source under a name.
///
/// The error is a failure of the shelf, the limit of the source, its first refusal, or want of memory.
fn fetch_assembled<F: Shelf>(alloc: Global, shelf: &mut F, text: &str) -> Result<Vec<u8>, Halt>
    ensures { (w : World) → Goes (λ file. file.items)
        (λ next. Fetches text.now SOURCE_LIMIT (λ source. checked (file_of_word 2 (assembled source)) next))
        (on_shelf w (F.seen shelf.old)) result (on_shelf w (F.seen shelf.new)) }
{
    let source = fetch_file(alloc, shelf, text, SOURCE_LIMIT)?;
    file_of(alloc, source.as_slice())
}

/// The report line of a file of a length in bytes. The error is want of memory.
fn line_of(alloc: Global, file: &[u8]) -> Result<String, Halt>
    ensures { Checks string_bytes result (Ok (assembled_line file.now)) }
{
    let length = file.len();
    match format!(in alloc; "assembled {length}\n") {
        Ok(line) => Ok(line),
        Err(_) => Err(Halt::Memory),
    }
}

/// Stores a file under a name. The line is made before the file is stored.
///
/// The error is want of memory, after which nothing is stored, or a failure of the shelf.
fn store_assembled<F: Shelf>(
    alloc: Global,
    shelf: &mut F,
    name: &str,
    file: &[u8],
) -> Result<Outcome, Halt>
    ensures { (w : World) → Went (store_part name.now file.now)
        (on_shelf w (F.seen shelf.old)) (end_of result) (on_shelf w (F.seen shelf.new)) }
{
    let line = line_of(alloc, file)?;
    store_file(shelf, name, file)?;
    Ok(Outcome {
        finish: Finish::Done,
        line: Some(line),
    })
}

/// `asm N TEXT`: stores the executable that the source TEXT stands for under the name N, and answers the report line.
///
/// The error is the first cause in the order of the work: a failure of the shelf, the limit of the source,
/// its first refusal, or want of memory.
pub fn asm_command<F: Shelf>(
    alloc: Global,
    shelf: &mut F,
    name: &str,
    text: &str,
) -> Result<Outcome, Halt>
    ensures { (w : World) → Went (asm_plan name.now text.now)
        (on_shelf w (F.seen shelf.old)) (end_of result) (on_shelf w (F.seen shelf.new)) }
{
    let file = fetch_assembled(alloc, shelf, text)?;
    store_assembled(alloc, shelf, name, file.as_slice())
}
