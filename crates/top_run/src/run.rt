//! `run [--steps K] E WORD..`: a guest takes at most K steps.
ghost use Rattle.std.specs.Prelude.{◌≡◌, ◌≤◌, ◌+◌, Ok, IfOk, length, true, map, string_bytes};
ghost use Rattle.elf_read.specs.Elf.{elf, IsGuest};
ghost use Rattle.elf_read.specs.declared.exe.Reach.TheVariants as reaches;
ghost use Rattle.br_outside.specs.Outside.{ShelfView};
ghost use Rattle.guest_run.specs.Guest.{beginning};
ghost use Rattle.run_model.specs.Opening.{FitArguments};
ghost use Rattle.top_plan.specs.World.{World, on_shelf, world};
ghost use Rattle.top_plan.specs.Plan.{Went};
ghost use Rattle.top_plan.specs.Parts.{Goes, Checks};
ghost use Rattle.top_run.specs.RunPlan.{guest_plan, stands, halt_of_error, TakesTurns, guest_part, run_plan};
ghost use Rattle.top_files.specs.OriginalPart.{of_word};
ghost use Rattle.top_plan.specs.Texts.{end_of};

use crate::lines::{finish_of, last_line};
use br_outside::{Shelf, Sink, Source};
use elf_read::{ElfError, Exe, GUEST_FILE_LIMIT, Reach, read_elf};
use guest_run::{Guest, STEP_LIMIT, SysError};
use std::alloc::Global;
use top_plan::{Cause, Halt, Object, Outcome, fetch_file};

/// What a file says as a guest.
///
/// The error is the refusal, with the position `word` of the word that names the file, or want of memory.
fn guest_of(alloc: Global, bytes: Vec<u8>, word: u32) -> Result<Exe, Halt>
    requires { length bytes.items ≤ GUEST_FILE_LIMIT }
    ensures checks { Checks (λ exe. exe) result (of_word word (elf reaches.Guest bytes.items)) }
    ensures guest { IfOk result IsGuest }
{
    match read_elf(alloc, &bytes, Reach::Guest) {
        Ok(exe) => Ok(exe),
        Err(ElfError::Refused { number, place }) => Err(Halt::Because(Cause::RefusedWord {
            word,
            number: u32::from(number),
            place,
        })),
        Err(ElfError::Memory) => Err(Halt::Memory),
    }
}

/// The guest under a name, fetched and read. The name stands at the position `word`.
///
/// The error is a failure of the shelf, the limit of the file, the refusal, or want of memory.
fn fetch_guest<F: Shelf>(alloc: Global, shelf: &mut F, name: &str, word: u32) -> Result<Exe, Halt>
    ensures goes { (w : World) → Goes (λ exe. exe) (guest_part name.now word)
        (on_shelf w (F.seen shelf.old)) result (on_shelf w (F.seen shelf.new)) }
    ensures guest { IfOk result IsGuest }
{
    let bytes = fetch_file(alloc, shelf, name, GUEST_FILE_LIMIT)?;
    guest_of(alloc, bytes, word)
}

/// The guest at its opening. The error is want of memory.
fn open_guest(alloc: Global, exe: &Exe, args: &[String]) -> Result<Guest, Halt>
    requires fit { FitArguments (map string_bytes args.now) }
    requires guest { IsGuest exe.now }
    ensures { Checks (λ g. g) result (Ok (beginning exe.now (map string_bytes args.now))) }
{
    match Guest::of(alloc, exe, args) {
        Ok(guest) => Ok(guest),
        Err(_) => Err(Halt::Memory),
    }
}

/// How the work ends where a step failed.
fn halt_of_error(error: SysError) -> Halt
    ensures { result ≡ halt_of_error error }
{
    match error {
        SysError::Input => Halt::Outside(Object::Input),
        SysError::Out => Halt::Outside(Object::Output),
        SysError::Report => Halt::Outside(Object::Report),
        SysError::Memory => Halt::Memory,
    }
}

/// Lets the guest take steps while it runs, at most `budget` of them.
///
/// The error is a failure of the input, the output or the report in a step, or want of memory.
fn take_turns<I: Source, O: Sink, R: Sink>(
    guest: &mut Guest,
    budget: u64,
    input: &mut I,
    out: &mut O,
    report: &mut R,
) -> Result<(), Halt>
    requires live { guest.old.live ≡ true }
    requires room { guest.old.steps + budget ≤ STEP_LIMIT }
    ensures { (v : ShelfView) → TakesTurns budget guest.old
        (world v (I.seen input.old) (O.seen out.old) (R.seen report.old)) result
        guest.new (world v (I.seen input.new) (O.seen out.new) (R.seen report.new)) }
{
    for turn in 0..budget {
        match guest.step(0, input, out, report) {
            Ok(true) => {}
            Ok(false) => return Ok(()),
            Err(error) => return Err(halt_of_error(error)),
        }
    }
    Ok(())
}

/// The end of the work, by how the guest stands. The error is want of memory.
fn outcome_of(alloc: Global, guest: &Guest) -> Result<Outcome, Halt>
    ensures { (w : World) → Went (stands guest.now) w (end_of result) w }
{
    let stand = guest.stop();
    match last_line(alloc, stand, guest.steps(), guest.undefined()) {
        Ok(line) => Ok(Outcome {
            finish: finish_of(stand),
            line: Some(line),
        }),
        Err(_) => Err(Halt::Memory),
    }
}

/// Runs a guest from its opening, for at most `steps` steps.
fn run_guest<I: Source, O: Sink, R: Sink>(
    alloc: Global,
    exe: &Exe,
    args: &[String],
    steps: u64,
    input: &mut I,
    out: &mut O,
    report: &mut R,
) -> Result<Outcome, Halt>
    requires fit { FitArguments (map string_bytes args.now) }
    requires guest { IsGuest exe.now }
    requires few { steps ≤ STEP_LIMIT }
    ensures { (v : ShelfView) → Went (guest_plan steps (beginning exe.now (map string_bytes args.now)))
        (world v (I.seen input.old) (O.seen out.old) (R.seen report.old)) (end_of result)
        (world v (I.seen input.new) (O.seen out.new) (R.seen report.new)) }
{
    let mut guest = open_guest(alloc, exe, args)?;
    take_turns(&mut guest, steps, input, out, report)?;
    outcome_of(alloc, &guest)
}

/// `run [--steps K] E WORD..`: runs the file E, which `word` names, as a guest that is given `args`,
/// for at most `steps` steps, and answers how it stands and the report line.
///
/// The error is the first cause in the order of the work: a failure of the shelf, the limit of the file, its refusal, a
/// failure of the input, the output or the report in the run, or want of memory. What the guest wrote before it was written.
pub fn run_command<F: Shelf, I: Source, O: Sink, R: Sink>(
    alloc: Global,
    shelf: &mut F,
    input: &mut I,
    out: &mut O,
    report: &mut R,
    steps: u64,
    original: &str,
    args: &[String],
    word: u32,
) -> Result<Outcome, Halt>
    requires fit { FitArguments (map string_bytes args.now) }
    requires few { steps ≤ STEP_LIMIT }
    ensures { Went (run_plan steps original.now (map string_bytes args.now) word)
        (world (F.seen shelf.old) (I.seen input.old) (O.seen out.old) (R.seen report.old)) (end_of result)
        (world (F.seen shelf.new) (I.seen input.new) (O.seen out.new) (R.seen report.new)) }
{
    let exe = fetch_guest(alloc, shelf, original, word)?;
    run_guest(alloc, &exe, args, steps, input, out, report)
}
