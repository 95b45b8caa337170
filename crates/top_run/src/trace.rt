//! `trace [--steps K] T E WORD..`: a guest takes at most K steps, and their edges are stored.
ghost use Rattle.std.specs.Prelude.{◌≡◌, ◌≤◌, Ok, IfOk, [], ◌∷◌, length, map, string_bytes};
ghost use Rattle.elf_read.specs.Elf.{IsGuest};
ghost use Rattle.br_outside.specs.Outside.{ShelfView};
ghost use Rattle.guest_run.specs.Guest.{beginning, stop_of};
ghost use Rattle.run_model.specs.Opening.{FitArguments};
ghost use Rattle.tracer.specs.TracedRun.{entry_edge};
ghost use Rattle.top_plan.specs.World.{World, on_shelf, world};
ghost use Rattle.top_plan.specs.Plan.{Went};
ghost use Rattle.top_plan.specs.Parts.{Goes, Checks};
ghost use Rattle.top_run.specs.TracePlan.{traced_line, tour_plan, halt_of_tracing, traced_part, trace_plan};
ghost use Rattle.top_plan.specs.Texts.{end_of};

use crate::lines::{finish_of, traced_line};
use br_outside::{Shelf, Sink, Source};
use elf_read::Exe;
use guest_run::STEP_LIMIT;
use std::alloc::Global;
use top_files::{fetch_subject, store_trace};
use top_plan::{Cause, Halt, Limit, Object, Outcome};
use trace_file::FILE_EDGE_LIMIT;
use tracer::{Traced, TracingError, trace};

/// How the work ends where a run was not traced to its end.
fn halt_of_tracing(error: TracingError) -> Halt
    ensures { result ≡ halt_of_tracing error }
{
    match error {
        TracingError::Input => Halt::Outside(Object::Input),
        TracingError::Out => Halt::Outside(Object::Output),
        TracingError::Report => Halt::Outside(Object::Report),
        TracingError::Union => Halt::Because(Cause::Limited(Limit::Union(FILE_EDGE_LIMIT))),
        TracingError::Memory => Halt::Memory,
    }
}

/// Runs a guest from its opening, for at most `steps` steps, and records their edges.
fn trace_guest<I: Source, O: Sink, R: Sink>(
    alloc: Global,
    exe: &Exe,
    args: &[String],
    steps: u64,
    input: &mut I,
    out: &mut O,
    report: &mut R,
) -> Result<Traced, Halt>
    requires fit { FitArguments (map string_bytes args.now) }
    requires guest { IsGuest exe.now }
    requires few { steps ≤ STEP_LIMIT }
    ensures goes { (v : ShelfView) → Goes (λ t. t)
        (λ last. tour_plan last steps (beginning exe.now (map string_bytes args.now)) (entry_edge exe.now ∷ []))
        (world v (I.seen input.old) (O.seen out.old) (R.seen report.old)) result
        (world v (I.seen input.new) (O.seen out.new) (R.seen report.new)) }
    ensures few { IfOk result (λ t. length t.edges ≤ FILE_EDGE_LIMIT) }
{
    match trace(alloc, exe, args, steps, input, out, report) {
        Ok(traced) => Ok(traced),
        Err(error) => Err(halt_of_tracing(error)),
    }
}

/// The report line of a traced run. The error is want of memory.
fn line_of(alloc: Global, traced: &Traced) -> Result<String, Halt>
    ensures { Checks string_bytes result
        (Ok (traced_line (stop_of traced.now.stop) traced.now.steps traced.now.undefined (length traced.now.edges))) }
{
    let edges = traced.edges.len();
    match traced_line(alloc, traced.stop, traced.steps, traced.undefined, edges) {
        Ok(line) => Ok(line),
        Err(_) => Err(Halt::Memory),
    }
}

/// Stores the edges of a traced run under a name. The line is made before the file is stored.
///
/// The error is want of memory, after which nothing is stored, or a failure of the shelf.
fn store_traced<F: Shelf>(
    alloc: Global,
    shelf: &mut F,
    target: &str,
    traced: &Traced,
    digest: &[u8; 32],
) -> Result<Outcome, Halt>
    requires { length traced.now.edges ≤ FILE_EDGE_LIMIT }
    ensures { (w : World) → Went (traced_part target.now digest.now traced.now)
        (on_shelf w (F.seen shelf.old)) (end_of result) (on_shelf w (F.seen shelf.new)) }
{
    let line = line_of(alloc, traced)?;
    store_trace(alloc, shelf, target, &traced.edges, digest)?;
    Ok(Outcome {
        finish: finish_of(traced.stop),
        line: Some(line),
    })
}

/// `trace [--steps K] T E WORD..`: runs the original E, which `word` names, as a guest that is given
/// `args`, for at most `steps` steps, stores the edges of the steps that it took under the name T, also
/// where the guest faulted or took all steps, and answers the report line.
///
/// The error is the first cause in the order of the work: a failure of the shelf, the limit of the file,
/// its refusal, a failure of the input, the output or the report in the run, the limit on the edges at the
/// step that passes it, after which nothing is stored, or want of memory.
pub fn trace_command<F: Shelf, I: Source, O: Sink, R: Sink>(
    alloc: Global,
    shelf: &mut F,
    input: &mut I,
    out: &mut O,
    report: &mut R,
    steps: u64,
    target: &str,
    original: &str,
    args: &[String],
    word: u32,
) -> Result<Outcome, Halt>
    requires fit { FitArguments (map string_bytes args.now) }
    requires few { steps ≤ STEP_LIMIT }
    ensures { Went (trace_plan steps target.now original.now (map string_bytes args.now) word)
        (world (F.seen shelf.old) (I.seen input.old) (O.seen out.old) (R.seen report.old)) (end_of result)
        (world (F.seen shelf.new) (I.seen input.new) (O.seen out.new) (R.seen report.new)) }
{
    let subject = fetch_subject(alloc, shelf, original, word)?;
    let traced = trace_guest(alloc, &subject.exe, args, steps, input, out, report)?;
    store_traced(alloc, shelf, target, &traced, &subject.digest)
}
