//! A guest runs, and its edges are recorded.
ghost use Rattle.std.specs.Prelude.{◌≡◌, ◌≤◌, ◌+◌, ◌^◌, true, IfSome, IfOk, length, map, string_bytes, [], ◌∷◌};
ghost use Rattle.elf_read.specs.Elf.{IsGuest};
ghost use Rattle.run_model.specs.Opening.{FitArguments, opening, arguments};
ghost use Rattle.guest_run.specs.Guest.{beginning, streams};
ghost use Rattle.tracer.specs.TracedRun.{TracedRun, Faults, Follows, entry_edge};
ghost use Rattle.tracer.specs.TraceTold.{TraceGives};

use crate::answers::{Traced, TracingError};
use crate::recorder::Recorder;
use br_outside::{Sink, Source};
use elf_read::Exe;
use guest_run::{Guest, STEP_LIMIT, breaks_hold, runs_hold, steps_hold};
use std::alloc::Global;
use trace_file::FILE_EDGE_LIMIT;

/// Lets the guest take at most `budget` steps while it runs, and records their edges.
fn follow<I: Source, O: Sink, E: Sink>(
    guest: &mut Guest,
    recorder: &mut Recorder,
    budget: u64,
    input: &mut I,
    out: &mut O,
    err: &mut E,
) -> Result<(), TracingError>
    requires live { guest.old.live ≡ true }
    requires room { guest.old.steps + budget ≤ STEP_LIMIT }
    requires few { length recorder.old ≤ FILE_EDGE_LIMIT }
    ensures { Follows result budget guest.old guest.new recorder.old recorder.new
        (streams (I.seen input.old) (O.seen out.old) (E.seen err.old)) (streams (I.seen input.new) (O.seen out.new) (E.seen err.new)) }
{
    for _step in 0..budget {
        if !guest.step(0, input, out, err)? {
            return Ok(());
        }
        if let Some(edge) = guest.edge() {
            recorder.add(edge)?;
        }
    }
    Ok(())
}

/// The trace of a guest from where it stands, with the edges that are recorded already.
fn trace_guest<I: Source, O: Sink, E: Sink>(
    alloc: Global,
    mut guest: Guest,
    mut recorder: Recorder,
    budget: u64,
    input: &mut I,
    out: &mut O,
    err: &mut E,
) -> Result<Traced, TracingError>
    requires live { guest.live ≡ true }
    requires room { guest.steps + budget ≤ STEP_LIMIT }
    requires few { length recorder ≤ FILE_EDGE_LIMIT }
    ensures few { IfOk result (λ t. length t.edges ≤ FILE_EDGE_LIMIT) }
    ensures steps { TracedRun result budget guest recorder (streams (I.seen input.old) (O.seen out.old) (E.seen err.old))
        (streams (I.seen input.new) (O.seen out.new) (E.seen err.new)) }
{
    follow(&mut guest, &mut recorder, budget, input, out, err)?;
    Ok(Traced {
        edges: recorder.edges(alloc)?,
        stop: guest.stop(),
        steps: guest.steps(),
        undefined: guest.undefined(),
    })
}

/// The trace of an executable from its opening.
fn trace_opened<I: Source, O: Sink, E: Sink>(
    alloc: Global,
    exe: &Exe,
    args: &[String],
    budget: u64,
    input: &mut I,
    out: &mut O,
    err: &mut E,
) -> Result<Traced, TracingError>
    requires exe { IsGuest exe.now }
    requires args { FitArguments (map string_bytes args.now) }
    requires budget { budget ≤ STEP_LIMIT }
    ensures few { IfOk result (λ t. length t.edges ≤ FILE_EDGE_LIMIT) }
    ensures steps { TracedRun result budget (beginning exe.now (map string_bytes args.now)) (entry_edge exe.now ∷ [])
        (streams (I.seen input.old) (O.seen out.old) (E.seen err.old)) (streams (I.seen input.new) (O.seen out.new) (E.seen err.new)) }
{
    let guest = Guest::of(alloc, exe, args)?;
    let recorder = Recorder::of(alloc, (0, exe.entry))?;
    trace_guest(alloc, guest, recorder, budget, input, out, err)
}

/// Runs an executable as a guest that is given these words, for at most `budget` steps with the choice 0,
/// and answers the edges of the steps that it took, in order: the pair of 0 and the entry, and for each
/// transfer (Jcc, JMP, CALL, RET) that did not fault the pair of its address and the eip after it, for a
/// Jcc that is not taken too.
///
/// An edge takes work that is logarithmic in the number of distinct edges, and only distinct edges take
/// memory. Reads take their bytes of `input`, and writes give theirs to `out` (descriptor 1) or `err`
/// (descriptor 2), as a run without a trace does.
///
/// Errors: `Union` exactly at the step where there are more than [`FILE_EDGE_LIMIT`] distinct edges; input and sinks
/// are then as that step leaves them. `Input`, `Out` and `Report` where that object failed, and `Memory`
/// for want of memory; a front part of the bytes of the step that failed may have been taken or written.
/// `Input`, `Out` and `Report` leave the counts of faults of the other objects as they were, and every other
/// answer those of all.
pub fn trace<I: Source, O: Sink, E: Sink>(
    alloc: Global,
    exe: &Exe,
    args: &[String],
    budget: u64,
    input: &mut I,
    out: &mut O,
    err: &mut E,
) -> Result<Traced, TracingError>
    requires exe { IsGuest exe.now }
    requires args { FitArguments (map string_bytes args.now) }
    requires budget { budget ≤ STEP_LIMIT }
    ensures few { IfOk result (λ t. length t.edges ≤ FILE_EDGE_LIMIT) }
    ensures steps { TracedRun result budget (beginning exe.now (map string_bytes args.now)) (entry_edge exe.now ∷ [])
        (streams (I.seen input.old) (O.seen out.old) (E.seen err.old)) (streams (I.seen input.new) (O.seen out.new) (E.seen err.new)) }
    ensures faults { Faults result (streams (I.seen input.old) (O.seen out.old) (E.seen err.old))
        (streams (I.seen input.new) (O.seen out.new) (E.seen err.new)) }
    ensures told { IfSome (I.seen input.old).bytes (λ left. TraceGives result budget exe.now
        (opening exe.now (arguments (map string_bytes args.now)) left)
        (streams (I.seen input.old) (O.seen out.old) (E.seen err.old)) (streams (I.seen input.new) (O.seen out.new) (E.seen err.new))) }
{
    steps_hold();
    runs_hold();
    breaks_hold();
    trace_opened(alloc, exe, args, budget, input, out, err)
}
