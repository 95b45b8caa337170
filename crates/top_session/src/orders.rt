//! What the lines of a script ask.
ghost use Rattle.std.specs.Prelude.{◌≡◌, ◌≤◌, ◌+◌};
ghost use Rattle.trace_file.specs.Trace.{trace};
ghost use Rattle.trace_set.specs.declared.error.TheConstants.{ADDITION_LIMIT};
ghost use Rattle.top_plan.specs.World.{World, on_shelf, on_out};
ghost use Rattle.top_plan.specs.Parts.{Goes, Checks};
ghost use Rattle.top_session.specs.SessionPlan.{edges_of_line, trace_part, added_part, removed_part, emitted_part};
ghost use Rattle.top_session.specs.Parts.{on_two, AddsTrace, RemovesTrace, EmitsFile};

use crate::limits::NOT_LIVE;
use crate::texts::{added_text, emitted_text, removed_text};
use br_outside::{Shelf, Sink};
use br_word::Steps;
use code_layout::{BuildError, Built, MAX_CODE};
use flow_graph::MAX_BLOCKS;
use session_core::Session;
use std::alloc::Global;
use top_files::TRACE_FILE_LIMIT;
use top_plan::{Cause, Halt, Limit, fetch_file, print_text, store_file};
use trace_file::{EDGE_LIMIT, Edges, TraceError, read_trace};
use trace_set::{SetError, TRACE_LIMIT, Unknown};

/// The number of the refusal of a trace of another executable, and its place.
const OTHER_NUMBER: u32 = 22;

const OTHER_PLACE: u32 = 8;

/// What a file says as a trace of the original with this digest. The error is the refusal, with the number of the line that asks
/// for it, or want of memory.
fn edges_of(alloc: Global, bytes: &[u8], digest: &[u8; 32], line: u32) -> Result<Edges, Halt>
    ensures { Checks (λ es. es) result (edges_of_line line (trace bytes.now digest.now)) }
{
    match read_trace(alloc, bytes, digest) {
        Ok(edges) => Ok(edges),
        Err(TraceError::Refused { number, place }) => Err(Halt::Because(Cause::RefusedLine {
            line,
            number: u32::from(number),
            place,
        })),
        Err(TraceError::Other { .. }) => Err(Halt::Because(Cause::RefusedLine {
            line,
            number: OTHER_NUMBER,
            place: OTHER_PLACE,
        })),
        Err(TraceError::Memory) => Err(Halt::Memory),
    }
}

/// The trace under a name. The error is a failure of the shelf, the limit of the file, its refusal, or want of memory.
fn fetch_edges<F: Shelf>(
    alloc: Global,
    shelf: &mut F,
    digest: &[u8; 32],
    name: &str,
    line: u32,
) -> Result<Edges, Halt>
    ensures { (w : World) → Goes (λ es. es) (trace_part digest.now line name.now)
        (on_shelf w (F.seen shelf.old)) result (on_shelf w (F.seen shelf.new)) }
{
    let bytes = fetch_file(alloc, shelf, name, TRACE_FILE_LIMIT)?;
    edges_of(alloc, bytes.as_slice(), digest, line)
}

/// Adds a trace, and answers its number. The error is the limit on live traces, that on their edges, or want of memory.
fn add_edges(session: &mut Session<()>, edges: &Edges) -> Result<u32, Halt>
    requires { session.old.next ≤ ADDITION_LIMIT }
    ensures adds { AddsTrace session.old edges.now result session.new }
    ensures few { session.new.next ≤ session.old.next + 1 }
{
    match session.add(edges) {
        Ok(number) => Ok(number),
        Err(SetError::Traces) => Err(Halt::Because(Cause::Limited(Limit::Traces(TRACE_LIMIT)))),
        Err(SetError::Edges) => Err(Halt::Because(Cause::Limited(Limit::Edges(EDGE_LIMIT)))),
        Err(SetError::Spent) => unreachable!(),
        Err(SetError::Memory) => Err(Halt::Memory),
    }
}

/// `add NAME`: fetches a trace, adds it, and prints its number. The error is that of the first of these that has one.
pub fn add_trace<F: Shelf, O: Sink>(
    alloc: Global,
    shelf: &mut F,
    out: &mut O,
    digest: &[u8; 32],
    session: &mut Session<()>,
    name: &str,
    line: u32,
) -> Result<(), Halt>
    requires { session.old.next ≤ ADDITION_LIMIT }
    ensures goes { (w : World) → Goes (λ done. session.new) (added_part digest.now line session.old name.now)
        (on_two w (F.seen shelf.old) (O.seen out.old)) result (on_two w (F.seen shelf.new) (O.seen out.new)) }
    ensures few { session.new.next ≤ session.old.next + 1 }
{
    let edges = fetch_edges(alloc, shelf, digest, name, line)?;
    let number = add_edges(session, &edges)?;
    let text = added_text(alloc, number)?;
    print_text(out, text.as_bytes())
}

/// Takes a trace away. The error is the refusal of a number that no live trace has.
fn remove_number(session: &mut Session<()>, number: u32, line: u32) -> Result<(), Halt>
    ensures removes { RemovesTrace line session.old number result session.new }
    ensures next { session.new.next ≡ session.old.next }
{
    let mut steps: Steps<()> = Steps::new(());
    match session.remove(number, &mut steps) {
        Ok(()) => Ok(()),
        Err(Unknown) => Err(Halt::Because(Cause::RefusedLine {
            line,
            number: NOT_LIVE,
            place: 0,
        })),
    }
}

/// `remove K`: takes a trace away, and prints its number. The error is that of the first of these that has one.
pub fn remove_trace<O: Sink>(
    alloc: Global,
    out: &mut O,
    session: &mut Session<()>,
    number: u32,
    line: u32,
) -> Result<(), Halt>
    ensures goes { (w : World) → Goes (λ done. session.new) (removed_part line session.old number)
        (on_out w (O.seen out.old)) result (on_out w (O.seen out.new)) }
    ensures next { session.new.next ≡ session.old.next }
{
    remove_number(session, number, line)?;
    let text = removed_text(alloc, number)?;
    print_text(out, text.as_bytes())
}

/// The file of the live traces. The error is the limit on its blocks, that on its code, or want of memory.
fn emit_file(session: &mut Session<()>) -> Result<Built, Halt>
    ensures emits { EmitsFile session.old result session.new }
    ensures next { session.new.next ≡ session.old.next }
{
    let mut steps: Steps<()> = Steps::new(());
    match session.emit(&mut steps) {
        Ok(emitted) => Ok(emitted.into_built()),
        Err(BuildError::Blocks) => Err(Halt::Because(Cause::Limited(Limit::Blocks(MAX_BLOCKS)))),
        Err(BuildError::Code) => Err(Halt::Because(Cause::Limited(Limit::Code(MAX_CODE)))),
        Err(BuildError::Memory) => Err(Halt::Memory),
    }
}

/// `emit NAME`: stores the file of the live traces, and prints its numbers. The text is made before the file is stored. The error
/// is that of the first of these that has one.
pub fn emit_named<F: Shelf, O: Sink>(
    alloc: Global,
    shelf: &mut F,
    out: &mut O,
    session: &mut Session<()>,
    name: &str,
) -> Result<(), Halt>
    ensures goes { (w : World) → Goes (λ done. session.new) (emitted_part session.old name.now)
        (on_two w (F.seen shelf.old) (O.seen out.old)) result (on_two w (F.seen shelf.new) (O.seen out.new)) }
    ensures next { session.new.next ≡ session.old.next }
{
    let built = emit_file(session)?;
    let text = emitted_text(alloc, &built, session.compiled_last())?;
    store_file(shelf, name, built.bytes.as_slice())?;
    print_text(out, text.as_bytes())
}
