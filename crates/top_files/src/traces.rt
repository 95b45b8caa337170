//! Traces that are fetched and stored.
ghost use Rattle.std.specs.Prelude.{◌≤◌, ◌<◌, ◌+◌, ◌^◌, Ok, IfOk, length, map, string_bytes};
ghost use Rattle.trace_file.specs.Edges.{pairs};
ghost use Rattle.trace_file.specs.Trace.{trace, trace_bytes};
ghost use Rattle.top_plan.specs.World.{World, on_shelf};
ghost use Rattle.top_plan.specs.Plan.{Stores};
ghost use Rattle.top_plan.specs.Parts.{Goes, Checks};
ghost use Rattle.top_files.specs.TracesPart.{edges_of_word, counted, trace_part, traces_part};

use br_outside::Shelf;
use std::alloc::Global;
use top_plan::{Cause, Halt, Limit, fetch_file, store_file};
use trace_file::{EDGE_LIMIT, Edges, FILE_EDGE_LIMIT, TraceError, read_trace, write_trace};

/// The most bytes of a file that is fetched as a trace.
pub const TRACE_FILE_LIMIT: u32 = 16777216;

/// The number of the refusal of a trace of another executable, and its place.
const OTHER_NUMBER: u32 = 22;

const OTHER_PLACE: u32 = 8;

/// What a file says as a trace of the original with this digest.
///
/// The error is the refusal, with the position `word` of the word that names the file, or want of
/// memory.
fn edges_of(alloc: Global, bytes: &[u8], digest: &[u8; 32], word: u32) -> Result<Edges, Halt>
    ensures { Checks (λ es. es) result (edges_of_word word (trace bytes.now digest.now)) }
{
    match read_trace(alloc, bytes, digest) {
        Ok(edges) => Ok(edges),
        Err(TraceError::Refused { number, place }) => Err(Halt::Because(Cause::RefusedWord {
            word,
            number: u32::from(number),
            place,
        })),
        Err(TraceError::Other { .. }) => Err(Halt::Because(Cause::RefusedWord {
            word,
            number: OTHER_NUMBER,
            place: OTHER_PLACE,
        })),
        Err(TraceError::Memory) => Err(Halt::Memory),
    }
}

/// The same, where the traces before it have `before` edges together: the error may also be the limit on
/// the edges of all.
fn counted_edges(
    alloc: Global,
    bytes: &[u8],
    digest: &[u8; 32],
    word: u32,
    before: u32,
) -> Result<Edges, Halt>
    requires { before ≤ EDGE_LIMIT }
    ensures checks { Checks (λ es. es) result (counted before (edges_of_word word (trace bytes.now digest.now))) }
    ensures count { IfOk result (λ es. before + length es ≤ EDGE_LIMIT) }
{
    let edges = edges_of(alloc, bytes, digest, word)?;
    if edges.len() > EDGE_LIMIT - before {
        return Err(Halt::Because(Cause::Limited(Limit::Edges(EDGE_LIMIT))));
    }
    Ok(edges)
}

/// The trace under a name, fetched, read and counted. The name stands at the position `word`.
///
/// The error is a failure of the shelf, the limit of the file, the refusal, the limit on the edges of
/// all traces, or want of memory.
fn fetch_trace<F: Shelf>(
    alloc: Global,
    shelf: &mut F,
    digest: &[u8; 32],
    name: &str,
    word: u32,
    before: u32,
) -> Result<Edges, Halt>
    requires { before ≤ EDGE_LIMIT }
    ensures goes { (w : World) → Goes (λ es. es) (trace_part digest.now name.now word before)
        (on_shelf w (F.seen shelf.old)) result (on_shelf w (F.seen shelf.new)) }
    ensures count { IfOk result (λ es. before + length es ≤ EDGE_LIMIT) }
{
    let bytes = fetch_file(alloc, shelf, name, TRACE_FILE_LIMIT)?;
    counted_edges(alloc, bytes.as_slice(), digest, word, before)
}

/// The traces under names, one after another. The first name stands at the position `word`.
///
/// The error is that of the first trace that has one.
pub fn fetch_traces<F: Shelf>(
    alloc: Global,
    shelf: &mut F,
    digest: &[u8; 32],
    names: &[String],
    word: u32,
) -> Result<Vec<Edges>, Halt>
    requires few { word + length names.now < 2 ^ 32 }
    ensures goes { (w : World) → Goes (λ v. v.items) (traces_part digest.now (map string_bytes names.now) word 0)
        (on_shelf w (F.seen shelf.old)) result (on_shelf w (F.seen shelf.new)) }
    ensures count { IfOk result (λ v. pairs v.items ≤ EDGE_LIMIT) }
{
    let mut traces = Vec::new(alloc);
    let mut count = 0;
    let mut at = word;
    for name in names {
        let edges = fetch_trace(alloc, shelf, digest, name.as_str(), at, count)?;
        count += edges.len();
        if traces.push(edges).is_err() {
            return Err(Halt::Memory);
        }
        at += 1;
    }
    Ok(traces)
}

/// The file of a trace. The error is want of memory.
fn file_of(alloc: Global, edges: &Edges, digest: &[u8; 32]) -> Result<Vec<u8>, Halt>
    requires { length edges.now ≤ FILE_EDGE_LIMIT }
    ensures { Checks (λ v. v.items) result (Ok (trace_bytes edges.now digest.now)) }
{
    match write_trace(alloc, edges, digest) {
        Ok(file) => Ok(file),
        Err(_) => Err(Halt::Memory),
    }
}

/// Stores edges under a name, as a trace of the original with this digest.
///
/// The error is want of memory, after which the content of the name is as before, or a failure of the shelf, after
/// which it is not known.
pub fn store_trace<F: Shelf>(
    alloc: Global,
    shelf: &mut F,
    name: &str,
    edges: &Edges,
    digest: &[u8; 32],
) -> Result<(), Halt>
    requires { length edges.now ≤ FILE_EDGE_LIMIT }
    ensures { (w : World) → Goes (λ x. x) (λ next. Stores name.now (trace_bytes edges.now digest.now) (next tt))
        (on_shelf w (F.seen shelf.old)) result (on_shelf w (F.seen shelf.new)) }
{
    let file = file_of(alloc, edges, digest)?;
    store_file(shelf, name, file.as_slice())
}
