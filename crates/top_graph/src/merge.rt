//! `merge T E T..`: the union of traces, stored under a name.
ghost use Rattle.std.specs.Prelude.{◌≤◌, ◌<◌, ◌+◌, ◌^◌, Ok, IfOk, length, map, string_bytes};
ghost use Rattle.trace_file.specs.Edges.{pairs, union_of};
ghost use Rattle.top_plan.specs.World.{World, on_shelf};
ghost use Rattle.top_plan.specs.Plan.{Went};
ghost use Rattle.top_plan.specs.Parts.{Checks};
ghost use Rattle.top_files.specs.TracesPart.{limited};
ghost use Rattle.top_graph.specs.MergePlan.{merge_plan, merged_line, store_part};
ghost use Rattle.top_plan.specs.Texts.{end_of};

use br_outside::Shelf;
use std::alloc::Global;
use top_files::{fetch_subject, fetch_traces, store_trace};
use top_plan::{Cause, Finish, Halt, Limit, Outcome};
use trace_file::{EDGE_LIMIT, Edges, FILE_EDGE_LIMIT, union_all};

/// The union of traces. The error is the limit on it, or want of memory.
fn union_of(alloc: Global, traces: Vec<Edges>) -> Result<Edges, Halt>
    requires { pairs traces.items ≤ EDGE_LIMIT }
    ensures checks { Checks (λ es. es) result (limited (union_of traces.items)) }
    ensures count { IfOk result (λ es. length es ≤ FILE_EDGE_LIMIT) }
{
    let Ok(edges) = union_all(alloc, traces.as_slice()) else {
        return Err(Halt::Memory);
    };
    if edges.len() > FILE_EDGE_LIMIT {
        return Err(Halt::Because(Cause::Limited(Limit::Union(FILE_EDGE_LIMIT))));
    }
    Ok(edges)
}

/// The report line of a union. The error is want of memory.
fn line_of(alloc: Global, edges: u32) -> Result<String, Halt>
    ensures { Checks string_bytes result (Ok (merged_line edges)) }
{
    match format!(in alloc; "merged {edges}\n") {
        Ok(line) => Ok(line),
        Err(_) => Err(Halt::Memory),
    }
}

/// Stores a union under a name. The line is made before the file is stored.
///
/// The error is want of memory, after which nothing is stored, or a failure of the shelf.
fn store_union<F: Shelf>(
    alloc: Global,
    shelf: &mut F,
    target: &str,
    edges: &Edges,
    digest: &[u8; 32],
) -> Result<Outcome, Halt>
    requires { length edges.now ≤ FILE_EDGE_LIMIT }
    ensures { (w : World) → Went (store_part target.now digest.now edges.now)
        (on_shelf w (F.seen shelf.old)) (end_of result) (on_shelf w (F.seen shelf.new)) }
{
    let line = line_of(alloc, edges.len())?;
    store_trace(alloc, shelf, target, edges, digest)?;
    Ok(Outcome {
        finish: Finish::Done,
        line: Some(line),
    })
}

/// `merge T E T..`: stores the union of the later traces of the original E under the name of the first,
/// and answers the report line.
///
/// The error is the first cause in the order of the work: a failure of the shelf, the limit of a file,
/// its refusal, the limit on the edges of all traces, the limit on their union, or want of memory.
pub fn merge_command<F: Shelf>(
    alloc: Global,
    shelf: &mut F,
    target: &str,
    original: &str,
    names: &[String],
) -> Result<Outcome, Halt>
    requires { 3 + length names.now < 2 ^ 32 }
    ensures { (w : World) → Went (merge_plan target.now original.now (map string_bytes names.now))
        (on_shelf w (F.seen shelf.old)) (end_of result) (on_shelf w (F.seen shelf.new)) }
{
    let subject = fetch_subject(alloc, shelf, original, 2)?;
    let traces = fetch_traces(alloc, shelf, &subject.digest, names, 3)?;
    let edges = union_of(alloc, traces)?;
    store_union(alloc, shelf, target, &edges, &subject.digest)
}
