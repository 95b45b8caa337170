//! `show E T..`: the listing of the blocks that traces have seen.
ghost use Rattle.std.specs.Prelude.{◌≤◌, ◌<◌, ◌+◌, ◌^◌, Ok, IfOk, length, map, string_bytes};
ghost use Rattle.elf_read.specs.Elf.{IsGuest};
ghost use Rattle.br_outside.specs.Outside.{StreamView};
ghost use Rattle.trace_file.specs.Edges.{pairs, union_of};
ghost use Rattle.flow_graph.specs.Graph.{AreCode, AreCutsOf};
ghost use Rattle.flow_graph.specs.GraphOf.{graph_of};
ghost use Rattle.top_plan.specs.World.{World, on_out, world};
ghost use Rattle.top_plan.specs.Plan.{Went};
ghost use Rattle.top_plan.specs.Parts.{Checks};
ghost use Rattle.top_graph.specs.ShowPlan.{listing, limited_graph, shown_line, listing_part, show_plan};
ghost use Rattle.top_plan.specs.Texts.{end_of};

use br_outside::{Shelf, Sink};
use elf_read::Exe;
use flow_graph::{Graph, GraphError, MAX_BLOCKS, one_graph};
use show_text::show_cut_block;
use std::alloc::Global;
use top_files::{fetch_subject, fetch_traces};
use top_plan::{Cause, Finish, Halt, Limit, Outcome, print_text};
use trace_file::{EDGE_LIMIT, Edges, union_all};

/// The graph of an original and the union of its traces. The error is the limit on its blocks, or want of
/// memory.
fn graph_of(alloc: Global, exe: &Exe, traces: Vec<Edges>) -> Result<Graph, Halt>
    requires guest { IsGuest exe.now }
    requires few { pairs traces.items ≤ EDGE_LIMIT }
    ensures graph { Checks (λ g. g.nodes) result (limited_graph (graph_of exe.now (union_of traces.items))) }
    ensures code { IfOk result (λ g. AreCode exe.now g.nodes) }
    ensures cuts { IfOk result (AreCutsOf exe.now) }
{
    one_graph();
    let Ok(edges) = union_all(alloc, traces.as_slice()) else {
        return Err(Halt::Memory);
    };
    match Graph::of(alloc, exe, &edges) {
        Ok(graph) => Ok(graph),
        Err(GraphError::Blocks) => Err(Halt::Because(Cause::Limited(Limit::Blocks(MAX_BLOCKS)))),
        Err(GraphError::Memory) => Err(Halt::Memory),
    }
}

/// The listing of a graph. The error is want of memory.
fn listing_of(alloc: Global, exe: &Exe, graph: &Graph) -> Result<String, Halt>
    requires guest { IsGuest exe.now }
    requires code { AreCode exe.now graph.now.nodes }
    requires cuts { AreCutsOf exe.now graph.now }
    ensures { Checks string_bytes result (Ok (listing exe.now graph.now.nodes)) }
{
    let mut text = String::new(alloc);
    for index in 0..graph.len() {
        let block = graph.cut(index);
        if show_cut_block(
            alloc,
            exe,
            graph.start(index),
            &block,
            graph.known(index),
            &mut text,
        )
        .is_err()
        {
            return Err(Halt::Memory);
        }
    }
    Ok(text)
}

/// The report line of a listing. The error is want of memory.
fn line_of(alloc: Global, blocks: u32) -> Result<String, Halt>
    ensures { Checks string_bytes result (Ok (shown_line blocks)) }
{
    match format!(in alloc; "shown {blocks}\n") {
        Ok(line) => Ok(line),
        Err(_) => Err(Halt::Memory),
    }
}

/// Prints the listing of a graph. The lines are made before they are printed.
///
/// The error is want of memory, or a failure of the output.
fn print_graph<O: Sink>(
    alloc: Global,
    out: &mut O,
    exe: &Exe,
    graph: &Graph,
) -> Result<Outcome, Halt>
    requires guest { IsGuest exe.now }
    requires code { AreCode exe.now graph.now.nodes }
    requires cuts { AreCutsOf exe.now graph.now }
    ensures { (w : World) → Went (listing_part exe.now graph.now.nodes)
        (on_out w (O.seen out.old)) (end_of result) (on_out w (O.seen out.new)) }
{
    let text = listing_of(alloc, exe, graph)?;
    let line = line_of(alloc, graph.len())?;
    print_text(out, text.as_bytes())?;
    Ok(Outcome {
        finish: Finish::Done,
        line: Some(line),
    })
}

/// `show E T..`: prints the blocks that the graph of the original E and the union of its traces has, and
/// answers the report line.
///
/// The error is the first cause in the order of the work: a failure of the shelf, the limit of a file,
/// its refusal, the limit on the edges of all traces, the limit on blocks, a failure of the output, or want
/// of memory.
pub fn show_command<F: Shelf, O: Sink>(
    alloc: Global,
    shelf: &mut F,
    out: &mut O,
    original: &str,
    names: &[String],
) -> Result<Outcome, Halt>
    requires { 2 + length names.now < 2 ^ 32 }
    ensures { (i r : StreamView) → Went (show_plan original.now (map string_bytes names.now))
        (world (F.seen shelf.old) i (O.seen out.old) r) (end_of result) (world (F.seen shelf.new) i (O.seen out.new) r) }
{
    let subject = fetch_subject(alloc, shelf, original, 1)?;
    let traces = fetch_traces(alloc, shelf, &subject.digest, names, 2)?;
    let graph = graph_of(alloc, &subject.exe, traces)?;
    print_graph(alloc, out, &subject.exe, &graph)
}
