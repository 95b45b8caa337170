//! The graph of what is live, and the rows of its blocks.
ghost use Rattle.std.specs.Prelude.{◌≡◌, ◌≤◌, IfOk, IfErr, OnOk, length};
ghost use Rattle.elf_read.specs.Elf.{IsGuest};
ghost use Rattle.flow_graph.specs.declared.error.TheConstants.{MAX_BLOCKS};
ghost use Rattle.code_layout.specs.declared.built.BuildError.TheVariants.{Blocks, Code};
ghost use Rattle.code_layout.specs.Image.{HasTooManyBlocks};
ghost use Rattle.code_layout.specs.Keys.{rows_in, AreRows};
ghost use Rattle.session_core.specs.Kept.{IsGraphOf};

use code_layout::{BuildError, rows_after};
use elf_read::Exe;
use flow_graph::{Graph, GraphError, one_graph};
use live_flow::LiveRow;
use std::alloc::{AllocError, Global};
use trace_file::{Edges, sets_hold};

/// What is made from edges alone, and changed where edges came and went: the graph, with the edges of which it is, and rows of blocks.
/// It may change in an emit that is refused.
#[derive(Drop)]
pub struct Caches {
    /// The edges of which the graph is.
    pub last: Edges,
    /// Their graph.
    pub graph: Graph,
    /// Rows of blocks: of those of the graph, or of one before it.
    pub rows: Vec<LiveRow>,
}

/// The caches of no edges. An error comes only for want of memory.
pub fn no_caches(alloc: Global, exe: &Exe) -> Result<Caches, AllocError>
    requires { IsGuest exe.now }
    ensures graph { IfOk result (λ c. IsGraphOf exe.now c.last c.graph) }
    ensures rows { IfOk result (λ c. AreRows exe.now c.rows.items) }
{
    one_graph();
    let last = Edges::new(alloc);
    match Graph::of(alloc, exe, &last) {
        Ok(graph) => Ok(Caches {
            last,
            graph,
            rows: Vec::new(alloc),
        }),
        Err(_) => Err(AllocError),
    }
}

/// Makes the graph that of other edges: it is changed by what came and what went. Rows stay.
///
/// Errors as those of [`follow`]; after one the caches are as before.
fn change(alloc: Global, exe: &Exe, caches: &mut Caches, edges: Edges) -> Result<(), BuildError>
    requires guest { IsGuest exe.now }
    requires before { IsGraphOf exe.now caches.old.last caches.old.graph }
    ensures after { IsGraphOf exe.now caches.new.last caches.new.graph }
    ensures last { OnOk result (caches.new.last ≡ edges) }
    ensures few { OnOk result (length caches.new.graph.nodes ≤ MAX_BLOCKS) }
    ensures rows { caches.new.rows.items ≡ caches.old.rows.items }
    ensures blocks { IfErr result (λ e. e ≡ Blocks → HasTooManyBlocks exe.now edges) }
    ensures code { IfErr result (λ e. e ≡ Code → ⊥) }
{
    one_graph();
    sets_hold();
    let _in_order = edges.len();
    let _were_in_order = caches.last.len();
    let added = edges.without(&caches.last)?;
    let gone = caches.last.without(&edges)?;
    match caches.graph.apply(alloc, exe, &added, &gone) {
        Ok(()) => {
            caches.last = edges;
            Ok(())
        }
        Err(GraphError::Blocks) => Err(BuildError::Blocks),
        Err(GraphError::Memory) => Err(BuildError::Memory),
    }
}

/// Makes the caches those of other edges: the graph is changed by what came and what went, and only blocks that are new, or have other
/// known exits, are lifted for their rows.
///
/// Errors: [`BuildError::Blocks`] where the graph would have more than [`MAX_BLOCKS`](flow_graph::MAX_BLOCKS) blocks, and
/// [`BuildError::Memory`] for want of memory. After an error the graph is that of the edges before or of these, and the rows are as
/// before.
pub fn follow(alloc: Global, exe: &Exe, caches: &mut Caches, edges: Edges) -> Result<(), BuildError>
    requires guest { IsGuest exe.now }
    requires before { IsGraphOf exe.now caches.old.last caches.old.graph }
    requires were { AreRows exe.now caches.old.rows.items }
    ensures after { IsGraphOf exe.now caches.new.last caches.new.graph }
    ensures are { AreRows exe.now caches.new.rows.items }
    ensures last { OnOk result (caches.new.last ≡ edges) }
    ensures rows { OnOk result (caches.new.rows.items ≡ rows_in exe.now caches.new.graph.nodes) }
    ensures few { OnOk result (length caches.new.graph.nodes ≤ MAX_BLOCKS) }
    ensures blocks { IfErr result (λ e. e ≡ Blocks → HasTooManyBlocks exe.now edges) }
    ensures code { IfErr result (λ e. e ≡ Code → ⊥) }
{
    one_graph();
    change(alloc, exe, caches, edges)?;
    let rows = rows_after(alloc, exe, caches.rows.as_slice(), &caches.graph)?;
    caches.rows = rows;
    Ok(())
}
