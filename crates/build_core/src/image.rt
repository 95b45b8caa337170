//! The file for an original and edges is written.
ghost use Rattle.std.specs.Prelude.{◌≡◌, ◌≤◌, IfOk, IfErr, length};
ghost use Rattle.elf_read.specs.Elf.{IsGuest, IsOriginal};
ghost use Rattle.flow_graph.specs.declared.error.TheConstants.{MAX_BLOCKS};
ghost use Rattle.flow_graph.specs.GraphOf.{graph_of};
ghost use Rattle.code_layout.specs.declared.built.BuildError.TheVariants.{Blocks, Code, Memory};
ghost use Rattle.code_layout.specs.Image.{built_of, HasTooManyBlocks, IsTooLong};

use code_layout::{BuildError, Built, keys_are_keys, laid_out, layouts_build};
use elf_read::Exe;
use flow_graph::{Graph, GraphError, one_graph};
use std::alloc::Global;
use trace_file::Edges;

/// The graph of an executable and edges.
///
/// Errors: [`BuildError::Blocks`] where it would have more than [`MAX_BLOCKS`](flow_graph::MAX_BLOCKS) blocks, and
/// [`BuildError::Memory`] for want of memory.
fn graph_of(alloc: Global, exe: &Exe, edges: &Edges) -> Result<Graph, BuildError>
    requires { IsGuest exe.now }
    ensures graph { IfOk result (λ g. g.nodes ≡ graph_of exe.now edges.now) }
    ensures few { IfOk result (λ g. length g.nodes ≤ MAX_BLOCKS) }
    ensures blocks { IfErr result (λ e. e ≡ Blocks → HasTooManyBlocks exe.now edges.now) }
    ensures code { IfErr result (λ e. e ≡ Code → ⊥) }
{
    one_graph();
    match Graph::of(alloc, exe, edges) {
        Ok(graph) => Ok(graph),
        Err(GraphError::Blocks) => Err(BuildError::Blocks),
        Err(GraphError::Memory) => Err(BuildError::Memory),
    }
}

/// Writes the file for an original and edges: the recovered code of the blocks of their graph, a private segment, and the original's
/// segments at their addresses.
///
/// Errors: [`BuildError::Blocks`] only where the graph has more than [`MAX_BLOCKS`](flow_graph::MAX_BLOCKS) blocks,
/// [`BuildError::Code`] only where it has not and the recovered code is longer than [`MAX_CODE`](code_layout::MAX_CODE), and
/// [`BuildError::Memory`] for want of memory.
pub fn build(alloc: Global, exe: &Exe, edges: &Edges) -> Result<Built, BuildError>
    requires { IsOriginal exe.now }
    ensures built { IfOk result (λ b. b ≡ built_of exe.now edges.now) }
    ensures few { IfOk result (λ b. HasTooManyBlocks exe.now edges.now → ⊥) }
    ensures short { IfOk result (λ b. IsTooLong exe.now edges.now → ⊥) }
    ensures blocks { IfErr result (λ e. e ≡ Blocks → HasTooManyBlocks exe.now edges.now) }
    ensures code { IfErr result (λ e. e ≡ Code → (HasTooManyBlocks exe.now edges.now → ⊥) × IsTooLong exe.now edges.now) }
{
    layouts_build();
    keys_are_keys();
    let graph = graph_of(alloc, exe, edges)?;
    let layout = laid_out(alloc, exe, edges, &graph)?;
    Ok(layout.image(alloc, exe)?.into_built())
}
