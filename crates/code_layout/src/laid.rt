//! The fragments of keys, laid out one behind another.
ghost use Rattle.std.specs.Prelude.{◌≡◌, ◌<◌, ◌≤◌, All, IfOk, IfErr, length, map};
ghost use Rattle.std.specs.List.Sorted.{IsStrictlyIncreasing};
ghost use Rattle.elf_read.specs.Elf.{IsGuest, IsOriginal};
ghost use Rattle.flow_graph.specs.declared.error.TheConstants.{MAX_BLOCKS};
ghost use Rattle.flow_graph.specs.GraphOf.{graph_of};
ghost use Rattle.ssa_form.specs.declared.form.BlockKey.{BlockKey};
ghost use Rattle.block_make.specs.Keys.{IsKey};
ghost use Rattle.code_layout.specs.declared.place.TheConstants.{MAX_CODE};
ghost use Rattle.code_layout.specs.declared.built.BuildError.TheVariants.{Blocks, Code};
ghost use Rattle.code_layout.specs.Keys.{keys_of};
ghost use Rattle.code_layout.specs.Linked.{has_key};
ghost use Rattle.code_layout.specs.Image.{IsTooLong};
ghost use Rattle.code_layout.specs.Layout.{IsWhole, code_length, layout_of};

use crate::built::BuildError;
use crate::entry::is_entry_known;
use crate::error::LayoutError;
use crate::growth::layouts_build;
use crate::keys::keys_of;
use crate::laws::keys_are_keys;
use crate::layout::Layout;
use block_make::make;
use br_word::Steps;
use elf_read::Exe;
use flow_graph::Graph;
use ssa_form::BlockKey;
use std::alloc::Global;
use trace_file::Edges;

/// The layout of the fragments of keys, which ascend by their starts and make a whole layout. `known` says whether one of them starts
/// at the entry.
///
/// Errors: [`BuildError::Code`] where the code would be longer than [`MAX_CODE`](code_layout::MAX_CODE), and
/// [`BuildError::Memory`] for want of memory.
fn layout_of(
    alloc: Global,
    exe: &Exe,
    known: bool,
    keys: &[BlockKey],
) -> Result<Layout<()>, BuildError>
    requires guest { IsGuest exe.now }
    requires entry { known ≡ has_key keys.now exe.now.entry }
    requires each { All (IsKey exe.now) keys.now }
    requires order { IsStrictlyIncreasing (map (λ (key : BlockKey). key.start) keys.now) }
    requires whole { IsWhole (layout_of exe.now keys.now) }
    ensures layout { IfOk result (λ l. l ≡ layout_of exe.now keys.now) }
    ensures short { IfOk result (λ l. code_length l ≤ MAX_CODE) }
    ensures long { IfErr result (λ e. e ≡ Code → MAX_CODE < code_length (layout_of exe.now keys.now)) }
    ensures blocks { IfErr result (λ e. e ≡ Blocks → ⊥) }
{
    let mut steps = Steps::new(());
    let mut layout = Layout::of(alloc, exe.entry, known)?;
    for key in keys {
        let fragment = make(alloc, exe, key, &mut steps)?;
        match layout.add(key.start, &fragment) {
            Ok(()) => {}
            Err(LayoutError::TooLong) => return Err(BuildError::Code),
            Err(LayoutError::Memory) => return Err(BuildError::Memory),
        }
    }
    Ok(layout)
}

/// The layout of the fragments of all blocks of the graph of an original and edges, which has at most
/// [`MAX_BLOCKS`](flow_graph::MAX_BLOCKS) blocks.
///
/// Errors: [`BuildError::Code`] where the code would be longer than [`MAX_CODE`](crate::MAX_CODE), and [`BuildError::Memory`] for want
/// of memory.
pub fn laid_out(
    alloc: Global,
    exe: &Exe,
    edges: &Edges,
    graph: &Graph,
) -> Result<Layout<()>, BuildError>
    requires original { IsOriginal exe.now }
    requires graph { graph.now.nodes ≡ graph_of exe.now edges.now }
    requires few { length graph.now.nodes ≤ MAX_BLOCKS }
    ensures layout { IfOk result (λ l. l ≡ layout_of exe.now (keys_of exe.now edges.now)) }
    ensures short { IfOk result (λ l. IsTooLong exe.now edges.now → ⊥) }
    ensures long { IfErr result (λ e. e ≡ Code → IsTooLong exe.now edges.now) }
    ensures blocks { IfErr result (λ e. e ≡ Blocks → ⊥) }
{
    layouts_build();
    keys_are_keys();
    let _in_order = edges.len();
    let known = is_entry_known(exe, graph);
    let keys = keys_of(alloc, exe, graph)?;
    layout_of(alloc, exe, known, keys.as_slice())
}
