//! What an emit makes before it writes the file.
ghost use Rattle.std.specs.Prelude.{◌≡◌, ◌+◌, ◌≤◌, IfOk, IfErr, OnOk, length};
ghost use Rattle.std.specs.List.Sorted.{IsStrictlyIncreasing};
ghost use Rattle.elf_read.specs.Elf.{IsOriginal};
ghost use Rattle.flow_graph.specs.declared.error.TheConstants.{MAX_BLOCKS};
ghost use Rattle.code_layout.specs.declared.built.BuildError.TheVariants.{Blocks, Code};
ghost use Rattle.code_layout.specs.Keys.{keys_of, rows_in};
ghost use Rattle.code_layout.specs.Image.{IsTooLong};
ghost use Rattle.code_layout.specs.Layout.{layout_of};
ghost use Rattle.session_core.specs.Session.{fresh};
ghost use Rattle.session_core.specs.Kept.{IsGraphOf, starts_of_keys, codes_of};

use crate::graphs::Caches;
use crate::kept::Kept;
use crate::laid::laid_out;
use br_word::Steps;
use code_layout::{BuildError, Layout, is_entry_known, keys_are_keys, keys_from, layouts_build};
use elf_read::Exe;
use flow_graph::one_graph;
use ssa_form::BlockKey;
use std::alloc::Global;

/// The keys of blocks, and the layout of their fragments.
#[derive(Drop)]
pub struct Compiled<L> {
    /// The keys.
    pub keys: Vec<BlockKey>,
    /// The layout of their fragments.
    pub layout: Layout<L>,
    /// The fragments, in the order of the keys.
    pub fragments: Vec<Kept<L>>,
    /// How many of these were made.
    pub made: u32,
}

/// The layout of all blocks of the graph of an original: kept fragments where the key is as before, and new ones, each in one step.
///
/// Errors: [`BuildError::Code`] where the code would be longer than [`MAX_CODE`](code_layout::MAX_CODE), and
/// [`BuildError::Memory`] for want of memory.
pub fn compile<L>(
    alloc: Global,
    exe: &Exe,
    caches: &Caches,
    before: &[BlockKey],
    kept: &[Kept<L>],
    steps: &mut Steps<L>,
) -> Result<Compiled<L>, BuildError>
    requires original { IsOriginal exe.now }
    requires graph { IsGraphOf exe.now caches.now.last caches.now.graph }
    requires rows { caches.now.rows.items ≡ rows_in exe.now caches.now.graph.nodes }
    requires few { length caches.now.graph.nodes ≤ MAX_BLOCKS }
    requires before_order { IsStrictlyIncreasing (starts_of_keys before.now) }
    requires codes { kept.now ≡ codes_of exe.now before.now }
    ensures keys { IfOk result (λ c. c.keys.items ≡ keys_of exe.now caches.now.last) }
    ensures layout { IfOk result (λ c. c.layout ≡ layout_of exe.now (keys_of exe.now caches.now.last)) }
    ensures fragments { IfOk result (λ c. c.fragments.items ≡ codes_of exe.now (keys_of exe.now caches.now.last)) }
    ensures made { IfOk result (λ c. c.made ≡ fresh before.now (keys_of exe.now caches.now.last)) }
    ensures done { OnOk result (steps.new ≡ steps.old + fresh before.now (keys_of exe.now caches.now.last)) }
    ensures at_most { steps.new ≤ steps.old + fresh before.now (keys_of exe.now caches.now.last) }
    ensures short { IfOk result (λ c. IsTooLong exe.now caches.now.last → ⊥) }
    ensures long { IfErr result (λ e. e ≡ Code → IsTooLong exe.now caches.now.last) }
    ensures blocks { IfErr result (λ e. e ≡ Blocks → ⊥) }
{
    one_graph();
    keys_are_keys();
    layouts_build();
    let _in_order = caches.last.len();
    let known = is_entry_known(exe, &caches.graph);
    let keys = keys_from(alloc, exe, &caches.graph, caches.rows.as_slice())?;
    let laid = laid_out(alloc, exe, known, before, kept, keys.as_slice(), steps)?;
    Ok(Compiled {
        keys,
        layout: laid.layout,
        fragments: laid.fragments,
        made: laid.made,
    })
}
