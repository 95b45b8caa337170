//! The file of what is live, and what a session keeps of it.
ghost use Rattle.std.specs.Prelude.{◌≡◌, ◌+◌, ◌≤◌, IfOk, IfErr, OnOk};
ghost use Rattle.std.specs.List.Sorted.{IsStrictlyIncreasing};
ghost use Rattle.elf_read.specs.Elf.{IsOriginal};
ghost use Rattle.code_layout.specs.declared.built.BuildError.TheVariants.{Blocks, Code};
ghost use Rattle.code_layout.specs.Keys.{keys_of, AreRows};
ghost use Rattle.code_layout.specs.Image.{built_of, HasTooManyBlocks, IsTooLong};
ghost use Rattle.session_core.specs.Session.{fresh, edges_in};
ghost use Rattle.session_core.specs.Kept.{IsGraphOf, starts_of_keys, codes_of};

use crate::compiled::compile;
use crate::graphs::{Caches, follow};
use crate::kept::Kept;
use br_word::Steps;
use code_layout::{BuildError, Emitted, keys_are_keys, layouts_build};
use elf_read::Exe;
use flow_graph::one_graph;
use ssa_form::BlockKey;
use std::alloc::Global;
use trace_set::TraceSet;

/// A file with the keys and fragments of its blocks.
#[derive(Drop)]
pub struct Emission<L> {
    /// The file.
    pub file: Emitted<L>,
    /// The keys.
    pub keys: Vec<BlockKey>,
    /// The fragment of each key.
    pub fragments: Vec<Kept<L>>,
    /// How many of these were made.
    pub made: u32,
}

/// Writes the file for the live traces of an original. The caches become those of their union, and fragments are made for keys that
/// were not there before, each in one step.
///
/// Errors as those of [`Session::emit`](crate::Session::emit); the caches may then be those of other edges than before.
pub fn emit_now<L>(
    alloc: Global,
    exe: &Exe,
    set: &TraceSet,
    caches: &mut Caches,
    before: &[BlockKey],
    kept: &[Kept<L>],
    steps: &mut Steps<L>,
) -> Result<Emission<L>, BuildError>
    requires original { IsOriginal exe.now }
    requires graph { IsGraphOf exe.now caches.old.last caches.old.graph }
    requires rows { AreRows exe.now caches.old.rows.items }
    requires order { IsStrictlyIncreasing (starts_of_keys before.now) }
    requires codes { kept.now ≡ codes_of exe.now before.now }
    ensures graph { IsGraphOf exe.now caches.new.last caches.new.graph }
    ensures rows { AreRows exe.now caches.new.rows.items }
    ensures file { IfOk result (λ e. e.file ≡ built_of exe.now (edges_in set.now)) }
    ensures keys { IfOk result (λ e. e.keys.items ≡ keys_of exe.now (edges_in set.now)) }
    ensures fragments { IfOk result (λ e. e.fragments.items ≡ codes_of exe.now e.keys.items) }
    ensures ascend { IfOk result (λ e. IsStrictlyIncreasing (starts_of_keys e.keys.items)) }
    ensures made { IfOk result (λ e. e.made ≡ fresh before.now (keys_of exe.now (edges_in set.now))) }
    ensures done { OnOk result (steps.new ≡ steps.old + fresh before.now (keys_of exe.now (edges_in set.now))) }
    ensures at_most { steps.new ≤ steps.old + fresh before.now (keys_of exe.now (edges_in set.now)) }
    ensures few { OnOk result (HasTooManyBlocks exe.now (edges_in set.now) → ⊥) }
    ensures short { OnOk result (IsTooLong exe.now (edges_in set.now) → ⊥) }
    ensures blocks { IfErr result (λ e. e ≡ Blocks → HasTooManyBlocks exe.now (edges_in set.now)) }
    ensures code { IfErr result (λ e. e ≡ Code → (HasTooManyBlocks exe.now (edges_in set.now) → ⊥) × IsTooLong exe.now (edges_in set.now)) }
{
    one_graph();
    keys_are_keys();
    layouts_build();
    let edges = set.edges()?;
    follow(alloc, exe, caches, edges)?;
    let compiled = compile(alloc, exe, caches, before, kept, steps)?;
    let file = compiled.layout.image(alloc, exe)?;
    Ok(Emission {
        file,
        keys: compiled.keys,
        fragments: compiled.fragments,
        made: compiled.made,
    })
}
