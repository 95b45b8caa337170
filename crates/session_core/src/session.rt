//! Sessions.
use crate::emission::emit_now;
use crate::graphs::{Caches, no_caches};
use crate::kept::Kept;
use br_word::Steps;
use code_layout::{BuildError, Emitted};
use elf_read::Exe;
use ssa_form::BlockKey;
use std::alloc::{AllocError, Global};
use std::marker::Model;
use trace_file::Edges;
use trace_set::{SetError, TraceSet, Unknown};

/// Live traces of an original, from which files are emitted, for a ledger type. It is seen as its original, the live traces by
/// ascending number, the number of the next trace, the keys of the last emit that succeeded, and how many fragments that one made.
/// It cannot be cloned.
#[derive(Drop)]
pub struct Session<L> {
    exe: Exe,
    set: TraceSet,
    caches: Caches,
    // The keys of the last emit that succeeded, and the fragment of each.
    keys: Vec<BlockKey>,
    fragments: Vec<Kept<L>>,
    compiled: u32,
    alloc: Global,
}

impl<L> Model for Session<L> {
    ghost use Rattle.session_core.specs.Session.{SessionView};
    ghost use Rattle.session_core.specs.Kept.{IsKept};

    ghost Value = { SessionView };

    ghost view = { λ s. record { exe = s.exe; traces = s.set.traces; next = s.set.next; keys = s.keys.items; compiled = s.compiled } };

    ghost invariant = { λ s. IsKept s.exe s.caches.last s.caches.graph s.caches.rows.items s.keys.items s.fragments.items };
}

impl<L> Session<L> {
    ghost use Rattle.std.specs.Prelude.{◌≡◌, ◌+◌, ◌≤◌, IfOk, IfErr, OnOk, OnErr, length};
    ghost use Rattle.elf_read.specs.Elf.{IsOriginal};
    ghost use Rattle.trace_set.specs.Traces.{Adds, Removes, edges_of};
    ghost use Rattle.code_layout.specs.declared.built.BuildError.TheVariants.{Blocks, Code};
    ghost use Rattle.code_layout.specs.Image.{built_of, HasTooManyBlocks, IsTooLong};
    ghost use Rattle.session_core.specs.Session.{new_session, traces_in, with_traces, live_edges, to_make, emitted_from};

    /// A session of an original, without traces.
    ///
    /// An error comes only for want of memory.
    pub fn of(alloc: Global, exe: Exe) -> Result<Session<L>, AllocError>
        requires { IsOriginal exe }
        ensures { IfOk result (λ s. s ≡ new_session exe) }
    {
        let caches = no_caches(alloc, &exe)?;
        Ok(Session {
            exe,
            set: TraceSet::new(alloc),
            caches,
            keys: Vec::new(alloc),
            fragments: Vec::new(alloc),
            compiled: 0,
            alloc,
        })
    }

    /// Adds a trace with these edges, under the next number, which it answers. Keys and fragments stay.
    ///
    /// Errors, and what they leave, as those of [`TraceSet::add`].
    pub fn add(&mut self, edges: &Edges) -> Result<u32, SetError>
        ensures adds { Adds (traces_in self.old) edges.now result (traces_in self.new) }
        ensures rest { self.new ≡ with_traces self.old (traces_in self.new) }
    {
        self.set.add(edges)
    }

    /// Takes the trace of the number away. Keys and fragments stay. It takes no memory, and at most one step for each edge of the
    /// trace.
    ///
    /// Errors, and what they leave, as those of [`TraceSet::remove`].
    pub fn remove<M>(&mut self, number: u32, steps: &mut Steps<M>) -> Result<(), Unknown>
        ensures traces { Removes (traces_in self.old) number result (traces_in self.new) }
        ensures rest { self.new ≡ with_traces self.old (traces_in self.new) }
        ensures steps { steps.old ≤ steps.new }
        ensures few { steps.new ≤ steps.old + length (edges_of number self.old.traces) }
    {
        self.set.remove(number, steps)
    }

    /// Writes the file for the traces that are live, as it is written for their union from scratch. Only fragments whose keys were not
    /// among those of the last emit that succeeded are made, each in one step.
    ///
    /// Errors: [`BuildError::Blocks`] only where the graph has more than [`MAX_BLOCKS`](flow_graph::MAX_BLOCKS) blocks,
    /// [`BuildError::Code`] only where it has not and the recovered code is longer than [`MAX_CODE`](code_layout::MAX_CODE), and
    /// [`BuildError::Memory`] for want of memory. After an error the session is as before, and at most as many steps were counted as
    /// there are new keys.
    pub fn emit(&mut self, steps: &mut Steps<L>) -> Result<Emitted<L>, BuildError>
        ensures built { IfOk result (λ file. file ≡ built_of self.old.exe (live_edges self.old)) }
        ensures after { OnOk result (self.new ≡ emitted_from self.old) }
        ensures same { OnErr result (self.new ≡ self.old) }
        ensures done { OnOk result (steps.new ≡ steps.old + to_make self.old) }
        ensures at_most { steps.new ≤ steps.old + to_make self.old }
        ensures few { IfOk result (λ file. HasTooManyBlocks self.old.exe (live_edges self.old) → ⊥) }
        ensures short { IfOk result (λ file. IsTooLong self.old.exe (live_edges self.old) → ⊥) }
        ensures blocks { IfErr result (λ e. e ≡ Blocks → HasTooManyBlocks self.old.exe (live_edges self.old)) }
        ensures code { IfErr result (λ e. e ≡ Code → (HasTooManyBlocks self.old.exe (live_edges self.old) → ⊥) × IsTooLong self.old.exe (live_edges self.old)) }
    {
        let before = self.keys.as_slice();
        let kept = self.fragments.as_slice();
        let made = emit_now(
            self.alloc,
            &self.exe,
            &self.set,
            &mut self.caches,
            before,
            kept,
            steps,
        )?;
        self.keys = made.keys;
        self.fragments = made.fragments;
        self.compiled = made.made;
        Ok(made.file)
    }

    /// How many fragments the last emit that succeeded made, 0 before the first.
    pub fn compiled_last(&self) -> u32
        ensures { result ≡ self.now.compiled }
    {
        self.compiled
    }
}
