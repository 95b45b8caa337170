//! The edges of a run as they come.
ghost use Rattle.std.specs.Prelude.{◌≡◌, ◌≤◌, length, IfOk, [], ◌∷◌};
ghost use Rattle.tracer.specs.Records.{Records};

use crate::answers::TracingError;
use std::alloc::{AllocError, Global};
use std::collections::BTreeSet;
use std::marker::Model;
use trace_file::{Edges, FILE_EDGE_LIMIT};

/// The most edges that are recorded.
const MOST: usize = FILE_EDGE_LIMIT as usize;

/// A set of at most [`FILE_EDGE_LIMIT`] edges, seen as the list of them in order.
#[derive(Drop)]
pub struct Recorder {
    edges: BTreeSet<(u32, u32), Global>,
}

impl Model for Recorder {
    ghost use Rattle.std.specs.Prelude.{List, ◌≤◌, length};
    ghost use Rattle.trace_file.specs.Edges.{Edge};
    ghost use Rattle.trace_file.specs.declared.limits.TheConstants.{FILE_EDGE_LIMIT};

    ghost Value = { List Edge };

    ghost view = { λ r. r.edges.keys };

    ghost invariant = { λ r. length r.edges.keys ≤ FILE_EDGE_LIMIT };
}

impl Recorder {
    /// With one edge. The only error is want of memory.
    pub fn of(alloc: Global, first: (u32, u32)) -> Result<Recorder, AllocError>
        ensures { IfOk result (λ r. r ≡ first ∷ []) }
    {
        let mut edges = BTreeSet::new(alloc);
        edges.insert(first)?;
        Ok(Recorder { edges })
    }

    /// Records an edge. Errors: `Union` where there would be more than [`FILE_EDGE_LIMIT`], and `Memory`; the edges are
    /// then as before.
    pub fn add(&mut self, edge: (u32, u32)) -> Result<(), TracingError>
        ensures { Records result edge self.old self.new }
    {
        if self.edges.len() >= MOST && !self.edges.contains(&edge) {
            return Err(TracingError::Union);
        }
        match self.edges.insert(edge) {
            Ok(_) => Ok(()),
            Err(_) => Err(TracingError::Memory),
        }
    }

    /// The edges in order. The only error is want of memory.
    pub fn edges(&self, alloc: Global) -> Result<Edges, AllocError>
        ensures value { IfOk result (λ edges. edges ≡ self.now) }
        ensures few { IfOk result (λ edges. length edges ≤ FILE_EDGE_LIMIT) }
    {
        let mut list = Vec::with_capacity(alloc, self.edges.len())?;
        for edge in &self.edges {
            list.push(*edge)?;
        }
        Ok(Edges::of_list(list))
    }
}
