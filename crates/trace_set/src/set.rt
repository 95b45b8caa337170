//! Live traces.
ghost use Rattle.std.specs.Prelude.{◌≡◌, ◌+◌, ◌≤◌, [], length, IfOk};
ghost use Rattle.trace_file.specs.Edges.{IsEdges, union_of};
ghost use Rattle.trace_set.specs.Traces.{Adds, Removes, count_of, edges_of, sets_of};

use crate::error::{ADDITION_LIMIT, SetError, TRACE_LIMIT, Unknown};
use crate::fill::fill;
use crate::flags::is_set;
use crate::rows::EdgeRows;
use br_word::Steps;
use std::alloc::{AllocError, Global};
use std::marker::Model;
use trace_file::{EDGE_LIMIT, Edges};

/// Numbered traces.
///
/// It is seen as the live traces by ascending number, each with its edges, and the number of the next one.
/// Numbers are given from 1 in the order of additions, and never again.
#[derive(Drop)]
pub struct TraceSet {
    /// The edges of each trace: that of number 1 is the first row. What is no live trace is empty.
    rows: EdgeRows,
    /// Whether the trace of each number that was given is live.
    flags: Vec<bool>,
    /// How many traces are live.
    live: u32,
    /// How many edges the live traces have together, one of several counted in each.
    pairs: u32,
}

impl Model for TraceSet {
    ghost use Rattle.trace_set.specs.Rows.{IsKept, shown_rows};
    ghost use Rattle.trace_set.specs.Traces.{Traces, IsHeld, traces_in};

    ghost Value = { Traces };

    ghost view = { λ s. traces_in s.flags.items (shown_rows s.rows) };

    ghost invariant = { λ s. IsKept s.rows × IsHeld s.flags.items (shown_rows s.rows) s.live s.pairs };
}

impl TraceSet {
    /// No traces. It takes no memory.
    pub fn new(alloc: Global) -> TraceSet
        ensures { result ≡ record { traces = []; next = 1 } }
    {
        TraceSet {
            rows: EdgeRows::new(alloc),
            flags: Vec::new(alloc),
            live: 0,
            pairs: 0,
        }
    }

    /// Adds a trace with these edges, under the next number, which it answers.
    ///
    /// Errors, the first that holds: [`SetError::Traces`] exactly where [`TRACE_LIMIT`] traces are live;
    /// [`SetError::Edges`] exactly where the live traces and this one have more than [`EDGE_LIMIT`] edges,
    /// one of several counted in each; [`SetError::Spent`] exactly where [`ADDITION_LIMIT`] traces were
    /// added; [`SetError::Memory`] for want of memory. After an error the set is as before.
    pub fn add(&mut self, edges: &Edges) -> Result<u32, SetError>
        ensures { Adds self.old edges.now result self.new }
    {
        if self.live >= TRACE_LIMIT {
            return Err(SetError::Traces);
        }
        let count = edges.len();
        if count > EDGE_LIMIT - self.pairs {
            return Err(SetError::Edges);
        }
        let row = self.flags.len() as u32;
        if row >= ADDITION_LIMIT {
            return Err(SetError::Spent);
        }
        self.flags.reserve(1)?;
        self.rows.reach(row)?;
        fill(&mut self.rows, row, edges.as_slice())?;
        self.flags.push_reserved(true);
        self.live += 1;
        self.pairs += count;
        Ok(row + 1)
    }

    /// Takes the trace of the number away. An edge stays while another live trace has it. It takes no
    /// memory, and at most one step for each edge of the trace.
    ///
    /// Errors: [`Unknown`] exactly where no live trace has the number; then the set is as before.
    pub fn remove<L>(&mut self, number: u32, steps: &mut Steps<L>) -> Result<(), Unknown>
        ensures traces { Removes self.old number result self.new }
        ensures steps { steps.old ≤ steps.new }
        ensures few { steps.new ≤ steps.old + length (edges_of number self.old.traces) }
    {
        if !is_set(self.flags.as_slice(), number) {
            return Err(Unknown);
        }
        let row = number - 1;
        self.pairs -= self.rows.clear_row(row, steps);
        self.flags[row as usize] = false;
        self.live -= 1;
        Ok(())
    }

    /// How many live traces have the edge from `site` to `target`.
    pub fn count(&self, site: u32, target: u32) -> u32
        ensures { result ≡ count_of (site, target) (sets_of self.now.traces) }
    {
        self.rows.count((site, target))
    }

    /// The union of the live traces.
    ///
    /// Errors: only for want of memory; the set stays as it is.
    pub fn edges(&self) -> Result<Edges, AllocError>
        ensures value { IfOk result (λ all. all ≡ union_of (sets_of self.now.traces)) }
        ensures edges { IfOk result IsEdges }
    {
        self.rows.edges()
    }
}
