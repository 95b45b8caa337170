//! Sets of edges.
use crate::difference::difference;
use crate::order::{is_before, merged};
use std::alloc::{AllocError, Global};
use std::marker::Model;

/// A set of control-flow edges: pairs of the address of a transfer, the site, and the address that it
/// led to, the target. The pair of 0 and a file's entry says that a run began. It is seen as the list of
/// its pairs, strictly ascending by site and then by target, of at most [`EDGE_LIMIT`](crate::EDGE_LIMIT).
#[derive(Drop)]
pub struct Edges {
    list: Vec<(u32, u32)>,
}

impl Model for Edges {
    ghost use Rattle.std.specs.Prelude.{List};
    ghost use Rattle.trace_file.specs.Edges.{Edge, IsEdges};

    ghost Value = { List Edge };

    ghost view = { λ e. e.list.items };

    ghost invariant = { λ e. IsEdges e.list.items };
}

impl Edges {
    ghost use Rattle.std.specs.Prelude.{◌≡◌, ℕ, ◌+◌, ◌<◌, ◌≤◌, ◌↔◌, IsTrue, IfOk, Some, List, [], length, slice_get, Contains};
    ghost use Rattle.trace_file.specs.declared.limits.TheConstants.{EDGE_LIMIT};
    ghost use Rattle.trace_file.specs.Edges.{Edge, IsEdges, merge, without, IsInBoth, IsInRest};

    /// No edges. It takes no memory.
    pub fn new(alloc: Global) -> Self
        ensures { result ≡ [] }
    {
        Edges {
            list: Vec::new(alloc),
        }
    }

    /// The edges of a list that strictly ascends by site and then by target, of at most
    /// [`EDGE_LIMIT`](crate::EDGE_LIMIT). It takes no memory.
    pub fn of_list(list: Vec<(u32, u32)>) -> Self
        requires { IsEdges list.items }
        ensures { result ≡ list.items }
    {
        Edges { list }
    }

    /// How many there are, at most [`EDGE_LIMIT`](crate::EDGE_LIMIT).
    pub fn len(&self) -> u32
        ensures value { result ≡ length self.now }
        ensures edges { IsEdges self.now }
    {
        self.list.len() as u32
    }

    /// The edges in order, each as its site and its target.
    pub fn as_slice(&self) -> &[(u32, u32)]
        ensures value { result.now ≡ self.now }
        ensures edges { IsEdges self.now }
    {
        self.list.as_slice()
    }

    /// The edge at an index below their number, as its site and its target.
    pub fn at(&self, index: u32) -> (u32, u32)
        requires { index < length self.now }
        ensures { slice_get self.now index ≡ Some result }
    {
        self.list[index as usize]
    }

    /// Whether the edge from `site` to `target` is one of them, by binary search.
    pub fn has(&self, site: u32, target: u32) -> bool
        ensures { IsTrue result ↔ Contains self.now (site, target) }
    {
        let edge = (site, target);
        let mut low = 0;
        let mut high = self.list.len();
        while low < high {
            let middle = low + (high - low) / 2;
            if is_before(self.list[middle], edge) {
                low = middle + 1;
            } else {
                high = middle;
            }
        }
        low < self.list.len() && !is_before(edge, self.list[low])
    }

    /// The edges of both, in one pass. Together they have at most [`EDGE_LIMIT`](crate::EDGE_LIMIT), an
    /// edge of both counted twice.
    ///
    /// Errors: only for want of memory.
    pub fn union(&self, other: &Edges) -> Result<Edges, AllocError>
        requires { length self.now + length other.now ≤ EDGE_LIMIT }
        ensures value { IfOk result (λ all. all ≡ merge self.now other.now) }
        ensures members { IfOk result (λ all. (e : Edge) → IsInBoth self.now other.now all e) }
        ensures edges { IfOk result IsEdges }
    {
        let alloc = *self.list.allocator();
        let list = merged(alloc, &self.list, &other.list)?;
        Ok(Edges { list })
    }
    /// The edges of these that `gone` does not have, in one pass.
    ///
    /// Errors: only for want of memory.
    pub fn without(&self, gone: &Edges) -> Result<Edges, AllocError>
        ensures value { IfOk result (λ rest. rest ≡ without gone.now self.now) }
        ensures members { IfOk result (λ rest. (e : Edge) → IsInRest self.now gone.now rest e) }
        ensures edges { IfOk result IsEdges }
    {
        let alloc = *self.list.allocator();
        let list = difference(alloc, &self.list, &gone.list)?;
        Ok(Edges { list })
    }
}
