//! The union of any number of sets.
ghost use Rattle.std.specs.Prelude.{◌≡◌, ◌≤◌, length, IfOk, OnOk, All};
ghost use Rattle.trace_file.specs.declared.limits.TheConstants.{EDGE_LIMIT};
ghost use Rattle.trace_file.specs.Edges.{IsEdges, pairs, union_of};

use crate::edges::Edges;
use std::alloc::{AllocError, Global};

/// The edges of all the sets. Together they have at most [`EDGE_LIMIT`](crate::EDGE_LIMIT), an edge of
/// several counted in each. The sets are joined by halves, so that an edge is copied once for each halving and not for each set.
///
/// Errors: only for want of memory.
pub fn union_all(alloc: Global, sets: &[Edges]) -> Result<Edges, AllocError>
    requires { pairs sets.now ≤ EDGE_LIMIT }
    ensures value { IfOk result (λ all. all ≡ union_of sets.now) }
    ensures edges { IfOk result IsEdges }
    ensures count { IfOk result (λ all. length all ≤ pairs sets.now) }
    ensures ordered { OnOk result (All IsEdges sets.now) }
{
    if sets.is_empty() {
        return Ok(Edges::new(alloc));
    }
    if sets.len() == 1 {
        return Ok(Edges::of_list(sets[0].as_slice().to_vec(alloc)?));
    }
    let (front, back) = sets.split_at(sets.len() / 2);
    let left = union_all(alloc, front)?;
    let right = union_all(alloc, back)?;
    left.union(&right)
}
