//! The order of edges, and the union of two lists that are in order.
ghost use Rattle.std.specs.Prelude.{◌≡◌, ◌+◌, ◌≤◌, ◌^◌, IfOk, length};
ghost use Rattle.trace_file.specs.declared.limits.TheConstants.{EDGE_LIMIT};
ghost use Rattle.trace_file.specs.Edges.{before, merge};

use std::alloc::{AllocError, Global};

/// Whether an edge comes before another: by the site, and then by the target.
pub fn is_before(a: (u32, u32), b: (u32, u32)) -> bool
    ensures { result ≡ before a b }
{
    a.0 < b.0 || (a.0 == b.0 && a.1 < b.1)
}

/// Both lists as one, in one pass; an edge of both is taken once.
pub fn merged(
    alloc: Global,
    left: &[(u32, u32)],
    right: &[(u32, u32)],
) -> Result<Vec<(u32, u32)>, AllocError>
    requires { length left.now + length right.now ≤ EDGE_LIMIT }
    ensures { IfOk result (λ all. all.items ≡ merge left.now right.now) }
{
    let mut all = Vec::with_capacity(alloc, left.len() + right.len())?;
    let mut next = 0;
    for edge in left {
        while next < right.len() && is_before(right[next], *edge) {
            all.push(right[next])?;
            next += 1;
        }
        if next < right.len() && !is_before(*edge, right[next]) {
            next += 1;
        }
        all.push(*edge)?;
    }
    while next < right.len() {
        all.push(right[next])?;
        next += 1;
    }
    Ok(all)
}
