//! What one list that is in order has and another has not.
ghost use Rattle.std.specs.Prelude.{◌≡◌, ◌<◌, ◌≤◌, [], ◌∷◌, ◌++◌, true, false, if◌then◌else◌, List, length, drop, slice_index_or, IfOk, OnOk};
ghost use Rattle.trace_file.specs.Edges.{Edge, before, ascends, has, without};

use crate::order::is_before;
use std::alloc::{AllocError, Global};

/// The first place from `from` on whose edge is not before this one. What is passed takes nothing from
/// what begins with this edge.
fn skipped(gone: &[(u32, u32)], from: usize, edge: (u32, u32)) -> usize
    requires { from ≤ length gone.now }
    ensures within { result ≤ length gone.now }
    ensures reached { result < length gone.now → before (slice_index_or gone.now result edge) edge ≡ false }
    ensures rest { (es : List Edge) → ascends (edge ∷ es) ≡ true → without (drop result gone.now) (edge ∷ es) ≡ without (drop from gone.now) (edge ∷ es) }
{
    for at in from..gone.len() {
        if !is_before(gone[at], edge) {
            return at;
        }
    }
    gone.len()
}

/// Whether the edge is among those from a place on, the first of which is not before it.
fn is_from(gone: &[(u32, u32)], at: usize, edge: (u32, u32)) -> bool
    requires order { ascends gone.now ≡ true }
    requires within { at ≤ length gone.now }
    requires reached { at < length gone.now → before (slice_index_or gone.now at edge) edge ≡ false }
    ensures { result ≡ has edge (drop at gone.now) }
{
    if at == gone.len() {
        return false;
    }
    !is_before(edge, gone[at])
}

/// Puts an edge last, unless it is gone.
fn keep_unless(
    rest: &mut Vec<(u32, u32)>,
    edge: (u32, u32),
    is_gone: bool,
) -> Result<(), AllocError>
    ensures { OnOk result (rest.new.items ≡ (if is_gone then rest.old.items else rest.old.items ++ edge ∷ [])) }
{
    if is_gone {
        return Ok(());
    }
    rest.push(edge)?;
    Ok(())
}

/// The edges of a list that `gone` does not have, in one pass over both.
pub fn difference(
    alloc: Global,
    list: &[(u32, u32)],
    gone: &[(u32, u32)],
) -> Result<Vec<(u32, u32)>, AllocError>
    requires list { ascends list.now ≡ true }
    requires gone { ascends gone.now ≡ true }
    ensures { IfOk result (λ rest. rest.items ≡ without gone.now list.now) }
{
    let mut rest = Vec::new(alloc);
    let mut next = 0;
    for edge in list {
        next = skipped(gone, next, *edge);
        let is_gone = is_from(gone, next, *edge);
        keep_unless(&mut rest, *edge, is_gone)?;
    }
    Ok(rest)
}
