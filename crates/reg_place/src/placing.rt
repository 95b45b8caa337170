//! Places of lines.
ghost use Rattle.std.specs.Prelude.{◌≡◌, ◌<◌, ◌≤◌, ◌+◌, IfOk, OnOk, IsTrue, length, nat_lt};
ghost use Rattle.ssa_form.specs.Checked.{checked, has_result};
ghost use Rattle.reg_place.specs.Places.{IsSplit, first_free, place_of, placed, put_at};

use crate::uses::{last_uses, order};
use par_moves::Place;
use ssa_form::{Block, Line, Split};
use std::alloc::{AllocError, Global};

/// The first slot that a line may have.
const FIRST: u32 = 17;

/// Whether a line has a result.
fn gives(line: Line) -> bool
    ensures { result ≡ has_result line }
{
    !matches!(line, Line::Store { .. } | Line::Gone)
}

/// The place with this number.
fn numbered(k: usize) -> Place
    requires { k < 4096 }
    ensures { result ≡ place_of k }
{
    match k {
        0 => Place::Reg(7),
        1 => Place::Reg(2),
        slot => Place::Slot(FIRST + (slot as u32 - 2)),
    }
}

/// The number of the first place whose line is not used behind a position, where each has the last use of its line.
fn first_free(busy: &[usize], position: usize) -> usize
    ensures value { result ≡ first_free (λ until. nat_lt position until) busy.now }
    ensures within { result ≤ length busy.now }
{
    for (k, until) in busy.iter().enumerate() {
        if *until <= position {
            return k;
        }
    }
    busy.len()
}

/// A place is held until a position.
fn hold(busy: &mut Vec<usize>, k: usize, until: usize) -> Result<(), AllocError>
    ensures { OnOk result (busy.new.items ≡ put_at busy.old.items k until) }
{
    if k < busy.len() {
        busy[k] = until;
    } else {
        busy.push(until)?;
    }
    Ok(())
}

/// The places of a block's lines, one for each line. The lines of the body and then those that are sunk are placed in order: a line with a
/// result has the first of edi, edx, slot 17, slot 18 and so on that no earlier one has which is used by a later line, an out or the
/// exit. Every other line has none. The work is linear in the lines times the places that are held at once.
///
/// An error comes for want of memory.
pub fn place(alloc: Global, b: &Block, s: &Split) -> Result<Vec<Option<Place>>, AllocError>
    requires checked { IsTrue (checked b.now) }
    requires few { length b.now.lines ≤ 2048 }
    requires split { IsSplit b.now s.now }
    ensures { IfOk result (λ places. places.items ≡ placed b.now s.now) }
{
    let steps = order(alloc, b, s)?;
    let last = last_uses(alloc, b, steps.as_slice())?;
    let mut places = vec![in alloc; None; b.lines.len()]?;
    let mut busy = Vec::new(alloc);
    for (at, step) in steps.iter().enumerate() {
        if !gives(step.1) {
            continue;
        }
        let k = first_free(busy.as_slice(), at + 1);
        hold(&mut busy, k, last[step.0])?;
        places[step.0] = Some(numbered(k));
    }
    Ok(places)
}
