//! Moves that are to be done at once, as moves that are done one after another.
ghost use Rattle.std.specs.Prelude.{◌≡◌, ℕ, ◌+◌, ◌<◌, ◌≤◌, ◌++◌, ◌∷◌, [], length, IfOk, List, IsTrue, true, false, All, map, find, filter};
ghost use Rattle.par_moves.specs.declared.locations.PlaceMove.{PlaceMove};
ghost use Rattle.par_moves.specs.Locations.{same_place, spare, is_from};
ghost use Rattle.par_moves.specs.Moves.{is_ready, others, redirect, turn_of, sequenced, ActAtOnce, AreApart};

use crate::locations::{MoveSource, Place, PlaceMove, SPARE};
use std::alloc::{AllocError, Global};

fn is_same(a: Place, b: Place) -> bool
    ensures { result ≡ same_place a b }
{
    a == b
}

fn is_from(from: MoveSource, place: Place) -> bool
    ensures { result ≡ is_from from place }
{
    match from {
        MoveSource::Place(p) => is_same(p, place),
        MoveSource::Num(_) => false,
    }
}

// No other pending move reads the destination.
fn is_ready(pending: &[PlaceMove], m: PlaceMove) -> bool
    ensures { result ≡ is_ready pending.now m }
{
    pending
        .iter()
        .all(|x| is_same(x.to, m.to) || !is_from(x.from, m.to))
}

fn first_ready(pending: &[PlaceMove]) -> Option<PlaceMove>
    ensures { result ≡ find (is_ready pending.now) pending.now }
{
    pending.iter().copied().find(|m| is_ready(pending, *m))
}

fn others(alloc: Global, m: PlaceMove, pending: &[PlaceMove]) -> Result<Vec<PlaceMove>, AllocError>
    ensures { IfOk result (λ v. v.items ≡ others m pending.now) }
{
    pending
        .iter()
        .copied()
        .filter(|x| !is_same(x.to, m.to))
        .collect(alloc)
}

fn redirected(place: Place, m: PlaceMove) -> PlaceMove
    ensures { result ≡ redirect place m }
{
    PlaceMove {
        to: m.to,
        from: if is_from(m.from, place) {
            MoveSource::Place(Place::Slot(SPARE))
        } else {
            m.from
        },
    }
}

fn all_redirected(
    alloc: Global,
    place: Place,
    pending: &[PlaceMove],
) -> Result<Vec<PlaceMove>, AllocError>
    ensures { IfOk result (λ v. v.items ≡ map (redirect place) pending.now) }
{
    pending.iter().map(|m| redirected(place, *m)).collect(alloc)
}

/// The moves in an order in which they may be done one after another.
pub fn sequence(alloc: Global, moves: &[PlaceMove]) -> Result<Vec<PlaceMove>, AllocError>
    requires apart { AreApart moves.now }
    requires to_spare { All (λ m. same_place m.to spare ≡ false) moves.now }
    ensures order { IfOk result (λ v. v.items ≡ sequenced (length moves.now) moves.now) }
    ensures effect { IfOk result (λ v. ActAtOnce moves.now v.items) }
{
    let mut out = Vec::new(alloc);
    let mut pending = Vec::from_slice(alloc, moves)?;
    for _turn in 0..moves.len() {
        if pending.is_empty() {
            break;
        }
        pending = turn(alloc, pending.as_slice(), &mut out)?;
    }
    Ok(out)
}

// One turn, from at least one pending move: appends what is done, and answers what is left.
fn turn(
    alloc: Global,
    pending: &[PlaceMove],
    out: &mut Vec<PlaceMove>,
) -> Result<Vec<PlaceMove>, AllocError>
    requires some { 0 < length pending.now }
    ensures { (m : PlaceMove) (ms : List PlaceMove) → pending.now ≡ m ∷ ms →
        IfOk result (λ v. (v.items ≡ (turn_of m ms (find (is_ready pending.now) pending.now)).left)
        × (out.new.items ≡ out.old.items ++ (turn_of m ms (find (is_ready pending.now) pending.now)).done)) }
{
    match first_ready(pending) {
        Some(m) => {
            out.push(m)?;
            others(alloc, m, pending)
        }
        None => {
            let m = pending[0];
            out.push(PlaceMove {
                to: Place::Slot(SPARE),
                from: MoveSource::Place(m.to),
            })?;
            out.push(redirected(m.to, m))?;
            all_redirected(alloc, m.to, &pending[1..])
        }
    }
}
