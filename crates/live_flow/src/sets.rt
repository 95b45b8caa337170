//! Live sets of rows.
ghost use Rattle.std.specs.Prelude.{◌≡◌, ℕ, ◌<◌, ◌≤◌, ◌∷◌, [], IfOk, OnOk, length};
ghost use Rattle.pass_dead.specs.Names.{has};
ghost use Rattle.live_flow.specs.Live.{needed_at, live_in, StartsAscend, NextAreStarts, IsAmong};
ghost use Rattle.live_flow.specs.Links.{AreLinks};
ghost use Rattle.live_flow.specs.Growing.{AreNeeded, Grows, IsUnder};

use crate::links::{Places, links_of};
use crate::row::LiveRow;
use std::alloc::{AllocError, Global};

/// What a row reads, or hands on to the original program.
fn needed(row: &LiveRow) -> u16
    ensures { (v : ℕ) → has result v ≡ needed_at row.now v }
{
    let out = if row.fallback { row.passes } else { 0 };
    row.uses | out
}

/// Puts what a row hands on of a set into its own, and the row into the queue where its set grows.
fn take_over(
    rows: &[LiveRow],
    set: u16,
    place: u32,
    sets: &mut [u16],
    queue: &mut Vec<u32>,
) -> Result<(), AllocError>
    requires place { place < length rows.now }
    requires each { length sets.old ≡ length rows.now }
    ensures { OnOk result (Grows rows.now set (place ∷ []) sets.old sets.new queue.old.items queue.new.items) }
{
    let old = sets[place as usize];
    let grown = old | (rows[place as usize].passes & set);
    if grown != old {
        queue.push(place)?;
        sets[place as usize] = grown;
    }
    Ok(())
}

/// Lets rows take over what they hand on to a set.
fn hand_on(
    rows: &[LiveRow],
    set: u16,
    places: &[u32],
    sets: &mut [u16],
    queue: &mut Vec<u32>,
) -> Result<(), AllocError>
    requires places { (p : ℕ) → IsAmong places.now p → p < length rows.now }
    requires each { length sets.old ≡ length rows.now }
    ensures { OnOk result (Grows rows.now set places.now sets.old sets.new queue.old.items queue.new.items) }
{
    for place in places {
        take_over(rows, set, *place, sets, queue)?;
    }
    Ok(())
}

/// What each row reads, or hands on to the original program.
fn all_needed(alloc: Global, rows: &[LiveRow]) -> Result<Vec<u16>, AllocError>
    ensures length { IfOk result (λ sets. length sets.items ≡ length rows.now) }
    ensures needed { IfOk result (λ sets. AreNeeded rows.now sets.items) }
{
    let mut sets = Vec::new(alloc);
    for row in rows {
        sets.push(needed(row))?;
    }
    Ok(sets)
}

/// The places of so many rows.
fn all_places(alloc: Global, count: usize) -> Result<Vec<u32>, AllocError>
    requires { count ≤ 65536 }
    ensures within { IfOk result (λ places. (k : ℕ) → IsAmong places.items k → k < count) }
    ensures all { IfOk result (λ places. (k : ℕ) → k < count → IsAmong places.items k) }
{
    let mut places = Vec::new(alloc);
    for place in 0..count {
        places.push(place as u32)?;
    }
    Ok(places)
}

/// Hands sets on until none waits.
fn settle(
    rows: &[LiveRow],
    links: &[Places],
    sets: &mut [u16],
    mut queue: Vec<u32>,
) -> Result<(), AllocError>
    requires links { AreLinks rows.now links.now }
    requires under { IsUnder rows.now sets.old queue.items }
    ensures { OnOk result (sets.new ≡ live_in rows.now) }
{
    while let Some(place) = queue.pop() {
        let set = sets[place as usize];
        hand_on(
            rows,
            set,
            links[place as usize].as_slice(),
            sets,
            &mut queue,
        )?;
    }
    Ok(())
}

/// The set of the registers that are live at each row. A row whose set grows waits in a queue until the rows that lead to it have taken
/// over what they hand on; so each set is looked at once for each time that it grew, at most 14 times, and for each row that leads to it.
///
/// An error comes for want of memory.
pub fn live(alloc: Global, rows: &[LiveRow]) -> Result<Vec<u16>, AllocError>
    requires few { length rows.now ≤ 65536 }
    requires ascending { StartsAscend rows.now }
    requires starts { NextAreStarts rows.now }
    ensures { IfOk result (λ sets. sets.items ≡ live_in rows.now) }
{
    let links = links_of(alloc, rows)?;
    let mut sets = all_needed(alloc, rows)?;
    let queue = all_places(alloc, rows.len())?;
    settle(rows, links.as_slice(), sets.as_mut_slice(), queue)?;
    Ok(sets)
}
