//! Which rows lead to which.
ghost use Rattle.std.specs.Prelude.{◌≡◌, ℕ, ◌<◌, ◌≤◌, [], ◌∷◌, ◌++◌, IfOk, OnOk, length, get_or, vec_len, slice_set};
ghost use Rattle.live_flow.specs.Live.{place_of, ways, StartsAscend, NextAreStarts};
ghost use Rattle.live_flow.specs.Links.{AddsLinks, AreLinks};

use crate::row::LiveRow;
use std::alloc::{AllocError, Global};
use std::marker::Model;

/// Places of rows, seen as their list.
#[derive(Drop)]
pub struct Places {
    list: Vec<u32>,
}

impl Model for Places {
    ghost use Rattle.std.specs.Prelude.{ℕ, List};

    ghost Value = { List ℕ };

    ghost view = { λ p. p.list.items };
}

impl Places {
    ghost use Rattle.std.specs.Prelude.{◌≡◌, [], ◌∷◌, ◌++◌, MatchResult};

    /// No places. It takes no memory.
    pub fn new(alloc: Global) -> Self
        ensures { result ≡ [] }
    {
        Places {
            list: Vec::new(alloc),
        }
    }

    /// The places as a slice. It takes no memory.
    pub fn as_slice(&self) -> &[u32]
        ensures { result.now ≡ self.now }
    {
        self.list.as_slice()
    }

    /// Puts a place behind them.
    ///
    /// An error comes where memory is short, and then they stay as they are.
    pub fn push(&mut self, place: u32) -> Result<(), AllocError>
        ensures { MatchResult result (λ done. self.new ≡ self.old ++ place ∷ []) (λ short. self.new ≡ self.old) }
    {
        self.list.push(place)?;
        Ok(())
    }
}

/// The place of the row with this start, where one has it, by halving. It takes no memory.
pub fn place_of(rows: &[LiveRow], start: u32) -> usize
    requires ascending { StartsAscend rows.now }
    requires there { place_of rows.now start < length rows.now }
    ensures { result ≡ place_of rows.now start }
{
    let mut low = 0;
    let mut high = rows.len();
    while low + 1 < high {
        let mid = low + (high - low) / 2;
        if rows[mid].start <= start {
            low = mid;
        } else {
            high = mid;
        }
    }
    low
}

/// Adds a place to one of many lists.
fn add(links: &mut Vec<Places>, at: usize, place: u32) -> Result<(), AllocError>
    requires { at < vec_len links.old }
    ensures { OnOk result (links.new.items ≡ slice_set links.old.items at (get_or links.old.items at [] ++ place ∷ [])) }
{
    links[at].push(place)?;
    Ok(())
}

/// Adds the place of a row to the lists of its known exits.
fn add_row(rows: &[LiveRow], place: usize, links: &mut Vec<Places>) -> Result<(), AllocError>
    requires few { length rows.now ≤ 65536 }
    requires ascending { StartsAscend rows.now }
    requires starts { NextAreStarts rows.now }
    requires place { place < length rows.now }
    requires each { length links.old.items ≡ length rows.now }
    ensures { OnOk result (AddsLinks (ways rows.now place) place links.old.items links.new.items) }
{
    for start in rows[place].next.as_slice() {
        add(links, place_of(rows, *start), place as u32)?;
    }
    Ok(())
}

/// So many empty lists.
fn none(alloc: Global, count: usize) -> Result<Vec<Places>, AllocError>
    ensures length { IfOk result (λ links. length links.items ≡ count) }
    ensures empty { IfOk result (λ links. (i : ℕ) → get_or links.items i [] ≡ []) }
{
    let mut links = Vec::new(alloc);
    for _ in 0..count {
        let empty = Places::new(alloc);
        links.push(empty)?;
    }
    Ok(links)
}

/// For each row the places of the rows with a known exit to it.
///
/// An error comes for want of memory.
pub fn links_of(alloc: Global, rows: &[LiveRow]) -> Result<Vec<Places>, AllocError>
    requires few { length rows.now ≤ 65536 }
    requires ascending { StartsAscend rows.now }
    requires starts { NextAreStarts rows.now }
    ensures { IfOk result (λ links. AreLinks rows.now links.items) }
{
    let mut links = none(alloc, rows.len())?;
    for place in 0..rows.len() {
        add_row(rows, place, &mut links)?;
    }
    Ok(links)
}
