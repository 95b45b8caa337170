//! The keys of the blocks of a graph.
ghost use Rattle.std.specs.Prelude.{◌≡◌, ℕ, ◌<◌, All, List, IfOk, length, map};
ghost use Rattle.elf_read.specs.Elf.{IsGuest};
ghost use Rattle.run_model.specs.Edges.{Edge};
ghost use Rattle.flow_graph.specs.GraphOf.{graph_of};
ghost use Rattle.live_flow.specs.Live.{place_of, row_at, StartsAscend, NextAreStarts};
ghost use Rattle.code_layout.specs.Keys.{set_at, keys_of, key_by, rows_in, IsGraphOf};

use crate::live::rows_after;
use elf_read::Exe;
use flow_graph::{Graph, one_graph};
use live_flow::{LiveRow, live, place_of};
use ssa_form::{BlockKey, KnownExits};
use std::alloc::{AllocError, Global};

/// Known exits, each the start of a row, each with the set of that row.
fn exits_of(
    alloc: Global,
    rows: &[LiveRow],
    sets: &[u16],
    known: &[u32],
) -> Result<Vec<(u32, u16)>, AllocError>
    requires ascending { StartsAscend rows.now }
    requires sets { length sets.now ≡ length rows.now }
    requires starts { All (λ y. place_of rows.now y < length rows.now) known.now }
    ensures { IfOk result (λ exits. exits.items ≡ map (λ y. (y, set_at rows.now sets.now y)) known.now) }
{
    let mut exits = Vec::new(alloc);
    for start in known {
        exits.push((*start, sets[place_of(rows, *start)]))?;
    }
    Ok(exits)
}

/// The key of the row of an index below their number.
fn key_at(
    alloc: Global,
    rows: &[LiveRow],
    sets: &[u16],
    index: usize,
) -> Result<BlockKey, AllocError>
    requires ascending { StartsAscend rows.now }
    requires sets { length sets.now ≡ length rows.now }
    requires starts { NextAreStarts rows.now }
    requires index { index < length rows.now }
    ensures { IfOk result (λ key. key ≡ key_by rows.now sets.now (row_at rows.now index)) }
{
    let exits = exits_of(alloc, rows, sets, rows[index].next.as_slice())?;
    Ok(BlockKey {
        start: rows[index].start,
        exits: KnownExits::of(exits),
    })
}

/// The keys of rows, in their order, by the sets of the rows.
fn keys_by(alloc: Global, rows: &[LiveRow], sets: &[u16]) -> Result<Vec<BlockKey>, AllocError>
    requires ascending { StartsAscend rows.now }
    requires sets { length sets.now ≡ length rows.now }
    requires starts { NextAreStarts rows.now }
    ensures { IfOk result (λ keys. keys.items ≡ map (key_by rows.now sets.now) rows.now) }
{
    let mut keys = Vec::with_capacity(alloc, rows.len())?;
    for index in 0..rows.len() {
        keys.push(key_at(alloc, rows, sets, index)?)?;
    }
    Ok(keys)
}

/// The keys of the blocks of the graph of an executable and edges, in the order of the blocks' starts, from the rows of these blocks.
/// Nothing is lifted. Known exits take a logarithm of the number of blocks each, all else is linear in the rows.
///
/// An error comes only for want of memory.
pub fn keys_from(
    alloc: Global,
    exe: &Exe,
    graph: &Graph,
    rows: &[LiveRow],
) -> Result<Vec<BlockKey>, AllocError>
    requires guest { IsGuest exe.now }
    requires graph { IsGraphOf exe.now graph.now.nodes }
    requires rows { rows.now ≡ rows_in exe.now graph.now.nodes }
    ensures { (edges : List Edge) → graph.now.nodes ≡ graph_of exe.now edges →
        IfOk result (λ keys. keys.items ≡ keys_of exe.now edges) }
{
    one_graph();
    let _few = graph.len();
    let sets = live(alloc, rows)?;
    keys_by(alloc, rows, sets.as_slice())
}

/// The keys of the blocks of the graph of an executable and edges, in the order of the blocks' starts: each with its start and its
/// known exits, and the virtual registers that are live at each of these.
///
/// Each block is lifted once, and none is kept. The work is linear in the lines of all blocks, and known exits take a logarithm of the
/// number of blocks each. An error comes only for want of memory.
pub fn keys_of(alloc: Global, exe: &Exe, graph: &Graph) -> Result<Vec<BlockKey>, AllocError>
    requires guest { IsGuest exe.now }
    requires graph { IsGraphOf exe.now graph.now.nodes }
    ensures { (edges : List Edge) → graph.now.nodes ≡ graph_of exe.now edges →
        IfOk result (λ keys. keys.items ≡ keys_of exe.now edges) }
{
    let none = Vec::new(alloc);
    let rows = rows_after(alloc, exe, none.as_slice(), graph)?;
    keys_from(alloc, exe, graph, rows.as_slice())
}
