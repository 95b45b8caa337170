//! The rows of the blocks of a graph, from which follows what is live at their starts. A row that is there already is copied; only
//! blocks without one are lifted.
ghost use Rattle.std.specs.Prelude.{◌≡◌, ◌<◌, ◌≤◌, true, IfOk, length, slice_index_or};
ghost use Rattle.elf_read.specs.Elf.{IsGuest};
ghost use Rattle.flow_graph.specs.Graph.{AreCode, node_at};
ghost use Rattle.code_layout.specs.Keys.{row_in, rows_in, AreRows, IsGraphOf};

use block_make::ready;
use elf_read::Exe;
use flow_graph::{Graph, one_graph};
use live_flow::{LiveRow, Starts, row_of};
use std::alloc::{AllocError, Global};

/// The first place from `from` on whose row does not start below an address, or how many rows there are.
fn place_from(rows: &[LiveRow], from: usize, start: u32) -> usize
    requires { from ≤ length rows.now }
    ensures { result ≤ length rows.now }
{
    for at in from..rows.len() {
        if start <= rows[at].start {
            return at;
        }
    }
    rows.len()
}

/// A row once more. An error comes for want of memory.
fn copy_of(alloc: Global, row: &LiveRow) -> Result<LiveRow, AllocError>
    ensures { IfOk result (λ copy. copy ≡ row.now) }
{
    let next = Vec::from_slice(alloc, row.next.as_slice())?;
    Ok(LiveRow {
        start: row.start,
        uses: row.uses,
        passes: row.passes,
        fallback: row.fallback,
        next: Starts::of(next),
    })
}

/// Whether this is the row of the block of an index below the number of blocks.
fn is_row_of(row: &LiveRow, graph: &Graph, index: u32) -> bool
    requires { index < length graph.now.nodes }
    ensures start { result ≡ true → row.now.start ≡ (node_at graph.now.nodes index).start }
    ensures known { result ≡ true → row.now.next ≡ (node_at graph.now.nodes index).known }
{
    row.start == graph.start(index) && row.next.as_slice() == graph.known(index)
}

/// The row of the block of an index below the number of blocks: the one at this place where it is that row, else the block is lifted,
/// and not kept. An error comes for want of memory.
fn row_at(
    alloc: Global,
    exe: &Exe,
    old: &[LiveRow],
    at: usize,
    graph: &Graph,
    index: u32,
) -> Result<LiveRow, AllocError>
    requires guest { IsGuest exe.now }
    requires old { AreRows exe.now old.now }
    requires code { AreCode exe.now graph.now.nodes }
    requires index { index < length graph.now.nodes }
    ensures { IfOk result (λ row. row ≡ row_in exe.now (node_at graph.now.nodes index)) }
{
    if at < old.len() && is_row_of(&old[at], graph, index) {
        return copy_of(alloc, &old[at]);
    }
    let block = ready(alloc, exe, graph.start(index))?;
    row_of(alloc, &block, graph.known(index))
}

/// The rows of the blocks of a graph, in the order of their starts. Where a row of that start and those known exits is among the old
/// ones it is copied, as long as these ascend by their starts; any other block is lifted, once, and not kept. The work is linear in the
/// number of old rows and of blocks, the lines of the blocks that are lifted, and known exits.
///
/// An error comes only for want of memory.
pub fn rows_after(
    alloc: Global,
    exe: &Exe,
    old: &[LiveRow],
    graph: &Graph,
) -> Result<Vec<LiveRow>, AllocError>
    requires guest { IsGuest exe.now }
    requires old { AreRows exe.now old.now }
    requires graph { IsGraphOf exe.now graph.now.nodes }
    ensures all { IfOk result (λ rows. rows.items ≡ rows_in exe.now graph.now.nodes) }
    ensures each { IfOk result (λ rows. AreRows exe.now rows.items) }
{
    one_graph();
    let mut rows = Vec::with_capacity(alloc, graph.len() as usize)?;
    let mut at = 0;
    for index in 0..graph.len() {
        at = place_from(old, at, graph.start(index));
        rows.push(row_at(alloc, exe, old, at, graph, index)?)?;
    }
    Ok(rows)
}
