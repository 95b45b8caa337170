//! Where the row of a start stands.
ghost use Rattle.std.specs.Prelude.{◌≡◌, ℕ, ◌<◌, ◌≤◌, ◌↔◌, Some, length, slice_index_or};
ghost use Rattle.std.specs.List.Sorted.{IsStrictlyIncreasing};
ghost use Rattle.flow_graph.specs.BlockRows.{row_starts};

use crate::block_rows::BlockRow;

/// The index of the first of ascending rows whose start is not below `start`, or how many rows there are, by
/// binary search.
fn first_from(rows: &[BlockRow], start: u32) -> usize
    requires { IsStrictlyIncreasing (row_starts rows.now) }
    ensures within { result ≤ length rows.now }
    ensures below { (k : ℕ) → k < result → slice_index_or (row_starts rows.now) k 0 < start }
    ensures from { (k : ℕ) → result ≤ k → k < length rows.now → start ≤ slice_index_or (row_starts rows.now) k 0 }
{
    let mut low = 0;
    let mut high = rows.len();
    while low < high {
        let middle = low + (high - low) / 2;
        if rows[middle].start < start {
            low = middle + 1;
        } else {
            high = middle;
        }
    }
    low
}

/// The index of the row of a start, or `None` where no row has it.
pub fn index_among(rows: &[BlockRow], start: u32) -> Option<usize>
    requires { IsStrictlyIncreasing (row_starts rows.now) }
    ensures { (i : ℕ) → (result ≡ Some i) ↔ ((i < length rows.now) × (slice_index_or (row_starts rows.now) i 0 ≡ start)) }
{
    let index = first_from(rows, start);
    if index < rows.len() && rows[index].start == start {
        Some(index)
    } else {
        None
    }
}
