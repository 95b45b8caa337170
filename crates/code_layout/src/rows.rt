//! Where fragments stand in the code of a layout.
ghost use Rattle.std.specs.Prelude.{◌≡◌, ℕ, ◌+◌, ◌<◌, ◌≤◌, ◌^◌, All, IfOk, map, length, true, slice_index_or};
ghost use Rattle.std.specs.List.Sorted.{IsStrictlyIncreasing};
ghost use Rattle.block_cut.specs.Transfers.{is_among};
ghost use Rattle.code_layout.specs.Rows.{row_starts, row_address, row_places};

use crate::place::CODE_START;
use std::alloc::{AllocError, Global};

/// A fragment in the code: the start of its block, and where its bytes and its fixes stand.
#[derive(Clone, Copy)]
pub struct Row {
    /// The start of its block, an address of the original.
    pub start: u32,
    /// The offset of its first byte in the code.
    pub at: u32,
    /// How many bytes it has.
    pub len: usize,
    /// The index of its first fix among all fixes.
    pub from: usize,
    /// How many fixes it has.
    pub count: usize,
}

/// The index of the first of ascending rows whose start is not below `start`, or how many rows there are, by
/// binary search.
fn first_from(rows: &[Row], start: u32) -> usize
    requires { IsStrictlyIncreasing (row_starts rows.now) }
    ensures within { result ≤ length rows.now }
    ensures below { (k : ℕ) → k < result → slice_index_or (row_starts rows.now) k 0 < start }
    ensures from { (k : ℕ) → result ≤ k → k < length rows.now → start ≤ slice_index_or (row_starts rows.now) k 0 }
{
    let mut low = 0;
    let mut high = rows.len();
    while low < high {
        let middle = low + (high - low) / 2;
        if rows[middle].start < start {
            low = middle + 1;
        } else {
            high = middle;
        }
    }
    low
}

/// The address of the fragment of a start that has a row.
pub fn address_of(rows: &[Row], start: u32) -> u32
    requires order { IsStrictlyIncreasing (row_starts rows.now) }
    requires there { is_among (row_starts rows.now) start ≡ true }
    requires low { All (λ (r : Row). CODE_START + r.at < 2 ^ 32) rows.now }
    ensures { result ≡ row_address rows.now start }
{
    CODE_START + rows[first_from(rows, start)].at
}

/// The address of the fragment of each row, by its start. An error comes for want of memory.
pub fn places_of(alloc: Global, rows: &[Row]) -> Result<Vec<(u32, u32)>, AllocError>
    requires low { All (λ (r : Row). CODE_START + r.at < 2 ^ 32) rows.now }
    ensures { IfOk result (λ v. v.items ≡ row_places rows.now) }
{
    let mut places = Vec::with_capacity(alloc, rows.len())?;
    for row in rows {
        places.push((row.start, CODE_START + row.at))?;
    }
    Ok(places)
}
