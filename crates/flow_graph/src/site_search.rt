//! Where the edges of a site stand.
ghost use Rattle.std.specs.Prelude.{◌≡◌, ℕ, ◌<◌, ◌≤◌, length, true, slice_index_or};
ghost use Rattle.trace_file.specs.Edges.{ascends};

/// The index of the first of ascending edges whose site is not below `site`, or how many edges there are, by
/// binary search.
pub fn first_at(edges: &[(u32, u32)], site: u64) -> usize
    requires { ascends edges.now ≡ true }
    ensures within { result ≤ length edges.now }
    ensures below { (k : ℕ) → k < result → (slice_index_or edges.now k (0, 0)).0 < site }
    ensures from { (k : ℕ) → result ≤ k → k < length edges.now → site ≤ (slice_index_or edges.now k (0, 0)).0 }
{
    let mut low = 0;
    let mut high = edges.len();
    while low < high {
        let middle = low + (high - low) / 2;
        if (edges[middle].0 as u64) < site {
            low = middle + 1;
        } else {
            high = middle;
        }
    }
    low
}
