//! A row filled with the edges of a trace.
ghost use Rattle.std.specs.Prelude.{◌≡◌, ◌+◌, ◌<◌, ◌≤◌, [], length, slice_index_or, slice_set, OnOk, OnErr};
ghost use Rattle.trace_file.specs.declared.limits.TheConstants.{EDGE_LIMIT};
ghost use Rattle.trace_file.specs.Edges.{pairs};
ghost use Rattle.trace_set.specs.Rows.{IsKept, shown_rows};

use crate::rows::EdgeRows;
use br_word::Steps;
use std::alloc::AllocError;

/// Puts the edges into an empty row. After an error the rows are as before.
pub fn fill(rows: &mut EdgeRows, row: u32, edges: &[(u32, u32)]) -> Result<(), AllocError>
    requires kept { IsKept rows.old }
    requires row { row < length (shown_rows rows.old) }
    requires empty { slice_index_or (shown_rows rows.old) row [] ≡ [] }
    requires room { pairs (shown_rows rows.old) + length edges.now ≤ EDGE_LIMIT }
    ensures kept { IsKept rows.new }
    ensures ok { OnOk result (shown_rows rows.new ≡ slice_set (shown_rows rows.old) row edges.now) }
    ensures err { OnErr result (shown_rows rows.new ≡ shown_rows rows.old) }
{
    for edge in edges {
        if rows.put(row, *edge).is_err() {
            let _ = rows.clear_row(row, &mut Steps::new(()));
            return Err(AllocError);
        }
    }
    Ok(())
}
