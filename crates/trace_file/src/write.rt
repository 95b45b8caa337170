//! Trace files are written.
ghost use Rattle.std.specs.Prelude.{◌≡◌, ◌≤◌, ◌++◌, length, Ok, OnOk, IfOk, All};
ghost use Rattle.trace_file.specs.declared.limits.TheConstants.{FILE_EDGE_LIMIT};
ghost use Rattle.trace_file.specs.Trace.{trace_bytes, all_record_bytes, AreWords, trace};

use crate::edges::Edges;
use crate::field::{MAGIC, RECORD_SIZE, RECORDS_PLACE, push_word};
use std::alloc::{AllocError, Global};

/// Appends the records of edges, each its site and its target.
fn push_records(out: &mut Vec<u8>, list: &[(u32, u32)]) -> Result<(), AllocError>
    ensures bytes { OnOk result (out.new.items ≡ out.old.items ++ all_record_bytes list.now) }
    ensures words { OnOk result (All AreWords list.now) }
{
    for edge in list {
        push_word(out, edge.0)?;
        push_word(out, edge.1)?;
    }
    Ok(())
}

/// The trace file of at most [`FILE_EDGE_LIMIT`](crate::FILE_EDGE_LIMIT) edges and the digest of the
/// executable in whose runs they were taken (docs/TRACES.md). [`read_trace`](crate::read_trace) with that digest gives the same edges.
///
/// Errors: only for want of memory.
pub fn write_trace(alloc: Global, edges: &Edges, digest: &[u8; 32]) -> Result<Vec<u8>, AllocError>
    requires { length edges.now ≤ FILE_EDGE_LIMIT }
    ensures file { IfOk result (λ file. file.items ≡ trace_bytes edges.now digest.now) }
    ensures read { IfOk result (λ file. trace file.items digest.now ≡ Ok edges.now) }
{
    let mut out = Vec::with_capacity(alloc, (RECORDS_PLACE + RECORD_SIZE * edges.len()) as usize)?;
    out.extend_from_slice(MAGIC)?;
    out.extend_from_slice(digest)?;
    push_word(&mut out, edges.len())?;
    push_records(&mut out, edges.as_slice())?;
    Ok(out)
}
