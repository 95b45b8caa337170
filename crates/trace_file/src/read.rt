//! Trace files are read.
ghost use Rattle.std.specs.Prelude.{◌≡◌, ◌+◌, ◌*◌, ◌≤◌, length, IfOk};
ghost use Rattle.trace_file.specs.declared.limits.TheConstants.{FILE_EDGE_LIMIT};
ghost use Rattle.trace_file.specs.Trace.{count_of, records_of};
ghost use Rattle.trace_file.specs.Reads.{ReadsTrace};

use crate::check::check_trace;
use crate::edges::Edges;
use crate::error::TraceError;
use crate::field::read_record;
use std::alloc::{AllocError, Global};

/// The records of a file.
fn load_records(alloc: Global, bytes: &[u8], count: u32) -> Result<Vec<(u32, u32)>, AllocError>
    requires count { count ≡ count_of bytes.now }
    requires most { count ≤ FILE_EDGE_LIMIT }
    requires size { 44 + 8 * count ≤ length bytes.now }
    ensures { IfOk result (λ list. list.items ≡ records_of bytes.now) }
{
    let mut list = Vec::with_capacity(alloc, count as usize)?;
    for i in 0..count {
        list.push(read_record(bytes, i))?;
    }
    Ok(list)
}

/// The edges in a trace file of the executable whose bytes have this digest (docs/TRACES.md;
/// [`digest`](crate::digest)).
///
/// Errors: [`TraceError::Refused`] and [`TraceError::Other`] exactly where the file is refused, by the
/// first refusal that holds in the order of docs/TRACES.md, with its number and place;
/// [`TraceError::Other`] is the refusal with the number 22 and tells the digest that is in the file.
/// [`TraceError::Memory`] for want of memory, only for a file that is accepted.
pub fn read_trace(alloc: Global, bytes: &[u8], digest: &[u8; 32]) -> Result<Edges, TraceError>
    ensures { ReadsTrace bytes.now digest.now result }
{
    let count = check_trace(bytes, digest)?;
    Ok(Edges::of_list(load_records(alloc, bytes, count)?))
}
