//! The checks of a trace file.
ghost use Rattle.std.specs.Prelude.{◌≡◌, ◌+◌, ◌*◌, ◌≤◌, length, IfOk, None};
ghost use Rattle.trace_file.specs.Trace.{magic, first_difference, disorder, count_of, records_of, refusal, early_refusal, late_refusal};
ghost use Rattle.trace_file.specs.Reads.{Says};

use crate::error::TraceError;
use crate::field::{
    COUNT_PLACE, MAGIC, RECORD_SIZE, RECORDS_PLACE, read_digest, read_record, read_word,
};
use crate::limits::FILE_EDGE_LIMIT;
use crate::order::is_before;

/// The refusal of a number at a place.
fn refused(number: u8, place: u32) -> TraceError
    ensures { result ≡ TraceError.Refused number place }
{
    TraceError::Refused { number, place }
}

/// The place of the first byte that is not that of the magic.
fn magic_place(bytes: &[u8]) -> Option<u32>
    ensures { result ≡ first_difference 0 magic bytes.now }
{
    for i in 0..8u32 {
        let at = i as usize;
        if at >= bytes.len() || bytes[at] != MAGIC[at] {
            return Some(i);
        }
    }
    None
}

/// The refusals before those of the records, and how many records there are.
fn check_head(bytes: &[u8], digest: &[u8; 32]) -> Result<u32, TraceError>
    ensures refused { Says bytes.now digest.now result (early_refusal bytes.now digest.now None) }
    ensures count { IfOk result (λ n. n ≡ count_of bytes.now) }
    ensures most { IfOk result (λ n. n ≤ FILE_EDGE_LIMIT) }
    ensures size { IfOk result (λ n. 44 + 8 * n ≤ length bytes.now) }
{
    if let Some(place) = magic_place(bytes) {
        return Err(refused(21, place));
    }
    if bytes.len() < RECORDS_PLACE as usize {
        return Err(refused(23, bytes.len() as u32));
    }
    let found = read_digest(bytes);
    if found != *digest {
        return Err(TraceError::Other { found });
    }
    let count = read_word(bytes, COUNT_PLACE);
    if count > FILE_EDGE_LIMIT {
        return Err(refused(26, COUNT_PLACE));
    }
    if bytes.len() < (RECORDS_PLACE + RECORD_SIZE * count) as usize {
        return Err(refused(23, bytes.len() as u32));
    }
    Ok(count)
}

/// The place of the first record that is not above the one before it.
fn disorder_place(bytes: &[u8], count: u32) -> Option<u32>
    requires count { count ≡ count_of bytes.now }
    requires most { count ≤ FILE_EDGE_LIMIT }
    requires size { 44 + 8 * count ≤ length bytes.now }
    ensures { result ≡ disorder 44 (records_of bytes.now) }
{
    if count == 0 {
        return None;
    }
    let mut last = read_record(bytes, 0);
    for i in 1..count {
        let next = read_record(bytes, i);
        if !is_before(last, next) {
            return Some(RECORDS_PLACE + RECORD_SIZE * i);
        }
        last = next;
    }
    None
}

/// The refusals of the records.
fn check_records(bytes: &[u8], digest: &[u8; 32], count: u32) -> Result<(), TraceError>
    requires count { count ≡ count_of bytes.now }
    requires most { count ≤ FILE_EDGE_LIMIT }
    requires size { 44 + 8 * count ≤ length bytes.now }
    ensures { Says bytes.now digest.now result (late_refusal bytes.now) }
{
    if let Some(place) = disorder_place(bytes, count) {
        return Err(refused(24, place));
    }
    let end = RECORDS_PLACE + RECORD_SIZE * count;
    if bytes.len() > end as usize {
        return Err(refused(25, end));
    }
    Ok(())
}

/// The first refusal, and how many records an accepted file has.
pub fn check_trace(bytes: &[u8], digest: &[u8; 32]) -> Result<u32, TraceError>
    ensures refused { Says bytes.now digest.now result (refusal bytes.now digest.now) }
    ensures count { IfOk result (λ n. n ≡ count_of bytes.now) }
    ensures most { IfOk result (λ n. n ≤ FILE_EDGE_LIMIT) }
    ensures size { IfOk result (λ n. 44 + 8 * n ≤ length bytes.now) }
{
    let count = check_head(bytes, digest)?;
    check_records(bytes, digest, count)?;
    Ok(count)
}
