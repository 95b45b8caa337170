//! The parts of a trace file, whose numbers have the lowest byte first.
ghost use Rattle.std.specs.Prelude.{◌≡◌, ◌+◌, ◌*◌, ◌≤◌, ◌<◌, ◌^◌, ◌++◌, length, get_or, OnOk};
ghost use Rattle.trace_file.specs.declared.limits.TheConstants.{FILE_EDGE_LIMIT};
ghost use Rattle.trace_file.specs.Trace.{word_at, word, record_at, count_of, records_of, stored_digest};

use byteorder::{ByteOrder, LittleEndian};
use std::alloc::AllocError;

/// The bytes with which a trace file of this version begins.
pub const MAGIC: &[u8; 8] = b"BRTRACE1";
/// Where the digest stands.
pub const DIGEST_PLACE: u32 = 8;
/// Where the number of records stands.
pub const COUNT_PLACE: u32 = 40;
/// Where the records begin.
pub const RECORDS_PLACE: u32 = 44;
/// The bytes of a record.
pub const RECORD_SIZE: u32 = 8;

/// The 32-bit number at an offset.
#[tactic(auto, unfolding(crate::specs::Trace::word_at))]
pub fn read_word(bytes: &[u8], at: u32) -> u32
    requires { at + 4 ≤ length bytes.now }
    ensures { result ≡ word_at at bytes.now }
{
    LittleEndian::read_u32(&bytes[at as usize..])
}

/// The record at an index: a site and a target.
pub fn read_record(bytes: &[u8], index: u32) -> (u32, u32)
    requires index { index < count_of bytes.now }
    requires count { count_of bytes.now ≤ FILE_EDGE_LIMIT }
    requires size { 44 + 8 * count_of bytes.now ≤ length bytes.now }
    ensures { result ≡ get_or (records_of bytes.now) index result }
{
    let at = RECORDS_PLACE + RECORD_SIZE * index;
    (read_word(bytes, at), read_word(bytes, at + 4))
}

/// The digest in a file of at least 44 bytes.
pub fn read_digest(bytes: &[u8]) -> [u8; 32]
    requires { 44 ≤ length bytes.now }
    ensures { result ≡ stored_digest bytes.now }
{
    let mut found = [0; 32];
    found.copy_from_slice(&bytes[DIGEST_PLACE as usize..COUNT_PLACE as usize]);
    found
}

/// Appends a 32-bit number.
#[tactic(auto, unfolding(crate::specs::Trace::word))]
pub fn push_word(out: &mut Vec<u8>, value: u32) -> Result<(), AllocError>
    ensures bytes { OnOk result (out.new.items ≡ out.old.items ++ word value) }
    ensures fits { value < 2 ^ 32 }
{
    let mut bytes = [0; 4];
    LittleEndian::write_u32(&mut bytes, value);
    out.extend_from_slice(&bytes)
}
