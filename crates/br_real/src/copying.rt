//! Loops over read and write. A call that a signal interrupted is made again.
ghost use Rattle.std.specs.Prelude.{◌≡◌, ◌≤◌, ℕ, length, IfOk, IfSome};

use br_outside::ShelfError;
use std::alloc::Global;
use std::io::{ErrorKind, Read, Write};

/// What one read gives, and `None` where it failed.
pub fn read_once<T: Read>(reader: &mut T, into: &mut [u8]) -> Option<usize>
    ensures { IfSome result (λ count. count ≤ length into.new) }
{
    for _ in 0..u64::MAX {
        match reader.read(into) {
            Ok(count) => return Some(count),
            Err(error) if error.kind() == ErrorKind::Interrupted => {}
            Err(_) => return None,
        }
    }
    None
}

/// All bytes of a reader. `TooLong` comes only after `limit + 1` bytes were read, and `Failed` where a read failed.
pub fn read_whole<T: Read>(alloc: Global, reader: &mut T, limit: u32) -> Result<Vec<u8>, ShelfError>
    ensures { IfOk result (λ bytes. length bytes.items ≤ limit) }
{
    let mut bytes = Vec::new(alloc);
    let mut piece = [0u8; 4096];
    for _ in 0..u64::MAX {
        let room = (limit as usize + 1 - bytes.len()).min(piece.len());
        let count = read_once(reader, &mut piece[..room]).ok_or(ShelfError::Failed)?;
        if count == 0 {
            return Ok(bytes);
        }
        bytes.extend_from_slice(&piece[..count])?;
        if bytes.len() > limit as usize {
            return Err(ShelfError::TooLong);
        }
    }
    Err(ShelfError::Failed)
}

/// Writes all bytes, and says whether that succeeded. A write that takes nothing of some bytes is a failure.
pub fn write_whole<T: Write>(writer: &mut T, bytes: &[u8]) -> bool {
    let mut done = 0;
    for _ in 0..u64::MAX {
        if done >= bytes.len() {
            return flush_whole(writer);
        }
        match writer.write(&bytes[done..]) {
            Ok(count) if count > 0 => done += count,
            Err(error) if error.kind() == ErrorKind::Interrupted => {}
            _ => return false,
        }
    }
    false
}

/// Flushes, and says whether that succeeded.
fn flush_whole<T: Write>(writer: &mut T) -> bool {
    for _ in 0..u64::MAX {
        match writer.flush() {
            Ok(()) => return true,
            Err(error) if error.kind() == ErrorKind::Interrupted => {}
            Err(_) => return false,
        }
    }
    false
}
