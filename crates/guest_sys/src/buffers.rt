//! Buffers of a call in the memory of a guest.
ghost use Rattle.std.specs.Prelude.{length, take, ◌^◌, ◌≡◌, ◌≢◌, ◌+◌, ◌<◌, ◌≤◌, None, true, is_some, option_map};
ghost use Rattle.br_word.specs.Memory.{bytes_at, Reads, Writes};
ghost use Rattle.ia_inst.specs.System.{buffer, filled};
ghost use Rattle.guest_sys.specs.Parts.{IsWanted, Puts, GivesBuffer};

use br_outside::{Sink, SinkError};
use guest_mem::Memory;

/// How many bytes can be written at an address, `len` of them at most.
fn writable_front(m: &Memory, at: u32, len: u32) -> u32
    ensures within { result ≤ len }
    ensures fits { 0 < result → bytes_at Writes at result m.now.regions ≢ None }
    ensures most { result < len → bytes_at Writes at (result + 1) m.now.regions ≡ None }
{
    if m.can_write(at, len) {
        return len;
    }
    let mut low = 0;
    let mut high = len;
    while high - low > 1 {
        let middle = low + (high - low) / 2;
        if m.can_write(at, middle) {
            low = middle;
        } else {
            high = middle;
        }
    }
    low
}

/// How many bytes are taken for a read of `len` bytes to an address: one more than fit, where they
/// do not all fit.
pub fn wanted(m: &Memory, at: u32, len: u32) -> u32
    ensures { IsWanted at len m.now.regions result }
{
    let front = writable_front(m, at, len);
    if front < len { front + 1 } else { len }
}

/// Puts bytes into memory, and answers whether memory allows it; else it stays as it was.
pub fn put(m: &mut Memory, at: u32, bytes: &[u8]) -> bool
    requires { length bytes.now < 2 ^ 32 }
    ensures { Puts (filled at bytes.now m.old.regions) result m.old m.new }
{
    if bytes.is_empty() {
        return true;
    }
    if !m.can_write(at, bytes.len() as u32) {
        return false;
    }
    m.copy_in(at, bytes);
    true
}

/// Gives a sink the bytes of a buffer that may be read, a piece after another.
fn give_pieces<S: Sink>(m: &Memory, at: u32, len: u32, sink: &mut S) -> Result<bool, SinkError>
    requires { is_some (bytes_at Reads at len m.now.regions) ≡ true }
    ensures { GivesBuffer (option_map (take len) (bytes_at Reads at len m.now.regions)) result (S.seen sink.old) (S.seen sink.new) }
{
    m.regions_lie_apart();
    let mut done = 0;
    while done < len {
        let piece = m.piece(at + done, len - done);
        match sink.give(piece) {
            Err(error) => return Err(error),
            Ok(()) => done += piece.len() as u32,
        }
    }
    Ok(true)
}

/// Gives a sink the bytes of a buffer, and answers whether memory allows that they are read. For
/// no bytes the sink is not called.
pub fn give_buffer<S: Sink>(m: &Memory, at: u32, len: u32, sink: &mut S) -> Result<bool, SinkError>
    ensures { GivesBuffer (buffer at len m.now.regions) result (S.seen sink.old) (S.seen sink.new) }
{
    if len == 0 {
        return Ok(true);
    }
    if !m.can_read(at, len) {
        return Ok(false);
    }
    give_pieces(m, at, len, sink)
}
