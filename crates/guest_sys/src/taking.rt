//! Bytes that a call takes of the input.
ghost use Rattle.std.specs.Prelude.{◌≡◌, ◌+◌, ◌<◌, ◌≤◌, ◌^◌, true, is_some, length, vec_len};
ghost use Rattle.std.specs.Result.{result_map_both};
ghost use Rattle.br_word.specs.Memory.{bytes_at, Writes};
ghost use Rattle.guest_sys.specs.Parts.{AddsPiece, Takes, FillsPiece, Fills};

use crate::answers::SysError;
use br_outside::{Failed, Source};
use guest_mem::Memory;
use std::alloc::Global;

/// How many bytes are taken at once, at most.
const PIECE: usize = 4096;

/// Takes a piece of at most `room` bytes behind the others, and answers whether there was one.
fn take_piece<I: Source>(input: &mut I, bytes: &mut Vec<u8>, room: usize) -> Result<bool, SysError>
    requires some { 0 < room }
    requires fits { room ≤ PIECE }
    ensures { AddsPiece room result bytes.old.items bytes.new.items (I.seen input.old) (I.seen input.new) }
{
    let mut piece = [0u8; PIECE];
    match input.take(&mut piece[..room]) {
        Err(Failed) => Err(SysError::Input),
        Ok(count) => {
            if bytes.extend_from_slice(&piece[..count]).is_err() {
                return Err(SysError::Memory);
            }
            Ok(count > 0)
        }
    }
}

/// Takes bytes until there are `most`, or until the input has no more.
pub fn take_up_to<I: Source>(alloc: Global, input: &mut I, most: u32) -> Result<Vec<u8>, SysError>
    ensures { Takes most (result_map_both (λ v. v.items) (λ e. e) result) (I.seen input.old) (I.seen input.new) }
{
    let wanted = most as usize;
    let mut bytes = Vec::new(alloc);
    while bytes.len() < wanted {
        let room = (wanted - bytes.len()).min(PIECE);
        match take_piece(input, &mut bytes, room) {
            Err(error) => return Err(error),
            Ok(false) => return Ok(bytes),
            Ok(true) => {}
        }
    }
    Ok(bytes)
}

/// Takes at most `len` bytes into a piece of memory, and answers how many: 0 where the input has no more.
fn fill_piece<I: Source>(m: &mut Memory, at: u32, len: u32, input: &mut I) -> Result<u32, SysError>
    requires some { 0 < len }
    requires writable { is_some (bytes_at Writes at len m.old.regions) ≡ true }
    ensures { FillsPiece at len result m.old m.new (I.seen input.old) (I.seen input.new) }
{
    m.regions_lie_apart();
    match input.take(m.piece_mut(at, len)) {
        Err(Failed) => Err(SysError::Input),
        Ok(count) => Ok(count as u32),
    }
}

/// Takes bytes into memory, a piece after another, until there are `len` or the input has no more, and answers how many.
pub fn fill<I: Source>(m: &mut Memory, at: u32, len: u32, input: &mut I) -> Result<u32, SysError>
    requires { is_some (bytes_at Writes at len m.old.regions) ≡ true }
    ensures { Fills at len result m.old m.new (I.seen input.old) (I.seen input.new) }
{
    m.regions_lie_apart();
    let mut done = 0;
    while done < len {
        m.regions_lie_apart();
        match fill_piece(m, at + done, len - done, input) {
            Err(error) => return Err(error),
            Ok(0) => return Ok(done),
            Ok(count) => done += count,
        }
    }
    Ok(done)
}
