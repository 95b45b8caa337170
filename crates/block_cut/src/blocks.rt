//! The cut of a block.
ghost use Rattle.std.specs.Prelude.{◌≡◌, ◌+◌, ◌<◌, ◌≤◌, ◌^◌, IsTrue, IfSome};
ghost use Rattle.elf_read.specs.Elf.{IsGuest, is_exec};
ghost use Rattle.block_cut.specs.Blocks.{block_of, cut_of, next_of, follow_of};

use crate::ends::{Cut, End, MAX_INSTRUCTIONS};
use crate::places::placed;
use elf_read::{Exe, in_exec};
use ia_decode::encoding_length;
use ia_inst::{Kind, kind};

/// A cut with one more instruction, of `len` bytes at `at`.
fn longer(cut: Cut, at: u32, len: u8) -> Cut
    requires count { cut.count < MAX_INSTRUCTIONS }
    requires len { cut.len + len < 2 ^ 32 }
    ensures { result ≡ record cut { count = cut.count + 1; len = cut.len + len; last = at } }
{
    Cut {
        count: cut.count + 1,
        len: cut.len + len as u32,
        last: at,
        ..cut
    }
}

/// The cut of the block of a start: how many instructions and bytes it has, what ends it, and where its last
/// instruction stands. The start is an address in an executable segment.
///
/// A native instruction at the start is a block. Any other block is the instructions from the start on,
/// up to the first of: a transfer, which belongs to it; the place before a native instruction; a place
/// where no instruction stands; the end of [`MAX_INSTRUCTIONS`] instructions. It may be empty. Each
/// instruction lies in the one executable segment in which it begins. The call takes no memory.
pub fn cut(exe: &Exe, start: u32) -> Cut
    requires guest { IsGuest exe.now }
    requires code { IsTrue (is_exec start exe.now.segments) }
    ensures block { result ≡ cut_of start (block_of exe.now start) }
    ensures fits { start + result.len < 2 ^ 32 }
{
    let mut read = Cut {
        count: 0,
        len: 0,
        end: End::Full,
        last: start,
    };
    while read.count < MAX_INSTRUCTIONS {
        let at = start + read.len;
        let Some((inst, len)) = placed(exe, at) else {
            return Cut {
                end: End::Unreadable,
                ..read
            };
        };
        match kind(&inst) {
            Kind::Plain => read = longer(read, at, len),
            Kind::Transfer => {
                return Cut {
                    end: End::Transfer,
                    ..longer(read, at, len)
                };
            }
            Kind::Island if read.count == 0 => {
                return Cut {
                    end: End::Island,
                    ..longer(read, at, len)
                };
            }
            Kind::Island => {
                return Cut {
                    end: End::BeforeIsland,
                    ..read
                };
            }
        }
    }
    read
}

/// The address behind the block of a start, whose cut is given: the start and the bytes of the block. The
/// start is an address in an executable segment. The call takes no memory.
pub fn address_behind(exe: &Exe, start: u32, block: &Cut) -> u32
    requires guest { IsGuest exe.now }
    requires code { IsTrue (is_exec start exe.now.segments) }
    requires block { block.now ≡ cut_of start (block_of exe.now start) }
    ensures value { result ≡ next_of exe.now start }
    ensures fits { result ≡ start + block.now.len }
{
    encoding_length();
    start + block.len
}

/// The start that follows the block of a start, whose cut is given: as [`following_start`], and nothing is
/// decoded. The call takes no memory.
pub fn start_behind(exe: &Exe, start: u32, block: &Cut) -> Option<u32>
    requires guest { IsGuest exe.now }
    requires code { IsTrue (is_exec start exe.now.segments) }
    requires block { block.now ≡ cut_of start (block_of exe.now start) }
    ensures value { result ≡ follow_of exe.now start }
    ensures code { IfSome result (λ next. IsTrue (is_exec next exe.now.segments)) }
{
    match block.end {
        End::Transfer | End::Unreadable => None,
        End::Island | End::BeforeIsland | End::Full => {
            let next = address_behind(exe, start, block);
            in_exec(exe, next).then_some(next)
        }
    }
}

/// The start that follows the block of a start: the address after a native instruction, the native
/// instruction before which the block ended, or the address after [`MAX_INSTRUCTIONS`] instructions without
/// a transfer, where that address lies in an executable segment; `None` for any other block. The start is an
/// address in an executable segment. The call takes no memory.
pub fn following_start(exe: &Exe, start: u32) -> Option<u32>
    requires guest { IsGuest exe.now }
    requires code { IsTrue (is_exec start exe.now.segments) }
    ensures { result ≡ follow_of exe.now start }
{
    start_behind(exe, start, &cut(exe, start))
}
