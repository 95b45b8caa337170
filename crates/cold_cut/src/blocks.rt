//! The cut of a cold block.
ghost use Rattle.std.specs.Prelude.{◌≡◌, ◌+◌, ◌<◌, ◌^◌};
ghost use Rattle.elf_read.specs.Elf.{IsGuest};
ghost use Rattle.cold_cut.specs.ColdBlocks.{cold_of, cold_cut_of};

use crate::ends::{ColdCut, ColdEnd, MAX_COPIED};
use block_cut::instruction_at;
use elf_read::Exe;
use ia_inst::{Kind, kind};

/// A cut with one more instruction, of `len` bytes at `at`.
fn longer(cut: ColdCut, at: u32, len: u8) -> ColdCut
    requires count { cut.count < MAX_COPIED }
    requires len { cut.len + len < 2 ^ 32 }
    ensures { result ≡ record cut { count = cut.count + 1; len = cut.len + len; last = at } }
{
    ColdCut {
        count: cut.count + 1,
        len: cut.len + len as u32,
        last: at,
        ..cut
    }
}

/// The cut of the cold block of a start, any address: how many instructions and bytes it has, what ends it, and where its last
/// instruction stands.
///
/// The cold block is the instructions from the start on, up to the first of: a transfer, which belongs to it; a place where no
/// instruction stands; the end of [`MAX_COPIED`] instructions. It may be empty. Unlike in the block of a start (as
/// `block_cut::cut` tells it), native instructions are taken like any other. The call takes no memory.
pub fn cut_cold(exe: &Exe, start: u32) -> ColdCut
    requires { IsGuest exe.now }
    ensures block { result ≡ cold_cut_of start (cold_of exe.now start) }
    ensures fits { start + result.len < 2 ^ 32 }
{
    let mut read = ColdCut {
        count: 0,
        len: 0,
        end: ColdEnd::Full,
        last: start,
    };
    while read.count < MAX_COPIED {
        let at = start + read.len;
        let Some(here) = instruction_at(exe, at) else {
            return ColdCut {
                end: ColdEnd::Unreadable,
                ..read
            };
        };
        match kind(&here.inst) {
            Kind::Plain | Kind::Island => read = longer(read, at, here.len),
            Kind::Transfer => {
                return ColdCut {
                    end: ColdEnd::Transfers,
                    ..longer(read, at, here.len)
                };
            }
        }
    }
    read
}
