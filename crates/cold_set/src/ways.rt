//! Where blocks and cold blocks go on.
ghost use Rattle.std.specs.Prelude.{◌≡◌, ◌∷◌, [], IsTrue};
ghost use Rattle.elf_read.specs.Elf.{IsGuest, is_exec};
ghost use Rattle.block_cut.specs.Places.{found_at};
ghost use Rattle.block_cut.specs.Blocks.{block_of, cut_of};
ghost use Rattle.cold_set.specs.ColdStarts.{leads_on, leaves, ways};
ghost use Rattle.cold_set.specs.Meets.{ways_in};

use block_cut::{Cut, End, address_behind, instruction_at};
use cold_cut::{ColdEnd, cut_cold};
use elf_read::Exe;
use ia_inst::Inst;

/// At most two addresses.
#[derive(Clone, Copy)]
pub struct Ways {
    /// One of them.
    pub first: Option<u32>,
    /// The other.
    pub second: Option<u32>,
}

/// Nowhere.
const NONE: Ways = Ways {
    first: None,
    second: None,
};

/// To one address.
fn one(address: u32) -> Ways
    ensures { ways_in result ≡ address ∷ [] }
{
    Ways {
        first: Some(address),
        second: None,
    }
}

/// To two addresses.
fn two(first: u32, second: u32) -> Ways
    ensures { ways_in result ≡ first ∷ second ∷ [] }
{
    Ways {
        first: Some(first),
        second: Some(second),
    }
}

/// The direct targets of the transfer at an address, and the address behind a call.
fn transfer_ways(exe: &Exe, site: u32) -> Ways
    requires { IsGuest exe.now }
    ensures { ways_in result ≡ leads_on (found_at exe.now site) site }
{
    let Some(here) = instruction_at(exe, site) else {
        return NONE;
    };
    let next = site + here.len as u32;
    match here.inst {
        Inst::Jcc { rel, .. } | Inst::Call { rel } => two(next.wrapping_add(rel), next),
        Inst::Jmp { rel } => one(next.wrapping_add(rel)),
        Inst::CallRm { .. } => one(next),
        _ => NONE,
    }
}

/// Where the block of a start goes on, but for its following start: the direct targets of its transfer and the address behind a
/// call, or the address at which no instruction stands. The start is an address in an executable segment, and its cut is given.
pub fn block_ways(exe: &Exe, start: u32, block: &Cut) -> Ways
    requires guest { IsGuest exe.now }
    requires code { IsTrue (is_exec start exe.now.segments) }
    requires block { block.now ≡ cut_of start (block_of exe.now start) }
    ensures { ways_in result ≡ leaves exe.now start }
{
    match block.end {
        End::Transfer => transfer_ways(exe, block.last),
        End::Unreadable => one(address_behind(exe, start, block)),
        End::Island | End::BeforeIsland | End::Full => NONE,
    }
}

/// Where the cold block of an address goes on: the direct targets of its transfer and the address behind a call, or the address
/// behind 64 instructions without a transfer.
pub fn cold_ways(exe: &Exe, start: u32) -> Ways
    requires { IsGuest exe.now }
    ensures { ways_in result ≡ ways exe.now start }
{
    let block = cut_cold(exe, start);
    match block.end {
        ColdEnd::Transfers => transfer_ways(exe, block.last),
        ColdEnd::Full => one(start + block.len),
        ColdEnd::Unreadable => NONE,
    }
}
