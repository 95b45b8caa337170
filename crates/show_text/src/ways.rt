//! Where blocks go on.
ghost use Rattle.std.specs.Prelude.{◌≡◌, ◌++◌, IfOk, IsTrue, string_bytes};
ghost use Rattle.elf_read.specs.Elf.{IsGuest, is_exec};
ghost use Rattle.block_cut.specs.Places.{found_at};
ghost use Rattle.block_cut.specs.Blocks.{block_of, cut_of};
ghost use Rattle.show_text.specs.Listing.{way_line, way_to, ways_to_any, transfer_ways, ways_of};

use crate::numbers::address_text;
use block_cut::{Cut, End, address_behind, instruction_at};
use elf_read::Exe;
use ia_inst::Inst;
use std::alloc::{AllocError, Global};

/// A way of a kind.
fn way_line(alloc: Global, kind: &str, to: u32) -> Result<String, AllocError>
    ensures { IfOk result (λ text. string_bytes text ≡ way_line kind.now to) }
{
    let address = address_text(alloc, to)?;
    format!(in alloc; "  to {address} {kind}\n")
}

/// A way, which is known or the original's.
fn way_to(alloc: Global, known: &[u32], to: u32) -> Result<String, AllocError>
    ensures { IfOk result (λ text. string_bytes text ≡ way_to known.now to) }
{
    let kind = if known.contains(&to) {
        "known"
    } else {
        "original"
    };
    way_line(alloc, kind, to)
}

/// The ways of a conditional jump.
fn two_ways(alloc: Global, known: &[u32], next: u32, taken: u32) -> Result<String, AllocError>
    ensures { IfOk result (λ text. string_bytes text ≡ way_to known.now next ++ way_to known.now taken) }
{
    let next = way_to(alloc, known, next)?;
    let taken = way_to(alloc, known, taken)?;
    format!(in alloc; "{next}{taken}")
}

/// The ways of an indirect transfer.
fn ways_to_any(alloc: Global, known: &[u32]) -> Result<String, AllocError>
    ensures { IfOk result (λ text. string_bytes text ≡ ways_to_any known.now) }
{
    let mut ways = String::new(alloc);
    for to in known {
        ways.push_str(&way_line(alloc, "known", *to)?)?;
    }
    ways.push_str("  to other original\n")?;
    Ok(ways)
}

/// The ways of the transfer that stands at an address.
fn transfer_ways(alloc: Global, exe: &Exe, known: &[u32], at: u32) -> Result<String, AllocError>
    requires { IsGuest exe.now }
    ensures { IfOk result (λ text. string_bytes text ≡ transfer_ways known.now (found_at exe.now at) at) }
{
    let Some(transfer) = instruction_at(exe, at) else {
        return Ok(String::new(alloc));
    };
    let next = at + u32::from(transfer.len);
    match transfer.inst {
        Inst::Jcc { rel, .. } => two_ways(alloc, known, next, next.wrapping_add(rel)),
        Inst::Jmp { rel } | Inst::Call { rel } => way_to(alloc, known, next.wrapping_add(rel)),
        Inst::JmpRm { .. } | Inst::CallRm { .. } | Inst::Ret { .. } => ways_to_any(alloc, known),
        _ => Ok(String::new(alloc)),
    }
}

/// The ways of a block, whose cut is given.
pub fn ways_text(
    alloc: Global,
    exe: &Exe,
    known: &[u32],
    start: u32,
    block: &Cut,
) -> Result<String, AllocError>
    requires guest { IsGuest exe.now }
    requires code { IsTrue (is_exec start exe.now.segments) }
    requires block { block.now ≡ cut_of start (block_of exe.now start) }
    ensures { IfOk result (λ text. string_bytes text ≡ ways_of exe.now known.now start block.now) }
{
    match block.end {
        End::Transfer => transfer_ways(alloc, exe, known, block.last),
        End::Island | End::BeforeIsland | End::Unreadable | End::Full => {
            way_to(alloc, known, address_behind(exe, start, block))
        }
    }
}
