//! The listing of a block.
ghost use Rattle.std.specs.Prelude.{◌≡◌, ◌++◌, IsTrue, IfOk, OnOk, OnErr, string_bytes};
ghost use Rattle.elf_read.specs.Elf.{IsGuest, is_exec};
ghost use Rattle.block_cut.specs.Blocks.{block_of, cut_of};
ghost use Rattle.show_text.specs.Listing.{listing_of};

use crate::lines::lines_text;
use crate::numbers::address_text;
use crate::ways::ways_text;
use block_cut::{Cut, cut};
use elf_read::Exe;
use std::alloc::{AllocError, Global};

/// The listing of a block, whose cut is given.
#[tactic(auto, unfolding(crate::specs::Listing::listing_of))]
fn block_text(
    alloc: Global,
    exe: &Exe,
    start: u32,
    block: &Cut,
    known: &[u32],
) -> Result<String, AllocError>
    requires guest { IsGuest exe.now }
    requires code { IsTrue (is_exec start exe.now.segments) }
    requires block { block.now ≡ cut_of start (block_of exe.now start) }
    ensures { IfOk result (λ text. string_bytes text ≡ listing_of exe.now start known.now) }
{
    let address = address_text(alloc, start)?;
    let lines = lines_text(alloc, exe, start, block.count)?;
    let ways = ways_text(alloc, exe, known, start, block)?;
    format!(in alloc; "block {address}\n{lines}{ways}")
}

/// Appends the listing of the block of a start, whose cut is given and whose known ways are `known`, addresses
/// in the order given. The start is an address in an executable segment.
///
/// The listing is that of `docs/LISTING.md`. The only error is want of memory, and `out` is then as it was.
pub fn show_cut_block(
    alloc: Global,
    exe: &Exe,
    start: u32,
    block: &Cut,
    known: &[u32],
    out: &mut String,
) -> Result<(), AllocError>
    requires guest { IsGuest exe.now }
    requires code { IsTrue (is_exec start exe.now.segments) }
    requires block { block.now ≡ cut_of start (block_of exe.now start) }
    ensures ok { OnOk result (string_bytes out.new ≡ string_bytes out.old ++ listing_of exe.now start known.now) }
    ensures err { OnErr result (string_bytes out.new ≡ string_bytes out.old) }
{
    let text = block_text(alloc, exe, start, block, known)?;
    out.push_str(&text)
}

/// Appends the listing of the block of a start, whose known ways are `known`, addresses in the order given.
/// The start is an address in an executable segment.
///
/// The listing is that of `docs/LISTING.md`. The only error is want of memory, and `out` is then as it was.
pub fn show_block(
    alloc: Global,
    exe: &Exe,
    start: u32,
    known: &[u32],
    out: &mut String,
) -> Result<(), AllocError>
    requires guest { IsGuest exe.now }
    requires code { IsTrue (is_exec start exe.now.segments) }
    ensures ok { OnOk result (string_bytes out.new ≡ string_bytes out.old ++ listing_of exe.now start known.now) }
    ensures err { OnErr result (string_bytes out.new ≡ string_bytes out.old) }
{
    show_cut_block(alloc, exe, start, &cut(exe, start), known, out)
}
