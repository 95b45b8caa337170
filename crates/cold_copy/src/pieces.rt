//! The pieces behind the fragments: copies, re-entries and the dispatcher.
ghost use Rattle.std.specs.Prelude.{◌≡◌, ◌<◌, ◌≤◌, ◌^◌, All, IfOk, length};
ghost use Rattle.std.specs.List.Sorted.{IsStrictlyIncreasing};
ghost use Rattle.elf_read.specs.Elf.{IsGuest};
ghost use Rattle.ia_encode.specs.declared.item.Dest.TheVariants as dests;
ghost use Rattle.block_cut.specs.Transfers.{is_among};
ghost use Rattle.block_make.specs.FragmentCode.{code_of_items};
ghost use Rattle.cold_code.specs.Copies.{by_blocks, copy_of};
ghost use Rattle.cold_code.specs.Dispatcher.{merged, dispatcher_of};
ghost use Rattle.cold_copy.specs.ColdCode.{reentry_at};

use block_make::{Assembled, assemble};
use cold_code::{copies_are_code, linked_copy, linked_dispatcher, merged_lists};
use elf_read::Exe;
use fall_stubs::capture;
use ia_encode::{Dest, Piece};
use std::alloc::{AllocError, Global};

/// The starts of blocks and the cold starts: two ascending lists.
#[derive(Clone, Copy)]
pub struct Starts<'a> {
    /// Of blocks.
    pub blocks: &'a [u32],
    /// Of copies.
    pub cold: &'a [u32],
}

/// The copy of a cold start. An error comes for want of memory.
pub fn copy(alloc: Global, exe: &Exe, starts: &Starts, start: u32) -> Result<Assembled, AllocError>
    requires guest { IsGuest exe.now }
    requires blocks { IsStrictlyIncreasing starts.now.blocks.now }
    requires cold { IsStrictlyIncreasing starts.now.cold.now }
    ensures { IfOk result (λ code. code ≡ code_of_items (copy_of exe.now (by_blocks starts.now.blocks.now starts.now.cold.now) start)) }
{
    let mut piece = Piece::new(alloc);
    linked_copy(&mut piece, exe, start, starts.blocks, starts.cold)?;
    assemble(alloc, &piece)
}

/// The re-entry of the start of a block. An error comes for want of memory.
pub fn reentry(alloc: Global, start: u32) -> Result<Assembled, AllocError>
    ensures { IfOk result (λ code. code ≡ code_of_items (reentry_at start).items) }
{
    let mut piece = Piece::new(alloc);
    capture(&mut piece)?;
    piece.jump(None, Dest::Block(start))?;
    assemble(alloc, &piece)
}

/// An address has 32 bits.
fn note_word(address: u32)
    ensures { address < 2 ^ 32 }
{
    let _word = address;
}

/// Addresses have 32 bits.
fn note_words(addresses: &[u32])
    ensures { All (λ x. x < 2 ^ 32) addresses.now }
{
    for index in 0..addresses.len() {
        note_word(addresses[index]);
    }
}

/// The dispatcher. An error comes for want of memory.
pub fn turn(alloc: Global, starts: &Starts) -> Result<Assembled, AllocError>
    requires blocks { IsStrictlyIncreasing starts.now.blocks.now }
    requires cold { IsStrictlyIncreasing starts.now.cold.now }
    requires few { length starts.now.blocks.now ≤ 65536 }
    requires few_cold { length starts.now.cold.now ≤ 65536 }
    ensures { IfOk result (λ code. code ≡ code_of_items (dispatcher_of dests.Block (is_among starts.now.blocks.now) (merged starts.now.blocks.now starts.now.cold.now))) }
{
    copies_are_code();
    merged_lists();
    note_words(starts.blocks);
    note_words(starts.cold);
    let mut piece = Piece::new(alloc);
    linked_dispatcher(alloc, &mut piece, starts.blocks, starts.cold)?;
    assemble(alloc, &piece)
}
