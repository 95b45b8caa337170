//! A block, with what was chosen of it.
ghost use Rattle.std.specs.Prelude.{◌≡◌, IsTrue, IfOk};
ghost use Rattle.elf_read.specs.Elf.{IsGuest, is_exec};
ghost use Rattle.block_make.specs.Choices.{choice_of};
ghost use Rattle.block_make.specs.Prepared.{choice_in, IsPrepared};

use crate::choices::ready;
use crate::laws::splits_are_closed;
use elf_read::Exe;
use par_moves::Place;
use reg_place::{lines_placed, place, places_lie};
use ssa_form::{Block, BlockKey, Split};
use std::alloc::{AllocError, Global};
use stub_sink::split;

/// A block that becomes code.
#[derive(Drop)]
pub struct Prepared {
    /// The block.
    pub block: Block,
    /// The two parts of its lines.
    pub split: Split,
    /// The places of its lines.
    pub places: Vec<Option<Place>>,
}

/// Chooses what becomes code of a key's block. An error comes for want of memory.
pub fn prepare(alloc: Global, exe: &Exe, key: &BlockKey) -> Result<Prepared, AllocError>
    requires guest { IsGuest exe.now }
    requires code { IsTrue (is_exec key.now.start exe.now.segments) }
    ensures choice { IfOk result (λ p. choice_in p ≡ choice_of exe.now key.now) }
    ensures prepared { IfOk result IsPrepared }
{
    splits_are_closed();
    lines_placed();
    places_lie();
    let block = ready(alloc, exe, key.start)?;
    let split = split(alloc, &block, key)?;
    let places = place(alloc, &block, &split)?;
    Ok(Prepared {
        block,
        split,
        places,
    })
}
