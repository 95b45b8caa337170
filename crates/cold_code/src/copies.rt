//! Copies of cold blocks.
ghost use Rattle.std.specs.Prelude.{◌≡◌, ◌++◌, ◌≤◌, OnOk, OnErr, map, take};
ghost use Rattle.std.specs.List.Sorted.{IsStrictlyIncreasing};
ghost use Rattle.elf_read.specs.Elf.{IsGuest};
ghost use Rattle.ia_encode.specs.declared.item.Item.TheVariants as item;
ghost use Rattle.fall_stubs.specs.Exchange.{Grew};
ghost use Rattle.cold_code.specs.Linkable.{AreLinkable};
ghost use Rattle.cold_code.specs.Copies.{by_blocks, df_items, copy_of, copy_items};
ghost use Rattle.cold_code.specs.Around.{around, AreAscending};

use crate::ends::{part, put_end};
use crate::insts::store_number;
use crate::members::{Naming, Starts};
use block_cut::{Spelled, instruction_at};
use cold_cut::MAX_COPIED;
use elf_read::Exe;
use ia_encode::{Dest, Piece};
use ia_inst::{Inst, Kind, kind};
use std::alloc::AllocError;

/// The slot that stands for DF.
const DIRECTION: u32 = 13;

/// Behind CLD and STD their slot is set too.
fn put_direction(p: &mut Piece, inst: &Inst) -> Result<(), AllocError>
    ensures ok { OnOk result (p.new ≡ p.old ++ df_items inst.now) }
    ensures err { OnErr result (p.new ≡ p.old) }
{
    match *inst {
        Inst::Cld => p.put(&store_number(DIRECTION, 0)),
        Inst::Std => p.put(&store_number(DIRECTION, 1)),
        _ => Ok(()),
    }
}

/// The own bytes of an instruction, and what stands behind them.
fn put_own(p: &mut Piece, own: &Spelled) -> Result<(), AllocError>
    requires { own.now.len ≤ 15 }
    ensures ok { OnOk result (p.new ≡ p.old ++ (map item.Byte (take own.now.len own.now.bytes) ++ df_items own.now.inst)) }
    ensures err { OnErr result (Grew p.old p.new (map item.Byte (take own.now.len own.now.bytes) ++ df_items own.now.inst)) }
{
    p.put_bytes(&own.bytes[..own.len as usize])?;
    put_direction(p, &own.inst)
}

/// The copy of the cold block of a start.
fn put_copy(p: &mut Piece, exe: &Exe, start: u32, starts: &Starts) -> Result<(), AllocError>
    requires guest { IsGuest exe.now }
    requires starts { AreAscending starts.now }
    ensures ok { OnOk result (p.new ≡ p.old ++ copy_of exe.now (around starts.now) start) }
    ensures err { OnErr result (Grew p.old p.new (copy_of exe.now (around starts.now) start)) }
    ensures linkable { OnOk result (AreLinkable (copy_of exe.now (around starts.now) start) 2048) }
{
    let mut at = start;
    let mut count = 0;
    while count < MAX_COPIED {
        let Some(here) = instruction_at(exe, at) else {
            return p.jump(None, Dest::Original(at));
        };
        let next = at + here.len as u32;
        match kind(&here.inst) {
            Kind::Plain | Kind::Island => put_own(p, &here)?,
            Kind::Transfer => return put_end(p, starts, &here.inst, next),
        }
        at = next;
        count += 1;
    }
    part(p, starts, at)
}

/// Appends the copy of the cold block of a start, beside ascending lists of the starts of blocks and of copies. It begins with the
/// label of the start. A jump to another copy is one to the label of its start, and one to the dispatcher is to the label 0; its own
/// label is 1.
///
/// The copy is the own bytes of the instructions but the transfer, where the slot of DF is set behind CLD and STD, and then: of a
/// conditional jump a jump to the second of the ways to the address behind it and to its target; of a jump the way to its target; of
/// a call the push of the address behind it, and then the way; of an indirect transfer its target to slot 15, of a call also that
/// push, of a return also what it drops, the capture of the state, and a jump to the dispatcher; behind unreadable bytes a jump to
/// the original there; behind 64 instructions the way to the address there. The way to an address is the capture of the state and a
/// jump to its block, where one starts there, a jump to its copy, where one is made, or else a jump to the original.
///
/// An error comes for want of memory, and then a front part was appended.
pub fn copy(
    p: &mut Piece,
    exe: &Exe,
    start: u32,
    starts: &[u32],
    cold: &[u32],
) -> Result<(), AllocError>
    requires guest { IsGuest exe.now }
    requires starts { IsStrictlyIncreasing starts.now }
    requires cold { IsStrictlyIncreasing cold.now }
    ensures ok { OnOk result (p.new ≡ p.old ++ copy_items exe.now starts.now cold.now start) }
    ensures err { OnErr result (Grew p.old p.new (copy_items exe.now starts.now cold.now start)) }
{
    let around = Starts {
        blocks: starts,
        copies: cold,
        naming: Naming::Labels,
    };
    p.label(start)?;
    put_copy(p, exe, start, &around)
}

/// Appends the copy of the cold block of a start, as `copy` does, for a piece of its own: it does not begin with the label of the start, a
/// jump to a copy is one to the block of its start, and one to the dispatcher is to the block 0. Its only label is 1.
///
/// An error comes for want of memory, and then a front part was appended.
pub fn linked_copy(
    p: &mut Piece,
    exe: &Exe,
    start: u32,
    starts: &[u32],
    cold: &[u32],
) -> Result<(), AllocError>
    requires guest { IsGuest exe.now }
    requires starts { IsStrictlyIncreasing starts.now }
    requires cold { IsStrictlyIncreasing cold.now }
    ensures ok { OnOk result (p.new ≡ p.old ++ copy_of exe.now (by_blocks starts.now cold.now) start) }
    ensures err { OnErr result (Grew p.old p.new (copy_of exe.now (by_blocks starts.now cold.now) start)) }
    ensures linkable { OnOk result (AreLinkable (copy_of exe.now (by_blocks starts.now cold.now) start) 2048) }
{
    let around = Starts {
        blocks: starts,
        copies: cold,
        naming: Naming::Blocks,
    };
    put_copy(p, exe, start, &around)
}
