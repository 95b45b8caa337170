//! The code behind a block's lines, by its exit.
ghost use Rattle.std.specs.Prelude.{◌≡◌, ◌+◌, ◌≤◌, ◌++◌, IsTrue, OnOk, length};
ghost use Rattle.elf_read.specs.Elf.{IsGuest, is_exec};
ghost use Rattle.par_moves.specs.Homes.{register_homes};
ghost use Rattle.fall_stubs.specs.Exchange.{island_items};
ghost use Rattle.br_word.specs.declared.types.Width.TheVariants.{B32};
ghost use Rattle.ia_inst.specs.declared.inst.Inst.TheVariants.{Alu};
ghost use Rattle.ia_inst.specs.declared.inst.Src.TheVariants as src;
ghost use Rattle.ia_inst.specs.Canonical.{valid_of};
ghost use Rattle.emit_ops.specs.Templates.{eax};
ghost use Rattle.block_make.specs.declared.fragment.TheConstants.{MAX_EXITS};
ghost use Rattle.ssa_form.specs.declared.form.Exit.TheVariants as exits;
ghost use Rattle.lift_flow.specs.LiftedBlock.{lift_of};
ghost use Rattle.block_make.specs.Choices.{choice_of};
ghost use Rattle.block_make.specs.FragmentItems.{tail_items, regain_items, stub_items, part_items, cond_items, aim_items, compare_items, tails_items, way_stub_items, own_bytes, dest_of, exit_items, items_of};
ghost use Rattle.block_make.specs.Keys.{live_at, IsKey};
ghost use Rattle.block_make.specs.Prepared.{choice_in, IsFound, IsPrepared};

use crate::fragment::JUMP_SLOT;
use crate::lines::emit_lines;
use crate::moves::{Live, emit_moves, source};
use crate::prepared::Prepared;
use block_cut::one_block;
use elf_read::Exe;
use emit_ops::emit_move;
use fall_stubs::{island, restore, spill};
use ia_encode::{Dest, Item, Piece};
use ia_inst::{Inst, Rm, Src, Width};
use lift_flow::instruction_at;
use par_moves::{MoveSource, Place, PlaceMove, operand};
use ssa_form::{BlockKey, Exit, Val};
use std::alloc::{AllocError, Global};

/// The live set of an address, where it is a known exit.
fn live_at(exits: &[(u32, u16)], address: u32) -> Option<u16>
    ensures { result ≡ live_at exits.now address }
{
    for (known, live) in exits {
        if *known == address {
            return Some(*live);
        }
    }
    None
}

/// The way to a known block.
fn tail(
    alloc: Global,
    p: &mut Piece,
    of: &Prepared,
    live: u16,
    address: u32,
) -> Result<(), AllocError>
    requires { IsPrepared of.now }
    ensures { OnOk result (p.new ≡ p.old ++ tail_items (choice_in of.now) live address) }
{
    emit_moves(alloc, p, of, Live::Of(live))?;
    p.jump(None, Dest::Block(address))
}

/// The state of the original, in its registers.
fn regain(alloc: Global, p: &mut Piece, of: &Prepared, label: u32) -> Result<(), AllocError>
    requires { IsPrepared of.now }
    ensures { OnOk result (p.new ≡ p.old ++ regain_items (choice_in of.now) label) }
{
    emit_lines(p, of, of.split.sunk.as_slice())?;
    emit_moves(alloc, p, of, Live::All)?;
    spill(p)?;
    restore(p, label)
}

/// The side exit to an address of the original.
fn stub(
    alloc: Global,
    p: &mut Piece,
    of: &Prepared,
    label: u32,
    address: u32,
) -> Result<(), AllocError>
    requires { IsPrepared of.now }
    ensures { OnOk result (p.new ≡ p.old ++ stub_items (choice_in of.now) label address) }
{
    regain(alloc, p, of, label)?;
    p.jump(None, Dest::Original(address))
}

/// The way to an address: to its block where it is a known exit, else to the original.
fn part(
    alloc: Global,
    p: &mut Piece,
    of: &Prepared,
    exits: &[(u32, u16)],
    label: u32,
    address: u32,
) -> Result<(), AllocError>
    requires { IsPrepared of.now }
    ensures { OnOk result (p.new ≡ p.old ++ part_items (choice_in of.now) label address (live_at exits.now address)) }
{
    match live_at(exits, address) {
        Some(live) => tail(alloc, p, of, live, address),
        None => stub(alloc, p, of, label, address),
    }
}

/// The value of the block to eax.
fn aim(p: &mut Piece, of: &Prepared, value: Val) -> Result<(), AllocError>
    requires prepared { IsPrepared of.now }
    requires named { IsFound of.now.places.items value }
    ensures { OnOk result (p.new ≡ p.old ++ aim_items (choice_in of.now) value) }
{
    emit_move(
        p,
        &PlaceMove {
            to: Place::Reg(0),
            from: source(of.places.as_slice(), value),
        },
    )
}

/// One of two ways: to the second address where the test is 0, else to the first.
fn either(
    alloc: Global,
    p: &mut Piece,
    of: &Prepared,
    exits: &[(u32, u16)],
    test: Val,
    taken: u32,
    next: u32,
) -> Result<(), AllocError>
    requires prepared { IsPrepared of.now }
    requires named { IsFound of.now.places.items test }
    ensures { OnOk result (p.new ≡ p.old ++ cond_items (choice_in of.now) test
        (part_items (choice_in of.now) 0 next (live_at exits.now next))
        (part_items (choice_in of.now) 1 taken (live_at exits.now taken))) }
{
    aim(p, of, test)?;
    p.put(&Inst::Test {
        w: Width::B32,
        dst: Rm::Reg(0),
        src: Src::Rm(Rm::Reg(0)),
    })?;
    p.jump(Some(5), Dest::Label(2))?;
    part(alloc, p, of, exits, 0, next)?;
    p.label(2)?;
    part(alloc, p, of, exits, 1, taken)
}

/// CMP of eax with a number.
fn comparison(number: u32) -> Inst
    ensures value { result ≡ Alu 7 B32 eax (src.Imm number) }
    ensures valid { IsTrue (valid_of result) }
{
    Inst::Alu {
        op: 7,
        w: Width::B32,
        dst: Rm::Reg(0),
        src: Src::Imm(number),
    }
}

/// The comparisons of an indirect exit's target with its known exits.
fn compare(p: &mut Piece, exits: &[(u32, u16)]) -> Result<(), AllocError>
    requires { length exits.now ≤ MAX_EXITS }
    ensures { OnOk result (p.new ≡ p.old ++ compare_items 1 exits.now) }
{
    for index in 0..exits.len() {
        p.append(&[
            Item::Inst(comparison(exits[index].0)),
            Item::Jump {
                cond: Some(4),
                to: Dest::Label(index as u32 + 1),
            },
        ])?;
    }
    Ok(())
}

/// The ways of an indirect exit to its known exits.
fn tails(
    alloc: Global,
    p: &mut Piece,
    of: &Prepared,
    exits: &[(u32, u16)],
) -> Result<(), AllocError>
    requires prepared { IsPrepared of.now }
    requires few { length exits.now ≤ MAX_EXITS }
    ensures { OnOk result (p.new ≡ p.old ++ tails_items (choice_in of.now) 1 exits.now) }
{
    for index in 0..exits.len() {
        let (address, live) = exits[index];
        p.label(index as u32 + 1)?;
        tail(alloc, p, of, live, address)?;
    }
    Ok(())
}

/// The side exit of an indirect exit.
fn way_stub(alloc: Global, p: &mut Piece, of: &Prepared, target: Val) -> Result<(), AllocError>
    requires prepared { IsPrepared of.now }
    requires named { IsFound of.now.places.items target }
    ensures { OnOk result (p.new ≡ p.old ++ way_stub_items (choice_in of.now) target) }
{
    aim(p, of, target)?;
    emit_move(
        p,
        &PlaceMove {
            to: Place::Slot(JUMP_SLOT),
            from: MoveSource::Place(Place::Reg(0)),
        },
    )?;
    regain(alloc, p, of, 0)?;
    p.put(&Inst::JmpRm {
        target: operand(Place::Slot(JUMP_SLOT)),
    })
}

/// An indirect exit.
fn way(
    alloc: Global,
    p: &mut Piece,
    of: &Prepared,
    exits: &[(u32, u16)],
    target: Val,
) -> Result<(), AllocError>
    requires prepared { IsPrepared of.now }
    requires few { length exits.now ≤ MAX_EXITS }
    requires named { IsFound of.now.places.items target }
    ensures { OnOk result (p.new ≡ p.old ++ (aim_items (choice_in of.now) target ++ (compare_items 1 exits.now
        ++ (way_stub_items (choice_in of.now) target ++ tails_items (choice_in of.now) 1 exits.now)))) }
{
    aim(p, of, target)?;
    compare(p, exits)?;
    way_stub(alloc, p, of, target)?;
    tails(alloc, p, of, exits)
}

/// A native instruction: the block of the key is one, of `len` bytes.
fn native(p: &mut Piece, exe: &Exe, key: &BlockKey, len: u8) -> Result<(), AllocError>
    requires guest { IsGuest exe.now }
    requires native { (lift_of exe.now key.now.start).exit ≡ exits.Island len }
    ensures { OnOk result (p.new ≡ p.old ++ island_items register_homes (own_bytes exe.now key.now.start len) 0
        (dest_of (key.now.start + len) (live_at key.now.exits (key.now.start + len)))) }
{
    one_block();
    let Some(own) = instruction_at(exe, key.start) else {
        return Ok(());
    };
    let behind = key.start + own.len as u32;
    let next = match live_at(key.exits.as_slice(), behind) {
        Some(_) => Dest::Block(behind),
        None => Dest::Original(behind),
    };
    island(p, &own.bytes[..own.len as usize], next, 0)
}

/// Appends the code of the exit of a key's block. An error comes for want of memory.
pub fn emit_exit(
    alloc: Global,
    p: &mut Piece,
    exe: &Exe,
    key: &BlockKey,
    of: &Prepared,
) -> Result<(), AllocError>
    requires guest { IsGuest exe.now }
    requires code { IsTrue (is_exec key.now.start exe.now.segments) }
    requires few { length key.now.exits ≤ MAX_EXITS }
    requires prepared { IsPrepared of.now }
    requires choice { choice_in of.now ≡ choice_of exe.now key.now }
    ensures { OnOk result (p.new ≡ p.old ++ exit_items exe.now key.now (choice_in of.now) of.now.block.exit) }
{
    let exits = key.exits.as_slice();
    match of.block.exit {
        Exit::Jump(to) => part(alloc, p, of, exits, 0, to),
        Exit::Cond { test, taken, next } => { either(alloc, p, of, exits, test, taken, next) },
        Exit::Way(target) => way(alloc, p, of, exits, target),
        Exit::Island { len } => native(p, exe, key, len),
    }
}
