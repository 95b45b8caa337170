//! Moves on the way out of a block.
ghost use Rattle.std.specs.Prelude.{◌≡◌, ◌<◌, ◌++◌, ◌&&◌, not, IfOk, OnOk};
ghost use Rattle.ssa_form.specs.declared.form.TheConstants.{REGISTERS};
ghost use Rattle.par_moves.specs.Homes.{home_of};
ghost use Rattle.par_moves.specs.Locations.{InRange, IsFit};
ghost use Rattle.emit_ops.specs.Templates.{held_by};
ghost use Rattle.emit_ops.specs.Placed.{place_at};
ghost use Rattle.emit_ops.specs.Sequences.{keeps_itself, live_moves};
ghost use Rattle.block_make.specs.Choices.{place_in};
ghost use Rattle.block_make.specs.FragmentItems.{moves_items};
ghost use Rattle.block_make.specs.Prepared.{choice_in, is_live, IsFound, IsPrepared};

use crate::prepared::Prepared;
use emit_ops::emit_move;
use ia_encode::Piece;
use par_moves::{MoveSource, Place, PlaceMove, sequence};
use reg_place::home;
use ssa_form::Val;
use std::alloc::{AllocError, Global};

/// Which virtual registers are live behind a block.
#[derive(Clone, Copy)]
pub enum Live {
    /// All.
    All,
    /// Those of a set: bit v of it is virtual register v.
    Of(u16),
}

/// Whether a virtual register is live.
fn is_live(live: Live, register: u8) -> bool
    requires { register < REGISTERS }
    ensures { result ≡ is_live live register }
{
    match live {
        Live::All => true,
        Live::Of(set) => (set >> register) % 2 == 1,
    }
}

/// Whether an out is what its register held before the block.
fn keeps_itself(register: u8, out: Val) -> bool
    ensures { result ≡ keeps_itself register out }
{
    matches!(out, Val::Param(param) if param == register)
}

/// Whether the home of a register takes its out.
fn is_moved(live: Live, register: u8, out: Val) -> bool
    requires { register < REGISTERS }
    ensures { result ≡ (is_live live register && not (keeps_itself register out)) }
{
    is_live(live, register) && !keeps_itself(register, out)
}

/// The place of a line, and slot 17 where it has none.
fn place_of(places: &[Option<Place>], index: u32) -> Place
    requires { InRange (place_at places.now index) }
    ensures value { result ≡ place_at places.now index }
    ensures fits { InRange result }
{
    match places.get(index as usize) {
        Some(Some(place)) => *place,
        _ => Place::Slot(17),
    }
}

/// Where a value is held.
pub fn source(places: &[Option<Place>], value: Val) -> MoveSource
    requires { IsFound places.now value }
    ensures value { result ≡ held_by home_of (place_at places.now) value }
    ensures fits { IsFit result }
{
    match value {
        Val::Param(register) => MoveSource::Place(home(register)),
        Val::Line(index) => MoveSource::Place(place_of(places, index)),
        Val::Num(number) => MoveSource::Num(number),
    }
}

/// The homes of live registers take their outs, ascending, but for those that keep their value. An error comes for want of memory.
fn live_moves(alloc: Global, of: &Prepared, live: Live) -> Result<Vec<PlaceMove>, AllocError>
    requires { IsPrepared of.now }
    ensures { IfOk result (λ v. v.items ≡ live_moves home_of (place_in (choice_in of.now)) (is_live live) 0 of.now.block.outs) }
{
    let mut moves = Vec::new(alloc);
    for register in 0..14 {
        let out = of.block.outs[register as usize];
        if is_moved(live, register, out) {
            moves.push(PlaceMove {
                to: home(register),
                from: source(of.places.as_slice(), out),
            })?;
        }
    }
    Ok(moves)
}

/// Appends the moves of live registers. An error comes for want of memory.
pub fn emit_moves(alloc: Global, p: &mut Piece, of: &Prepared, live: Live) -> Result<(), AllocError>
    requires { IsPrepared of.now }
    ensures { OnOk result (p.new ≡ p.old ++ moves_items (choice_in of.now) (is_live live)) }
{
    let moves = live_moves(alloc, of, live)?;
    let ordered = sequence(alloc, moves.as_slice())?;
    for index in 0..ordered.len() {
        emit_move(p, &ordered[index])?;
    }
    Ok(())
}
