//! The code of moves.
ghost use Rattle.std.specs.Prelude.{◌≡◌, ◌++◌, OnOk, OnErr, map};
ghost use Rattle.ia_encode.specs.declared.item.Item.TheVariants as item;
ghost use Rattle.par_moves.specs.Locations.{InRange, IsFit};
ghost use Rattle.emit_ops.specs.Templates.{move_code};

use crate::insts::{load, store, store_number};
use ia_encode::{Item, Piece};
use par_moves::{MoveSource, Place, PlaceMove};
use std::alloc::AllocError;

/// Appends the code of a move: one MOV to a register, of a register or of a number, and two by eax from slot to slot.
///
/// An error comes for want of memory, and then the piece is as before.
pub fn emit_move(p: &mut Piece, m: &PlaceMove) -> Result<(), AllocError>
    requires to { InRange m.now.to }
    requires from { IsFit m.now.from }
    ensures ok { OnOk result (p.new ≡ p.old ++ map item.Inst (move_code m.now.to m.now.from)) }
    ensures err { OnErr result (p.new ≡ p.old) }
{
    match (m.to, m.from) {
        (Place::Reg(register), from) => p.append(&[Item::Inst(load(register, from))]),
        (to, MoveSource::Num(number)) => p.append(&[Item::Inst(store_number(to, number))]),
        (to, MoveSource::Place(Place::Reg(register))) => p.append(&[Item::Inst(store(
            to, register,
        ))]),
        (to, from) => p.append(&[Item::Inst(load(0, from)), Item::Inst(store(to, 0))]),
    }
}
