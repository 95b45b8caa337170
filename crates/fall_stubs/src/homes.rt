//! The virtual registers that live in registers: esp in ebp, eax in ebx, ebp in esi.
ghost use Rattle.std.specs.Prelude.{◌≡◌, ◌++◌, OnOk, OnErr, map};
ghost use Rattle.ia_encode.specs.declared.item.Item.TheVariants as item;
ghost use Rattle.par_moves.specs.Homes.{register_homes};
ghost use Rattle.fall_stubs.specs.Exchange.{home_code, spill_items};

use crate::insts::{load, store};
use ia_encode::{Item, Piece};
use std::alloc::AllocError;

/// From their slots.
pub fn load_homes(p: &mut Piece) -> Result<(), AllocError>
    ensures ok { OnOk result (p.new ≡ p.old ++ map item.Inst (home_code register_homes)) }
    ensures err { OnErr result (p.new ≡ p.old) }
{
    p.append(&[
        Item::Inst(load(5, 4)),
        Item::Inst(load(3, 0)),
        Item::Inst(load(6, 5)),
    ])
}

/// To their slots.
pub fn store_homes(p: &mut Piece) -> Result<(), AllocError>
    ensures ok { OnOk result (p.new ≡ p.old ++ spill_items register_homes) }
    ensures err { OnErr result (p.new ≡ p.old) }
{
    p.append(&[
        Item::Inst(store(4, 5)),
        Item::Inst(store(0, 3)),
        Item::Inst(store(5, 6)),
    ])
}
