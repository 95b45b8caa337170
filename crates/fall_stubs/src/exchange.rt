//! The sequences of the exchange.
ghost use Rattle.std.specs.Prelude.{◌≡◌, ◌++◌, ◌∷◌, [], ◌<◌, OnOk, OnErr, map};
ghost use Rattle.ia_encode.specs.declared.item.Item.TheVariants as item;
ghost use Rattle.par_moves.specs.declared.locations.TheConstants.{SLOTS};
ghost use Rattle.par_moves.specs.Homes.{register_homes};
ghost use Rattle.fall_stubs.specs.Exchange.{low_stores, high_stores, flag_stores, capture_items, spill_items, direction_items, joined, joined_flags, restore_flags, low_loads, high_loads, restore_items, island_items, Grew};

use crate::homes::{load_homes, store_homes};
use crate::insts::{gather, load, overflow, shift, store, store_flag, test};
use ia_encode::{Dest, Item, Piece};
use ia_inst::Inst;
use std::alloc::AllocError;

/// Registers 0 to 3 to their slots.
fn store_low(p: &mut Piece) -> Result<(), AllocError>
    ensures ok { OnOk result (p.new ≡ p.old ++ map item.Inst low_stores) }
    ensures err { OnErr result (p.new ≡ p.old) }
{
    p.append(&[
        Item::Inst(store(0, 0)),
        Item::Inst(store(1, 1)),
        Item::Inst(store(2, 2)),
        Item::Inst(store(3, 3)),
    ])
}

/// Registers 4 to 7 to their slots.
fn store_high(p: &mut Piece) -> Result<(), AllocError>
    ensures ok { OnOk result (p.new ≡ p.old ++ map item.Inst high_stores) }
    ensures err { OnErr result (p.new ≡ p.old) }
{
    p.append(&[
        Item::Inst(store(4, 4)),
        Item::Inst(store(5, 5)),
        Item::Inst(store(6, 6)),
        Item::Inst(store(7, 7)),
    ])
}

/// CF, PF, ZF, SF and OF to the low bytes of slots 8 to 12.
fn store_flags(p: &mut Piece) -> Result<(), AllocError>
    ensures ok { OnOk result (p.new ≡ p.old ++ map item.Inst flag_stores) }
    ensures err { OnErr result (p.new ≡ p.old) }
{
    p.append(&[
        Item::Inst(store_flag(8, 2)),
        Item::Inst(store_flag(9, 10)),
        Item::Inst(store_flag(10, 4)),
        Item::Inst(store_flag(11, 8)),
        Item::Inst(store_flag(12, 0)),
    ])
}

/// Appends CAPTURE: registers 0 to 7 go to slots 0 to 7, CF, PF, ZF, SF and OF to the low bytes of slots 8 to 12, and then the
/// virtual registers that live in registers are loaded from their slots.
///
/// An error comes for want of memory, and then a front part was appended.
pub fn capture(p: &mut Piece) -> Result<(), AllocError>
    ensures ok { OnOk result (p.new ≡ p.old ++ capture_items register_homes) }
    ensures err { OnErr result (Grew p.old p.new (capture_items register_homes)) }
{
    store_low(p)?;
    store_high(p)?;
    store_flags(p)?;
    load_homes(p)
}

/// Appends SPILL: the virtual registers that live in registers go to their slots.
///
/// An error comes for want of memory, and then the piece is as before.
pub fn spill(p: &mut Piece) -> Result<(), AllocError>
    ensures ok { OnOk result (p.new ≡ p.old ++ spill_items register_homes) }
    ensures err { OnErr result (p.new ≡ p.old) }
{
    store_homes(p)
}

/// DF from slot 13.
fn restore_direction(p: &mut Piece, label: u32) -> Result<(), AllocError>
    ensures ok { OnOk result (p.new ≡ p.old ++ direction_items label) }
    ensures err { OnErr result (p.new ≡ p.old) }
{
    p.append(&[
        Item::Inst(Inst::Cld),
        Item::Inst(load(0, 13)),
        Item::Inst(test()),
        Item::Jump {
            cond: Some(4),
            to: Dest::Label(label),
        },
        Item::Inst(Inst::Std),
        Item::Label(label),
    ])
}

/// The bit of a flag, from its slot, joins those in eax at a place.
fn join(p: &mut Piece, slot: u32, count: u8) -> Result<(), AllocError>
    requires { slot < SLOTS }
    ensures ok { OnOk result (p.new ≡ p.old ++ map item.Inst (joined slot count)) }
    ensures err { OnErr result (p.new ≡ p.old) }
{
    p.append(&[
        Item::Inst(load(1, slot)),
        Item::Inst(shift(1, count)),
        Item::Inst(gather()),
    ])
}

/// CF, PF, ZF and SF as SAHF takes them, in al.
fn join_flags(p: &mut Piece) -> Result<(), AllocError>
    ensures ok { OnOk result (p.new ≡ p.old ++ map item.Inst joined_flags) }
    ensures err { OnErr result (Grew p.old p.new (map item.Inst joined_flags)) }
{
    p.append(&[Item::Inst(load(0, 8))])?;
    join(p, 9, 2)?;
    join(p, 10, 6)?;
    join(p, 11, 7)
}

/// The flags, from al and slot 12: they go to ah, OF's bit to al, the sum sets OF to it, and SAHF the others.
fn set_flags(p: &mut Piece) -> Result<(), AllocError>
    ensures ok { OnOk result (p.new ≡ p.old ++ map item.Inst restore_flags) }
    ensures err { OnErr result (p.new ≡ p.old) }
{
    p.append(&[
        Item::Inst(shift(0, 8)),
        Item::Inst(load(1, 12)),
        Item::Inst(gather()),
        Item::Inst(overflow()),
        Item::Inst(Inst::Sahf),
    ])
}

/// Registers 1 to 4 from their slots.
fn load_low(p: &mut Piece) -> Result<(), AllocError>
    ensures ok { OnOk result (p.new ≡ p.old ++ map item.Inst low_loads) }
    ensures err { OnErr result (p.new ≡ p.old) }
{
    p.append(&[
        Item::Inst(load(1, 1)),
        Item::Inst(load(2, 2)),
        Item::Inst(load(3, 3)),
        Item::Inst(load(4, 4)),
    ])
}

/// Registers 5 to 7 and then 0 from their slots.
fn load_high(p: &mut Piece) -> Result<(), AllocError>
    ensures ok { OnOk result (p.new ≡ p.old ++ map item.Inst high_loads) }
    ensures err { OnErr result (p.new ≡ p.old) }
{
    p.append(&[
        Item::Inst(load(5, 5)),
        Item::Inst(load(6, 6)),
        Item::Inst(load(7, 7)),
        Item::Inst(load(0, 0)),
    ])
}

/// Appends RESTORE: DF, the flags and the registers take what slots 13, 8 to 12 and 0 to 7 hold. `label` is a name that the piece does
/// not use otherwise.
///
/// An error comes for want of memory, and then a front part was appended.
pub fn restore(p: &mut Piece, label: u32) -> Result<(), AllocError>
    ensures ok { OnOk result (p.new ≡ p.old ++ restore_items label) }
    ensures err { OnErr result (Grew p.old p.new (restore_items label)) }
{
    restore_direction(p, label)?;
    join_flags(p)?;
    set_flags(p)?;
    load_low(p)?;
    load_high(p)
}

/// Appends a native instruction between the two exchanges: SPILL, RESTORE, its own bytes, CAPTURE, and a jump to what comes next.
/// `label` is as for `restore`.
///
/// An error comes for want of memory, and then a front part was appended.
pub fn island(p: &mut Piece, bytes: &[u8], next: Dest, label: u32) -> Result<(), AllocError>
    ensures ok { OnOk result (p.new ≡ p.old ++ island_items register_homes bytes.now label next) }
    ensures err { OnErr result (Grew p.old p.new (island_items register_homes bytes.now label next)) }
{
    spill(p)?;
    restore(p, label)?;
    p.put_bytes(bytes)?;
    capture(p)?;
    p.jump(None, next)
}
