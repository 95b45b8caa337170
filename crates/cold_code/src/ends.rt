//! How copies go on.
ghost use Rattle.std.specs.Prelude.{◌≡◌, ◌++◌, ◌∷◌, ◌<◌, IsTrue, OnOk, OnErr};
ghost use Rattle.ia_inst.specs.Canonical.{valid_of, rm_valid};
ghost use Rattle.par_moves.specs.Homes.{register_homes};
ghost use Rattle.fall_stubs.specs.Exchange.{closing_items, Grew};
ghost use Rattle.cold_code.specs.Copies.{part, aim, push_next, pop_more, pop_to_slot, either_items, end_by};
ghost use Rattle.cold_code.specs.Around.{named, around, AreAscending};

use crate::insts::{JUMP_SLOT, load, load_memory, pop, push, raise, store};
use crate::members::{Naming, Starts, is_member, named};
use fall_stubs::capture;
use ia_encode::{Dest, Item, Piece};
use ia_inst::{Inst, Rm};
use par_moves::SPARE;
use std::alloc::AllocError;

/// What names the dispatcher.
pub const DISPATCHER: u32 = 0;

/// The state is captured, and this is next.
fn close(p: &mut Piece, next: Dest) -> Result<(), AllocError>
    ensures ok { OnOk result (p.new ≡ p.old ++ closing_items register_homes next) }
    ensures err { OnErr result (Grew p.old p.new (closing_items register_homes next)) }
{
    capture(p)?;
    p.jump(None, next)
}

/// The way to an address: to its block, to its copy, or to the original.
pub fn part(p: &mut Piece, starts: &Starts, address: u32) -> Result<(), AllocError>
    requires { AreAscending starts.now }
    ensures ok { OnOk result (p.new ≡ p.old ++ part (around starts.now) address) }
    ensures err { OnErr result (Grew p.old p.new (part (around starts.now) address)) }
{
    if is_member(starts.blocks, address) {
        close(p, Dest::Block(address))
    } else if is_member(starts.copies, address) {
        p.jump(None, named(starts.naming, address))
    } else {
        p.jump(None, Dest::Original(address))
    }
}

/// The target of an indirect jump or call to slot 15.
fn aim(p: &mut Piece, target: Rm) -> Result<(), AllocError>
    requires { IsTrue (rm_valid target) }
    ensures ok { OnOk result (p.new ≡ p.old ++ aim target) }
    ensures err { OnErr result (p.new ≡ p.old) }
{
    match target {
        Rm::Reg(register) => p.put(&store(JUMP_SLOT, register)),
        Rm::Mem(address) => p.append(&[
            Item::Inst(store(SPARE, 0)),
            Item::Inst(load_memory(address)),
            Item::Inst(store(JUMP_SLOT, 0)),
            Item::Inst(load(0, SPARE)),
        ]),
    }
}

/// A conditional jump.
fn either(p: &mut Piece, starts: &Starts, cond: u8, taken: u32, next: u32) -> Result<(), AllocError>
    requires starts { AreAscending starts.now }
    requires cond { cond < 16 }
    ensures ok { OnOk result (p.new ≡ p.old ++ either_items (around starts.now) cond taken next) }
    ensures err { OnErr result (Grew p.old p.new (either_items (around starts.now) cond taken next)) }
{
    p.jump(Some(cond), Dest::Label(1))?;
    part(p, starts, next)?;
    p.label(1)?;
    part(p, starts, taken)
}

/// A direct call.
fn call(p: &mut Piece, starts: &Starts, target: u32, next: u32) -> Result<(), AllocError>
    requires { AreAscending starts.now }
    ensures ok { OnOk result (p.new ≡ p.old ++ push_next next ∷ part (around starts.now) target) }
    ensures err { OnErr result (Grew p.old p.new (push_next next ∷ part (around starts.now) target)) }
{
    p.put(&push(next))?;
    part(p, starts, target)
}

/// An indirect call.
fn call_by(p: &mut Piece, naming: Naming, target: Rm, next: u32) -> Result<(), AllocError>
    requires { IsTrue (rm_valid target) }
    ensures ok { OnOk result (p.new ≡ p.old ++ (aim target ++ (push_next next ∷ closing_items register_homes (named naming 0)))) }
    ensures err { OnErr result (Grew p.old p.new (aim target ++ (push_next next ∷ closing_items register_homes (named naming 0)))) }
{
    aim(p, target)?;
    p.put(&push(next))?;
    close(p, named(naming, DISPATCHER))
}

/// An indirect jump.
fn jump_by(p: &mut Piece, naming: Naming, target: Rm) -> Result<(), AllocError>
    requires { IsTrue (rm_valid target) }
    ensures ok { OnOk result (p.new ≡ p.old ++ (aim target ++ closing_items register_homes (named naming 0))) }
    ensures err { OnErr result (Grew p.old p.new (aim target ++ closing_items register_homes (named naming 0))) }
{
    aim(p, target)?;
    close(p, named(naming, DISPATCHER))
}

/// What RET drops from the stack beside its address.
fn drop_more(p: &mut Piece, count: u16) -> Result<(), AllocError>
    ensures ok { OnOk result (p.new ≡ p.old ++ pop_more count) }
    ensures err { OnErr result (p.new ≡ p.old) }
{
    if count > 0 {
        p.put(&raise(count as u32))?;
    }
    Ok(())
}

/// A return.
fn give_back(p: &mut Piece, naming: Naming, count: u16) -> Result<(), AllocError>
    ensures ok { OnOk result (p.new ≡ p.old ++ pop_to_slot ∷ (pop_more count ++ closing_items register_homes (named naming 0))) }
    ensures err { OnErr result (Grew p.old p.new (pop_to_slot ∷ (pop_more count ++ closing_items register_homes (named naming 0)))) }
{
    p.put(&pop())?;
    drop_more(p, count)?;
    close(p, named(naming, DISPATCHER))
}

/// What does the same as a transfer and leads on, with the address behind it.
pub fn put_end(p: &mut Piece, starts: &Starts, inst: &Inst, next: u32) -> Result<(), AllocError>
    requires starts { AreAscending starts.now }
    requires valid { IsTrue (valid_of inst.now) }
    ensures ok { OnOk result (p.new ≡ p.old ++ end_by (around starts.now) inst.now next) }
    ensures err { OnErr result (Grew p.old p.new (end_by (around starts.now) inst.now next)) }
{
    match *inst {
        Inst::Jcc { cond, rel } => either(p, starts, cond, next.wrapping_add(rel), next),
        Inst::Jmp { rel } => part(p, starts, next.wrapping_add(rel)),
        Inst::Call { rel } => call(p, starts, next.wrapping_add(rel), next),
        Inst::JmpRm { target } => jump_by(p, starts.naming, target),
        Inst::CallRm { target } => call_by(p, starts.naming, target, next),
        Inst::Ret { pop } => give_back(p, starts.naming, pop),
        _ => Ok(()),
    }
}
