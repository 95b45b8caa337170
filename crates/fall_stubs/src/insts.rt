//! The instructions of the exchange (SDM volume 2). Each has an encoding.
ghost use Rattle.std.specs.Prelude.{◌≡◌, ◌<◌, IsTrue};
ghost use Rattle.ia_inst.specs.Canonical.{valid_of};
ghost use Rattle.par_moves.specs.declared.locations.TheConstants.{SLOTS};
ghost use Rattle.fall_stubs.specs.Exchange.{slot_from_reg, reg_from_slot, flag_to_slot, shift_left, or_reg, test_eax, add_to_al};

use ia_inst::{Count, Inst, Rm, ShiftOp, Src, Width};
use par_moves::{MoveSource, Place, operand, source};

/// MOV of a register to a slot.
pub fn store(slot: u32, register: u8) -> Inst
    requires slot { slot < SLOTS }
    requires register { register < 8 }
    ensures value { result ≡ slot_from_reg slot register }
    ensures valid { IsTrue (valid_of result) }
{
    Inst::Mov {
        w: Width::B32,
        dst: operand(Place::Slot(slot)),
        src: Src::Rm(Rm::Reg(register)),
    }
}

/// MOV of a slot to a register.
pub fn load(register: u8, slot: u32) -> Inst
    requires slot { slot < SLOTS }
    requires register { register < 8 }
    ensures value { result ≡ reg_from_slot register slot }
    ensures valid { IsTrue (valid_of result) }
{
    Inst::Mov {
        w: Width::B32,
        dst: Rm::Reg(register),
        src: source(MoveSource::Place(Place::Slot(slot))),
    }
}

/// SETcc of the low byte of a slot.
pub fn store_flag(slot: u32, cond: u8) -> Inst
    requires slot { slot < SLOTS }
    requires cond { cond < 16 }
    ensures value { result ≡ flag_to_slot slot cond }
    ensures valid { IsTrue (valid_of result) }
{
    Inst::Setcc {
        cond,
        dst: operand(Place::Slot(slot)),
    }
}

/// SHL of a register by a count.
pub fn shift(register: u8, count: u8) -> Inst
    requires { register < 8 }
    ensures value { result ≡ shift_left register count }
    ensures valid { IsTrue (valid_of result) }
{
    Inst::Shift {
        op: ShiftOp::Shl,
        w: Width::B32,
        dst: Rm::Reg(register),
        count: Count::Imm(count),
    }
}

/// OR of ecx to eax.
pub fn gather() -> Inst
    ensures value { result ≡ or_reg }
    ensures valid { IsTrue (valid_of result) }
{
    Inst::Alu {
        op: 1,
        w: Width::B32,
        dst: Rm::Reg(0),
        src: Src::Rm(Rm::Reg(1)),
    }
}

/// TEST of eax with itself.
pub fn test() -> Inst
    ensures value { result ≡ test_eax }
    ensures valid { IsTrue (valid_of result) }
{
    Inst::Test {
        w: Width::B32,
        dst: Rm::Reg(0),
        src: Src::Rm(Rm::Reg(0)),
    }
}

/// ADD of 7F to al: it sets OF to what al was, 0 or 1.
pub fn overflow() -> Inst
    ensures value { result ≡ add_to_al }
    ensures valid { IsTrue (valid_of result) }
{
    Inst::Alu {
        op: 0,
        w: Width::B8,
        dst: Rm::Reg(0),
        src: Src::Imm(0x7F),
    }
}
