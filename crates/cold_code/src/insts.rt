//! The instructions of copies and the dispatcher (SDM volume 2). Each has an encoding.
ghost use Rattle.std.specs.Prelude.{◌≡◌, ◌<◌, IsTrue, Some, None};
ghost use Rattle.br_word.specs.declared.types.Width.TheVariants.{B32};
ghost use Rattle.ia_inst.specs.declared.inst.Rm.TheVariants as rm;
ghost use Rattle.ia_inst.specs.declared.inst.Src.TheVariants as src;
ghost use Rattle.ia_inst.specs.declared.inst.Inst.TheVariants.{Alu, Mov, Push, Pop, Lea, JmpRm};
ghost use Rattle.ia_inst.specs.Canonical.{valid_of, address_valid};
ghost use Rattle.par_moves.specs.declared.locations.TheConstants.{SLOTS};
ghost use Rattle.par_moves.specs.declared.locations.Place.TheVariants.{Slot};
ghost use Rattle.par_moves.specs.Locations.{rm_of};
ghost use Rattle.fall_stubs.specs.Exchange.{slot_from_reg, reg_from_slot};

use ia_inst::{Addr, Inst, Rm, Src, Width};
use par_moves::{MoveSource, Place, operand, source};

/// The slot of the address to which the dispatcher leads on.
pub const JUMP_SLOT: u32 = 15;

/// MOV of a register to a slot.
pub fn store(slot: u32, register: u8) -> Inst
    requires slot { slot < SLOTS }
    requires register { register < 8 }
    ensures value { result ≡ slot_from_reg slot register }
    ensures valid { IsTrue (valid_of result) }
{
    Inst::Mov {
        w: Width::B32,
        dst: operand(Place::Slot(slot)),
        src: Src::Rm(Rm::Reg(register)),
    }
}

/// MOV of a slot to a register.
pub fn load(register: u8, slot: u32) -> Inst
    requires slot { slot < SLOTS }
    requires register { register < 8 }
    ensures value { result ≡ reg_from_slot register slot }
    ensures valid { IsTrue (valid_of result) }
{
    Inst::Mov {
        w: Width::B32,
        dst: Rm::Reg(register),
        src: source(MoveSource::Place(Place::Slot(slot))),
    }
}

/// MOV of a number to a slot.
pub fn store_number(slot: u32, number: u32) -> Inst
    requires { slot < SLOTS }
    ensures value { result ≡ Mov B32 (rm_of (Slot slot)) (src.Imm number) }
    ensures valid { IsTrue (valid_of result) }
{
    Inst::Mov {
        w: Width::B32,
        dst: operand(Place::Slot(slot)),
        src: Src::Imm(number),
    }
}

/// MOV of four bytes of memory to eax.
pub fn load_memory(address: Addr) -> Inst
    requires { IsTrue (address_valid address) }
    ensures value { result ≡ Mov B32 (rm.Reg 0) (src.Rm (rm.Mem address)) }
    ensures valid { IsTrue (valid_of result) }
{
    Inst::Mov {
        w: Width::B32,
        dst: Rm::Reg(0),
        src: Src::Rm(Rm::Mem(address)),
    }
}

/// PUSH of a number.
pub fn push(number: u32) -> Inst
    ensures value { result ≡ Push (src.Imm number) }
    ensures valid { IsTrue (valid_of result) }
{
    Inst::Push {
        src: Src::Imm(number),
    }
}

/// POP to slot 15.
pub fn pop() -> Inst
    ensures value { result ≡ Pop (rm_of (Slot 15)) }
    ensures valid { IsTrue (valid_of result) }
{
    Inst::Pop {
        dst: operand(Place::Slot(JUMP_SLOT)),
    }
}

/// LEA of esp and a number to esp.
pub fn raise(number: u32) -> Inst
    ensures value { result ≡ Lea B32 4 (record { base = Some 4; index = None; disp = number }) }
    ensures valid { IsTrue (valid_of result) }
{
    Inst::Lea {
        w: Width::B32,
        dst: 4,
        addr: Addr {
            base: Some(4),
            index: None,
            disp: number,
        },
    }
}

/// CMP of eax with a number.
pub fn comparison(number: u32) -> Inst
    ensures value { result ≡ Alu 7 B32 (rm.Reg 0) (src.Imm number) }
    ensures valid { IsTrue (valid_of result) }
{
    Inst::Alu {
        op: 7,
        w: Width::B32,
        dst: Rm::Reg(0),
        src: Src::Imm(number),
    }
}

/// JMP to the address in slot 15.
pub fn leave() -> Inst
    ensures value { result ≡ JmpRm (rm_of (Slot 15)) }
    ensures valid { IsTrue (valid_of result) }
{
    Inst::JmpRm {
        target: operand(Place::Slot(JUMP_SLOT)),
    }
}
