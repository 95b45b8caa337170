//! The instructions that templates are made of (SDM volume 2). Each has an encoding.
ghost use Rattle.std.specs.Prelude.{◌≡◌, ◌<◌, IsTrue};
ghost use Rattle.ia_inst.specs.Canonical.{valid_of};
ghost use Rattle.ia_inst.specs.declared.inst.Inst.TheVariants.{Alu, Setcc, Shift};
ghost use Rattle.ia_inst.specs.declared.inst.Count.TheVariants as count;
ghost use Rattle.br_word.specs.declared.types.Width.TheVariants.{B8, B16, B32};
ghost use Rattle.par_moves.specs.Locations.{src_of, InRange, IsFit};
ghost use Rattle.emit_ops.specs.Templates.{eax, by_eax, load_reg, keep, store_reg, store_num, load_inst, store_inst, test_low, test_all, clear_eax, signed_product, chosen, extended};

use ia_inst::{Addr, Count, Inst, Rm, ShiftOp, Src, Width};
use par_moves::{MoveSource, Place, operand, source};

const EAX: Rm = Rm::Reg(0);

const ECX: Rm = Rm::Reg(1);

/// MOV of a value to a register.
pub fn load(register: u8, from: MoveSource) -> Inst
    requires register { register < 8 }
    requires fit { IsFit from }
    ensures value { result ≡ load_reg register from }
    ensures valid { IsTrue (valid_of result) }
{
    Inst::Mov {
        w: Width::B32,
        dst: Rm::Reg(register),
        src: source(from),
    }
}

/// MOV of a register to a location.
pub fn store(to: Place, register: u8) -> Inst
    requires register { register < 8 }
    requires fit { InRange to }
    ensures value { result ≡ store_reg to register }
    ensures valid { IsTrue (valid_of result) }
{
    Inst::Mov {
        w: Width::B32,
        dst: operand(to),
        src: Src::Rm(Rm::Reg(register)),
    }
}

/// MOV of a number to a location.
pub fn store_number(to: Place, number: u32) -> Inst
    requires { InRange to }
    ensures value { result ≡ store_num to number }
    ensures valid { IsTrue (valid_of result) }
{
    Inst::Mov {
        w: Width::B32,
        dst: operand(to),
        src: Src::Imm(number),
    }
}

/// An operation on eax, by its number below 8 in the opcode: ADD 0, OR 1, AND 4, SUB 5, XOR 6, CMP 7.
pub fn operate(op: u8, from: MoveSource) -> Inst
    requires op { op < 8 }
    requires fit { IsFit from }
    ensures value { result ≡ Alu op B32 eax (src_of from) }
    ensures valid { IsTrue (valid_of result) }
{
    Inst::Alu {
        op,
        w: Width::B32,
        dst: EAX,
        src: source(from),
    }
}

/// A shift of eax by cl.
pub fn shift(op: ShiftOp) -> Inst
    ensures value { result ≡ Shift op B32 eax count.Cl }
    ensures valid { IsTrue (valid_of result) }
{
    Inst::Shift {
        op,
        w: Width::B32,
        dst: EAX,
        count: Count::Cl,
    }
}

/// IMUL of eax by ecx: OF says whether the signed product does not fit.
pub fn multiply() -> Inst
    ensures value { result ≡ signed_product }
    ensures valid { IsTrue (valid_of result) }
{
    Inst::Imul {
        dst: 0,
        src: ECX,
        by: None,
    }
}

/// MOV of 0 to eax, which keeps all flags.
pub fn clear() -> Inst
    ensures value { result ≡ clear_eax }
    ensures valid { IsTrue (valid_of result) }
{
    Inst::Mov {
        w: Width::B32,
        dst: EAX,
        src: Src::Imm(0),
    }
}

/// SETcc of al.
pub fn set(cond: u8) -> Inst
    requires { cond < 16 }
    ensures value { result ≡ Setcc cond eax }
    ensures valid { IsTrue (valid_of result) }
{
    Inst::Setcc { cond, dst: EAX }
}

/// TEST of al with itself.
pub fn test_byte() -> Inst
    ensures value { result ≡ test_low }
    ensures valid { IsTrue (valid_of result) }
{
    Inst::Test {
        w: Width::B8,
        dst: EAX,
        src: Src::Rm(EAX),
    }
}

/// TEST of eax with itself.
pub fn test_word() -> Inst
    ensures value { result ≡ test_all }
    ensures valid { IsTrue (valid_of result) }
{
    Inst::Test {
        w: Width::B32,
        dst: EAX,
        src: Src::Rm(EAX),
    }
}

/// CMOVNZ of ecx to eax.
pub fn choose() -> Inst
    ensures value { result ≡ chosen }
    ensures valid { IsTrue (valid_of result) }
{
    Inst::Cmov {
        cond: 5,
        dst: 0,
        src: ECX,
    }
}

/// MOVSX of al to eax.
pub fn extend_byte() -> Inst
    ensures value { result ≡ extended B8 }
    ensures valid { IsTrue (valid_of result) }
{
    Inst::Extend {
        signed: true,
        from: Width::B8,
        to: Width::B32,
        dst: 0,
        src: EAX,
    }
}

/// MOVSX of ax to eax.
pub fn extend_word() -> Inst
    ensures value { result ≡ extended B16 }
    ensures valid { IsTrue (valid_of result) }
{
    Inst::Extend {
        signed: true,
        from: Width::B16,
        to: Width::B32,
        dst: 0,
        src: EAX,
    }
}

/// The memory at eax.
fn at_eax() -> Rm
    ensures { result ≡ by_eax }
{
    Rm::Mem(Addr {
        base: Some(0),
        index: None,
        disp: 0,
    })
}

/// MOV or MOVZX to eax of the memory at eax.
pub fn read(w: Width) -> Inst
    ensures value { result ≡ load_inst w }
    ensures valid { IsTrue (valid_of result) }
{
    match w {
        Width::B32 => Inst::Mov {
            w: Width::B32,
            dst: EAX,
            src: Src::Rm(at_eax()),
        },
        Width::B8 | Width::B16 => Inst::Extend {
            signed: false,
            from: w,
            to: Width::B32,
            dst: 0,
            src: at_eax(),
        },
    }
}

/// MOV of ecx, cx or cl to the memory at eax.
pub fn write(w: Width) -> Inst
    ensures value { result ≡ store_inst w }
    ensures valid { IsTrue (valid_of result) }
{
    Inst::Mov {
        w,
        dst: at_eax(),
        src: Src::Rm(ECX),
    }
}
