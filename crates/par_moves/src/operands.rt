//! Locations as operands of instructions.
ghost use Rattle.std.specs.Prelude.{◌≡◌, ℕ, ◌<◌, ◌^◌, IsTrue};
ghost use Rattle.ia_inst.specs.Canonical.{move_valid};
ghost use Rattle.ia_inst.specs.declared.inst.Rm.TheVariants as rm;
ghost use Rattle.ia_inst.specs.declared.inst.Src.TheVariants as src;
ghost use Rattle.br_word.specs.declared.types.Width.TheVariants.{B32};
ghost use Rattle.par_moves.specs.Locations.{rm_of, src_of, InRange, IsFit};

use crate::locations::{MoveSource, Place};
use ia_inst::{Addr, Rm, Src};

/// A location as an operand: the register, or the four bytes of the slot (SDM volume 2, 2.1.5). A register and a number can be moved
/// there.
pub fn operand(place: Place) -> Rm
    requires { InRange place }
    ensures value { result ≡ rm_of place }
    ensures written { (r : ℕ) → r < 8 → IsTrue (move_valid B32 result (src.Rm (rm.Reg r))) }
    ensures filled { (n : ℕ) → n < 2 ^ 32 → IsTrue (move_valid B32 result (src.Imm n)) }
{
    match place {
        Place::Reg(register) => Rm::Reg(register),
        Place::Slot(slot) => Rm::Mem(Addr {
            base: None,
            index: None,
            disp: 0x0700_0000 + 4 * slot,
        }),
    }
}

/// What a move reads, as an operand, which can be moved to a register.
pub fn source(from: MoveSource) -> Src
    requires { IsFit from }
    ensures value { result ≡ src_of from }
    ensures loaded { (r : ℕ) → r < 8 → IsTrue (move_valid B32 (rm.Reg r) result) }
{
    match from {
        MoveSource::Place(place) => Src::Rm(operand(place)),
        MoveSource::Num(number) => Src::Imm(number),
    }
}
