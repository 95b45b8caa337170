//! How an instruction goes on into the written program, and which flags it reads.

ghost use Rattle.std.specs.Prelude.{◌≡◌, ◌/◌, IsTrue};
ghost use Rattle.ia_inst.specs.Canonical.{valid_of};
ghost use Rattle.ia_inst.specs.Kinds.{kind_of, condition_flags, flags_read, bits_of_flags};

use crate::inst::{Inst, Kind};

/// The kind of a valid instruction.
///
/// Native instructions are int 0x80, MUL, IMUL of one operand, DIV, IDIV, ROL, ROR, SAHF, and MOVS and STOS with
/// and without REP. Transfers are Jcc, JMP, CALL and RET in all their forms.
pub fn kind(i: &Inst) -> Kind
    requires { IsTrue (valid_of i.now) }
    ensures { result ≡ kind_of i.now }
{
    match i {
        Inst::MulDiv { .. } | Inst::Rotate { .. } => Kind::Island,
        Inst::Movs { .. } | Inst::Stos { .. } => Kind::Island,
        Inst::Sahf | Inst::Int80 => Kind::Island,
        Inst::Jcc { .. } | Inst::Ret { .. } => Kind::Transfer,
        Inst::Jmp { .. } | Inst::JmpRm { .. } => Kind::Transfer,
        Inst::Call { .. } | Inst::CallRm { .. } => Kind::Transfer,
        _ => Kind::Plain,
    }
}

const CF: u8 = 1;

const PF: u8 = 2;

const ZF: u8 = 4;

const SF: u8 = 8;

const OF: u8 = 16;

/// The flags of a condition, which are those of its contrary too (SDM volume 1, appendix B).
fn condition(cond: u8) -> u8
    ensures { result ≡ bits_of_flags (condition_flags cond) }
{
    match cond / 2 {
        0 => OF,
        1 => CF,
        2 => ZF,
        3 => CF + ZF,
        4 => SF,
        5 => PF,
        6 => SF + OF,
        _ => ZF + SF + OF,
    }
}

/// The flags that a valid instruction reads: bits 0 to 4 for CF, PF, ZF, SF and OF.
///
/// ADC and SBB read CF, and Jcc, SETcc and CMOVcc the flags of their condition. No other instruction
/// reads one of them.
pub fn reads_flags(i: &Inst) -> u8
    requires { IsTrue (valid_of i.now) }
    ensures { result ≡ bits_of_flags (flags_read i.now) }
{
    match i {
        Inst::Alu { op: 2 | 3, .. } => CF,
        Inst::Setcc { cond, .. } | Inst::Cmov { cond, .. } | Inst::Jcc { cond, .. } => {
            condition(*cond)
        }
        _ => 0,
    }
}
