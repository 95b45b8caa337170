//! Instructions of arithmetic, and those that share their opcodes.

ghost use Rattle.std.specs.Prelude.{◌≡◌};
ghost use Rattle.ia_inst.specs.Reading.{Gives};
ghost use Rattle.ia_inst.specs.Instructions.{binary_is, binary_at, constant_is, constant_at, alu_constant_at, unary_at, step_at, multiply_at, alu_byte_at};

use crate::bytes::{byte, four, immediate, sign_extended, sign_extended_to};
use crate::operand::operand;
use crate::prefixes::{is_bare, is_near, width};
use ia_inst::{Binary, Constant, Inst, Prefixes, Rm, Src, Width};

fn binary_inst(op: Binary, w: Width, reg: u8, rm: Rm) -> Inst
    ensures { result ≡ binary_is op w reg rm }
{
    match op {
        Binary::AluTo(op) => Inst::Alu {
            op,
            w,
            dst: rm,
            src: Src::Rm(Rm::Reg(reg)),
        },
        Binary::AluFrom(op) => Inst::Alu {
            op,
            w,
            dst: Rm::Reg(reg),
            src: Src::Rm(rm),
        },
        Binary::Test => Inst::Test {
            w,
            dst: rm,
            src: Src::Rm(Rm::Reg(reg)),
        },
        Binary::MovTo => Inst::Mov {
            w,
            dst: rm,
            src: Src::Rm(Rm::Reg(reg)),
        },
        Binary::MovFrom => Inst::Mov {
            w,
            dst: Rm::Reg(reg),
            src: Src::Rm(rm),
        },
        Binary::Xchg => Inst::Xchg { w, dst: rm, reg },
    }
}

/// An operand and a register behind a pair of opcodes.
#[tactic(auto, unfolding(ia_inst::specs::Instructions::binary_at))]
pub fn binary(prefixes: Prefixes, op: Binary, first: bool, bytes: &[u8]) -> Option<(Inst, &[u8])>
    ensures { Gives (λ x. (x.0, x.1.now)) result (binary_at prefixes op first bytes.now) }
{
    let w = width(prefixes, first)?;
    let (reg, rm, rest) = operand(bytes)?;
    Some((binary_inst(op, w, reg, rm), rest))
}

fn constant_inst(op: Constant, w: Width, n: u32) -> Inst
    ensures { result ≡ constant_is op w n }
{
    match op {
        Constant::Alu(op) => Inst::Alu {
            op,
            w,
            dst: Rm::Reg(0),
            src: Src::Imm(n),
        },
        Constant::Test => Inst::Test {
            w,
            dst: Rm::Reg(0),
            src: Src::Imm(n),
        },
        Constant::Mov(reg) => Inst::Mov {
            w,
            dst: Rm::Reg(reg),
            src: Src::Imm(n),
        },
    }
}

/// An immediate behind a pair of opcodes.
#[tactic(auto, unfolding(ia_inst::specs::Instructions::constant_at))]
pub fn constant(
    prefixes: Prefixes,
    op: Constant,
    first: bool,
    bytes: &[u8],
) -> Option<(Inst, &[u8])>
    ensures { Gives (λ x. (x.0, x.1.now)) result (constant_at prefixes op first bytes.now) }
{
    let w = width(prefixes, first)?;
    let (n, rest) = immediate(w, bytes)?;
    Some((constant_inst(op, w, n), rest))
}

/// 81 and 83: an ALU instruction with an immediate.
#[tactic(auto, unfolding(ia_inst::specs::Instructions::alu_constant_at))]
pub fn alu_constant(prefixes: Prefixes, extended: bool, bytes: &[u8]) -> Option<(Inst, &[u8])>
    ensures { Gives (λ x. (x.0, x.1.now)) result (alu_constant_at prefixes extended bytes.now) }
{
    let w = width(prefixes, false)?;
    let (op, dst, rest) = operand(bytes)?;
    if extended {
        let (n, rest) = byte(rest)?;
        Some((
            Inst::Alu {
                op,
                w,
                dst,
                src: Src::Imm(sign_extended_to(w, n)),
            },
            rest,
        ))
    } else {
        let (n, rest) = immediate(w, rest)?;
        Some((
            Inst::Alu {
                op,
                w,
                dst,
                src: Src::Imm(n),
            },
            rest,
        ))
    }
}

/// 80.
#[tactic(auto, unfolding(ia_inst::specs::Instructions::alu_byte_at))]
pub fn alu_byte(bytes: &[u8]) -> Option<(Inst, &[u8])>
    ensures { Gives (λ x. (x.0, x.1.now)) result (alu_byte_at bytes.now) }
{
    let (op, dst, rest) = operand(bytes)?;
    let (n, rest) = byte(rest)?;
    Some((
        Inst::Alu {
            op,
            w: Width::B8,
            dst,
            src: Src::Imm(n as u32),
        },
        rest,
    ))
}

/// F6 and F7.
#[tactic(auto, unfolding(ia_inst::specs::Instructions::unary_at))]
pub fn unary(prefixes: Prefixes, first: bool, bytes: &[u8]) -> Option<(Inst, &[u8])>
    ensures { Gives (λ x. (x.0, x.1.now)) result (unary_at prefixes first bytes.now) }
{
    let (reg, rm, rest) = operand(bytes)?;
    if 3 < reg {
        if !first && is_bare(prefixes) {
            return Some((Inst::MulDiv { op: reg, src: rm }, rest));
        }
        return None;
    }
    let w = width(prefixes, first)?;
    match reg {
        0 => {
            let (n, rest) = immediate(w, rest)?;
            Some((
                Inst::Test {
                    w,
                    dst: rm,
                    src: Src::Imm(n),
                },
                rest,
            ))
        }
        2 => Some((Inst::Not { w, dst: rm }, rest)),
        3 => Some((Inst::Neg { w, dst: rm }, rest)),
        _ => None,
    }
}

/// FE and FF.
#[tactic(auto, unfolding(ia_inst::specs::Instructions::step_at))]
pub fn step(prefixes: Prefixes, first: bool, bytes: &[u8]) -> Option<(Inst, &[u8])>
    ensures { Gives (λ x. (x.0, x.1.now)) result (step_at prefixes first bytes.now) }
{
    let (reg, rm, rest) = operand(bytes)?;
    match reg {
        0 => Some((
            Inst::Inc {
                w: width(prefixes, first)?,
                dst: rm,
            },
            rest,
        )),
        1 => Some((
            Inst::Dec {
                w: width(prefixes, first)?,
                dst: rm,
            },
            rest,
        )),
        _ if first => None,
        2 if is_near(prefixes) => Some((Inst::CallRm { target: rm }, rest)),
        4 if is_near(prefixes) => Some((Inst::JmpRm { target: rm }, rest)),
        6 if is_bare(prefixes) => Some((Inst::Push { src: Src::Rm(rm) }, rest)),
        _ => None,
    }
}

/// 69 and 6B: IMUL with an immediate.
#[tactic(auto, unfolding(ia_inst::specs::Instructions::multiply_at))]
pub fn multiply(short: bool, bytes: &[u8]) -> Option<(Inst, &[u8])>
    ensures { Gives (λ x. (x.0, x.1.now)) result (multiply_at short bytes.now) }
{
    let (dst, src, rest) = operand(bytes)?;
    if short {
        let (n, rest) = byte(rest)?;
        Some((
            Inst::Imul {
                dst,
                src,
                by: Some(sign_extended(n)),
            },
            rest,
        ))
    } else {
        let (n, rest) = four(rest)?;
        Some((
            Inst::Imul {
                dst,
                src,
                by: Some(n),
            },
            rest,
        ))
    }
}
