//! Moves, and addresses that are computed.

ghost use Rattle.std.specs.Prelude.{◌≡◌};
ghost use Rattle.ia_inst.specs.Reading.{Gives};
ghost use Rattle.ia_inst.specs.Instructions.{mov_constant_at, absolute_at, memory_of, lea_at, pop_at};

use crate::bytes::{four, immediate};
use crate::operand::operand;
use crate::prefixes::{padding, width};
use ia_inst::{Addr, Inst, Prefixes, Rm, Src, Width};

/// C6 and C7.
#[tactic(auto, unfolding(ia_inst::specs::Instructions::mov_constant_at))]
pub fn mov_constant(prefixes: Prefixes, first: bool, bytes: &[u8]) -> Option<(Inst, &[u8])>
    ensures { Gives (λ x. (x.0, x.1.now)) result (mov_constant_at prefixes first bytes.now) }
{
    let w = width(prefixes, first)?;
    let (reg, dst, rest) = operand(bytes)?;
    if reg != 0 {
        return None;
    }
    let (n, rest) = immediate(w, rest)?;
    Some((
        Inst::Mov {
            w,
            dst,
            src: Src::Imm(n),
        },
        rest,
    ))
}

/// A0 to A3: register 0 and an address without registers.
#[tactic(auto, unfolding(ia_inst::specs::Instructions::absolute_at))]
pub fn absolute(prefixes: Prefixes, store: bool, first: bool, bytes: &[u8]) -> Option<(Inst, &[u8])>
    ensures { Gives (λ x. (x.0, x.1.now)) result (absolute_at prefixes store first bytes.now) }
{
    let w = width(prefixes, first)?;
    let (disp, rest) = four(bytes)?;
    let there = Rm::Mem(Addr {
        base: None,
        index: None,
        disp,
    });
    if store {
        Some((
            Inst::Mov {
                w,
                dst: there,
                src: Src::Rm(Rm::Reg(0)),
            },
            rest,
        ))
    } else {
        Some((
            Inst::Mov {
                w,
                dst: Rm::Reg(0),
                src: Src::Rm(there),
            },
            rest,
        ))
    }
}

/// 8D.
#[tactic(auto, unfolding(ia_inst::specs::Instructions::lea_at))]
pub fn lea(prefixes: Prefixes, bytes: &[u8]) -> Option<(Inst, &[u8])>
    ensures { Gives (λ x. (x.0, x.1.now)) result (lea_at prefixes bytes.now) }
{
    let wide = padding(prefixes)?;
    let (dst, rm, rest) = operand(bytes)?;
    let w = if wide { Width::B16 } else { Width::B32 };
    match rm {
        Rm::Reg(_) => None,
        Rm::Mem(addr) => Some((Inst::Lea { w, dst, addr }, rest)),
    }
}

/// 8F.
#[tactic(auto, unfolding(ia_inst::specs::Instructions::pop_at))]
pub fn pop(bytes: &[u8]) -> Option<(Inst, &[u8])>
    ensures { Gives (λ x. (x.0, x.1.now)) result (pop_at bytes.now) }
{
    let (reg, dst, rest) = operand(bytes)?;
    if reg == 0 {
        Some((Inst::Pop { dst }, rest))
    } else {
        None
    }
}
