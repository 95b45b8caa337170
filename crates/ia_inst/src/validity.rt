//! Which instructions have a spelling.

ghost use Rattle.std.specs.Prelude.{◌≡◌, ℕ, List, ◌↔◌, IsTrue};
ghost use Rattle.ia_inst.specs.Spells.{Spells};
ghost use Rattle.ia_inst.specs.Canonical.{address_valid, rm_valid, imm_valid, count_valid, move_valid, test_valid, is_long, source_valid, by_valid, widens, valid_of, canonical};
ghost use Rattle.ia_inst.specs.declared.inst.Inst.{Inst};

use crate::inst::{Addr, Count, Inst, Rm, Src};
use br_word::Width;

fn address(a: &Addr) -> bool
    ensures { result ≡ address_valid a.now }
{
    let base = match a.base {
        None => true,
        Some(base) => base < 8,
    };
    let index = match a.index {
        None => true,
        Some((index, scale)) => {
            index < 8 && index != 4 && (scale == 1 || scale == 2 || scale == 4 || scale == 8)
        }
    };
    base && index && immediate(Width::B32, a.disp)
}

fn operand(rm: &Rm) -> bool
    ensures { result ≡ rm_valid rm.now }
{
    match rm {
        Rm::Reg(reg) => *reg < 8,
        Rm::Mem(addr) => address(addr),
    }
}

/// Whether an immediate fits a width.
fn immediate(w: Width, n: u32) -> bool
    ensures { result ≡ imm_valid w n }
{
    match w {
        Width::B8 => n < 256,
        Width::B16 => n < 65536,
        // every number of 32 bits does
        Width::B32 => true,
    }
}

/// By how much a shift goes.
fn count(count: &Count) -> bool
    ensures { result ≡ count_valid count.now }
{
    match count {
        Count::Imm(n) => immediate(Width::B8, *n as u32),
        Count::Cl => true,
    }
}

/// A destination and a source, not both in memory.
fn pair(w: Width, dst: &Rm, src: &Src) -> bool
    ensures { result ≡ move_valid w dst.now src.now }
{
    match (dst, src) {
        (_, Src::Imm(n)) => operand(dst) && immediate(w, *n),
        (_, Src::Rm(Rm::Reg(reg))) => operand(dst) && *reg < 8,
        (Rm::Reg(reg), Src::Rm(Rm::Mem(addr))) => *reg < 8 && address(addr),
        (Rm::Mem(_), Src::Rm(Rm::Mem(_))) => false,
    }
}

fn test(w: Width, dst: &Rm, src: &Src) -> bool
    ensures { result ≡ test_valid w dst.now src.now }
{
    match src {
        Src::Imm(n) => operand(dst) && immediate(w, *n),
        Src::Rm(Rm::Reg(reg)) => operand(dst) && *reg < 8,
        Src::Rm(Rm::Mem(_)) => false,
    }
}

/// What is pushed.
fn source(src: &Src) -> bool
    ensures { result ≡ source_valid src.now }
{
    match src {
        Src::Rm(rm) => operand(rm),
        Src::Imm(n) => immediate(Width::B32, *n),
    }
}

/// The factor of an IMUL.
fn factor(by: Option<u32>) -> bool
    ensures { result ≡ by_valid by }
{
    match by {
        None => true,
        Some(n) => immediate(Width::B32, n),
    }
}

fn long(w: Width) -> bool
    ensures { result ≡ is_long w }
{
    match w {
        Width::B8 => false,
        Width::B16 | Width::B32 => true,
    }
}

/// Whether there is an extension from one width to another.
fn extends(from: Width, to: Width) -> bool
    ensures { result ≡ widens from to }
{
    match (from, to) {
        (Width::B8, Width::B16 | Width::B32) | (Width::B16, Width::B32) => true,
        _ => false,
    }
}

fn is_valid(i: &Inst) -> bool
    ensures { result ≡ valid_of i.now }
{
    match i {
        Inst::Alu { op, w, dst, src } => *op < 8 && pair(*w, dst, src),
        Inst::Test { w, dst, src } => test(*w, dst, src),
        Inst::Mov { w, dst, src } => pair(*w, dst, src),
        Inst::Lea { w, dst, addr } => long(*w) && *dst < 8 && address(addr),
        Inst::Xchg { dst, reg, .. } => operand(dst) && *reg < 8,
        Inst::Inc { dst, .. } | Inst::Dec { dst, .. } => operand(dst),
        Inst::Not { dst, .. } | Inst::Neg { dst, .. } => operand(dst),
        Inst::Push { src } => source(src),
        Inst::Pop { dst } => operand(dst),
        Inst::MulDiv { op, src } => 3 < *op && *op < 8 && operand(src),
        Inst::Imul { dst, src, by } => *dst < 8 && operand(src) && factor(*by),
        Inst::Shift { dst, count: by, .. } | Inst::Rotate { dst, count: by, .. } => {
            operand(dst) && count(by)
        }
        Inst::Extend {
            from,
            to,
            dst,
            src,
            ..
        } => extends(*from, *to) && *dst < 8 && operand(src),
        Inst::Setcc { cond, dst } => *cond < 16 && operand(dst),
        Inst::Cmov { cond, dst, src } => *cond < 16 && *dst < 8 && operand(src),
        Inst::Jcc { cond, rel } => *cond < 16 && immediate(Width::B32, *rel),
        Inst::Jmp { rel } | Inst::Call { rel } => immediate(Width::B32, *rel),
        Inst::Ret { pop } => immediate(Width::B16, *pop as u32),
        Inst::JmpRm { target } | Inst::CallRm { target } => operand(target),
        _ => true,
    }
}

/// Whether there is a spelling of the instruction.
///
/// `docs/INSTRUCTIONS.md` says the same in terms of registers, widths and immediates.
pub fn valid(i: &Inst) -> bool
    ensures spelled { IsTrue result ↔ (bytes : List ℕ) × Spells bytes i.now }
    ensures test { result ≡ valid_of i.now }
{
    is_valid(i)
}

/// The canonical spelling of a valid instruction is one of its spellings.
pub fn canonical_spelling()
    ensures { (i : Inst) → IsTrue (valid_of i) → Spells (canonical i) i }
{}
