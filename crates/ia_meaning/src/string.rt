//! MOVS and STOS, one iteration at a time, and the direction flag.

ghost use Rattle.std.specs.Prelude.{◌≡◌, ℕ, List, Ok};
ghost use Rattle.ia_inst.specs.declared.inst.Inst.TheVariants as inst;
ghost use Rattle.ia_inst.specs.Act.{perform};
ghost use Rattle.ia_inst.specs.Meaning.{moved, iterated};
ghost use Rattle.guest_mem.specs.View.{MemoryView};
ghost use Rattle.ia_meaning.specs.Effect.{view, Goes, Does};

use crate::cpu::{Cpu, Refused, next_of};
use crate::operand::{load, reg, store};
use br_word::Width;
use guest_mem::Memory;

/// The next place of a string.
fn moved(df: bool, w: Width, at: u32) -> u32
    ensures { result ≡ moved df w at }
{
    let size = match w {
        Width::B8 => 1,
        Width::B16 => 2,
        Width::B32 => 4,
    };
    if df {
        at.wrapping_sub(size)
    } else {
        at.wrapping_add(size)
    }
}

/// A repeated instruction counts ecx down, and is left where that comes to 0.
fn iterate(rep: bool, len: u8, cpu: &mut Cpu)
    ensures { (c : ℕ) (regs : List ℕ) (m : MemoryView)
        → Goes (perform (iterated rep cpu.old.regs cpu.old.df len) c (record (view cpu.old) { regs = regs }) m.regions)
        (Ok tt) cpu.old m cpu.new m }
{
    let next = next_of(cpu, len);
    if rep {
        cpu.regs[1] = cpu.regs[1].wrapping_sub(1);
    }
    if !rep || cpu.regs[1] == 0 {
        cpu.eip = next;
    }
}

/// MOVS, or one iteration of REP MOVS: a piece goes from esi to edi, and both move on (SDM volume 2).
#[tactic(auto, unfolding(ia_inst::specs::Meaning::meaning))]
pub fn movs(w: Width, rep: bool, len: u8, cpu: &mut Cpu, m: &mut Memory) -> Result<(), Refused>
    ensures { (c : ℕ) → Does (inst.Movs w rep) len c result cpu.old m.old cpu.new m.new }
{
    if rep && cpu.regs[1] == 0 {
        cpu.eip = next_of(cpu, len);
        return Ok(());
    }
    let from = cpu.regs[6];
    let to = cpu.regs[7];
    let v = load(m, from, w)?;
    store(m, to, w, v)?;
    cpu.regs[6] = moved(cpu.df, w, from);
    cpu.regs[7] = moved(cpu.df, w, to);
    iterate(rep, len, cpu);
    Ok(())
}

/// STOS, or one iteration of REP STOS: a part of eax goes to edi, which moves on (SDM volume 2).
#[tactic(auto, unfolding(ia_inst::specs::Meaning::meaning))]
pub fn stos(w: Width, rep: bool, len: u8, cpu: &mut Cpu, m: &mut Memory) -> Result<(), Refused>
    ensures { (c : ℕ) → Does (inst.Stos w rep) len c result cpu.old m.old cpu.new m.new }
{
    if rep && cpu.regs[1] == 0 {
        cpu.eip = next_of(cpu, len);
        return Ok(());
    }
    let to = cpu.regs[7];
    store(m, to, w, reg(&cpu.regs, w, 0))?;
    cpu.regs[7] = moved(cpu.df, w, to);
    iterate(rep, len, cpu);
    Ok(())
}

/// CLD: strings go up (SDM volume 2).
#[tactic(auto, unfolding(ia_inst::specs::Meaning::meaning))]
pub fn clear_direction(len: u8, cpu: &mut Cpu)
    ensures { (c : ℕ) (m : MemoryView) → Does inst.Cld len c (Ok tt) cpu.old m cpu.new m }
{
    cpu.df = false;
    cpu.eip = next_of(cpu, len);
}

/// STD: strings go down (SDM volume 2).
#[tactic(auto, unfolding(ia_inst::specs::Meaning::meaning))]
pub fn set_direction(len: u8, cpu: &mut Cpu)
    ensures { (c : ℕ) (m : MemoryView) → Does inst.Std len c (Ok tt) cpu.old m cpu.new m }
{
    cpu.df = true;
    cpu.eip = next_of(cpu, len);
}
