//! Conditions and transfers.

ghost use Rattle.std.specs.Prelude.{◌≡◌, ℕ, ◌<◌, ◌^◌, IsTrue, Ok};
ghost use Rattle.ia_inst.specs.Canonical.{rm_valid};
ghost use Rattle.ia_inst.specs.declared.inst.Inst.TheVariants as inst;
ghost use Rattle.ia_inst.specs.Meaning.{even_condition, condition};
ghost use Rattle.guest_mem.specs.View.{MemoryView};
ghost use Rattle.ia_meaning.specs.Effect.{view, AsksFor, Does};

use crate::cpu::{Cpu, Refused, next_of};
use crate::finish::finish_plain;
use crate::operand::{load, read_rm};
use crate::stack::push_value;
use br_word::Width;
use guest_mem::Memory;
use ia_inst::Rm;

/// A condition by its number without the lowest bit (SDM volume 1, appendix B).
fn even_condition(pair: u8, cpu: &Cpu) -> bool
    ensures { AsksFor (even_condition pair) result (view cpu.now) }
{
    let flags = &cpu.flags;
    match pair {
        0 => flags.of,
        1 => flags.cf,
        2 => flags.zf,
        3 => flags.cf || flags.zf,
        4 => flags.sf,
        5 => flags.pf,
        6 => flags.sf != flags.of,
        _ => flags.zf || flags.sf != flags.of,
    }
}

/// An odd condition is the contrary of the even one before it.
fn condition(cond: u8, cpu: &Cpu) -> bool
    ensures { AsksFor (condition cond) result (view cpu.now) }
{
    let even = even_condition(cond / 2, cpu);
    if cond % 2 == 1 { !even } else { even }
}

/// SETcc: 1 where the condition holds, else 0, in an operand of 8 bits (SDM volume 2).
#[tactic(auto, unfolding(ia_inst::specs::Meaning::meaning))]
pub fn setcc(cond: u8, dst: &Rm, len: u8, cpu: &mut Cpu, m: &mut Memory) -> Result<(), Refused>
    requires { IsTrue (rm_valid dst.now) }
    ensures { (c : ℕ) → Does (inst.Setcc cond dst.now) len c result cpu.old m.old cpu.new m.new }
{
    let holds = condition(cond, cpu);
    finish_plain(Width::B8, dst, holds as u32, len, cpu, m)
}

/// CMOVcc: the source goes to a register where the condition holds; it is read in every case (SDM volume 2).
#[tactic(auto, unfolding(ia_inst::specs::Meaning::meaning))]
pub fn cmov(cond: u8, dst: u8, src: &Rm, len: u8, cpu: &mut Cpu, m: &Memory) -> Result<(), Refused>
    requires dst { dst < 8 }
    requires src { IsTrue (rm_valid src.now) }
    ensures { (c : ℕ) → Does (inst.Cmov cond dst src.now) len c result cpu.old m.now cpu.new m.now }
{
    let holds = condition(cond, cpu);
    let v = read_rm(Width::B32, src, &cpu.regs, m)?;
    if holds {
        cpu.regs[dst as usize] = v;
    }
    cpu.eip = next_of(cpu, len);
    Ok(())
}

/// Jcc: eip goes `rel` past the instruction where the condition holds, else just past it (SDM volume 2).
#[tactic(auto, unfolding(ia_inst::specs::Meaning::meaning))]
pub fn jcc(cond: u8, rel: u32, len: u8, cpu: &mut Cpu)
    ensures { (c : ℕ) (m : MemoryView) → Does (inst.Jcc cond rel) len c (Ok tt) cpu.old m cpu.new m }
{
    let holds = condition(cond, cpu);
    let next = next_of(cpu, len);
    cpu.eip = if holds { next.wrapping_add(rel) } else { next };
}

/// JMP: eip goes `rel` past the instruction (SDM volume 2).
#[tactic(auto, unfolding(ia_inst::specs::Meaning::meaning))]
pub fn jmp(rel: u32, len: u8, cpu: &mut Cpu)
    ensures { (c : ℕ) (m : MemoryView) → Does (inst.Jmp rel) len c (Ok tt) cpu.old m cpu.new m }
{
    cpu.eip = next_of(cpu, len).wrapping_add(rel);
}

/// JMP: eip goes to the address in the operand (SDM volume 2).
#[tactic(auto, unfolding(ia_inst::specs::Meaning::meaning))]
pub fn jmp_rm(target: &Rm, cpu: &mut Cpu, m: &Memory) -> Result<(), Refused>
    requires { IsTrue (rm_valid target.now) }
    ensures { (len c : ℕ) → Does (inst.JmpRm target.now) len c result cpu.old m.now cpu.new m.now }
{
    cpu.eip = read_rm(Width::B32, target, &cpu.regs, m)?;
    Ok(())
}

/// CALL: the address past the instruction is pushed, and eip goes `rel` past it (SDM volume 2).
#[tactic(auto, unfolding(ia_inst::specs::Meaning::meaning))]
pub fn call(rel: u32, len: u8, cpu: &mut Cpu, m: &mut Memory) -> Result<(), Refused>
    ensures { (c : ℕ) → Does (inst.Call rel) len c result cpu.old m.old cpu.new m.new }
{
    let next = next_of(cpu, len);
    push_value(next, &mut cpu.regs, m)?;
    cpu.eip = next.wrapping_add(rel);
    Ok(())
}

/// CALL: the address past the instruction is pushed, and eip goes to the address in the operand, which is read before the
/// stack pointer falls (SDM volume 2).
#[tactic(auto, unfolding(ia_inst::specs::Meaning::meaning))]
pub fn call_rm(target: &Rm, len: u8, cpu: &mut Cpu, m: &mut Memory) -> Result<(), Refused>
    requires { IsTrue (rm_valid target.now) }
    ensures { (c : ℕ) → Does (inst.CallRm target.now) len c result cpu.old m.old cpu.new m.new }
{
    let next = next_of(cpu, len);
    let to = read_rm(Width::B32, target, &cpu.regs, m)?;
    push_value(next, &mut cpu.regs, m)?;
    cpu.eip = to;
    Ok(())
}

/// RET: eip goes to the popped address, and esp rises by `pop` more (SDM volume 2).
#[tactic(auto, unfolding(ia_inst::specs::Meaning::meaning))]
pub fn ret(pop: u16, cpu: &mut Cpu, m: &Memory) -> Result<(), Refused>
    ensures { (len c : ℕ) → Does (inst.Ret pop) len c result cpu.old m.now cpu.new m.now }
{
    let to = load(m, cpu.regs[4], Width::B32)?;
    cpu.regs[4] = cpu.regs[4].wrapping_add(4 + pop as u32);
    cpu.eip = to;
    Ok(())
}

/// NOP: eip moves past the instruction (SDM volume 2).
#[tactic(auto, unfolding(ia_inst::specs::Meaning::meaning))]
pub fn nop(len: u8, cpu: &mut Cpu)
    ensures { (c : ℕ) (m : MemoryView) → Does inst.Nop len c (Ok tt) cpu.old m cpu.new m }
{
    cpu.eip = next_of(cpu, len);
}
