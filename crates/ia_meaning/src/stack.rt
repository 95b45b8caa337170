//! The stack: PUSH, POP and LEAVE.

ghost use Rattle.std.specs.Prelude.{◌≡◌, ℕ, ◌+◌, ◌-◌, ◌^◌, IsTrue, OnOk, OnErr, get_or, set};
ghost use Rattle.br_word.specs.declared.types.Width.TheVariants.{B32};
ghost use Rattle.br_word.specs.Memory.{store};
ghost use Rattle.ia_inst.specs.Canonical.{rm_valid};
ghost use Rattle.ia_inst.specs.declared.inst.Inst.TheVariants as inst;
ghost use Rattle.ia_inst.specs.Meaning.{wrap};
ghost use Rattle.ia_meaning.specs.Effect.{Stores, Does};
ghost use Rattle.ia_meaning.specs.Valid.{source_valid};

use crate::cpu::{Cpu, Refused, next_of};
use crate::operand::{load, read_src, store, write_rm};
use br_word::Width;
use guest_mem::Memory;
use ia_inst::{Rm, Src};

/// Pushes a value. Where that is refused, nothing changes.
pub fn push_value(v: u32, regs: &mut [u32; 8], m: &mut Memory) -> Result<(), Refused>
    ensures stored { let top = wrap (get_or regs.old 4 0 + 2 ^ 32 - 4) in Stores result top (store top 4 v m.old.regions) m.old m.new }
    ensures ok { OnOk result (regs.new ≡ set regs.old 4 (wrap (get_or regs.old 4 0 + 2 ^ 32 - 4))) }
    ensures err { OnErr result (regs.new ≡ regs.old) }
{
    let top = regs[4].wrapping_sub(4);
    store(m, top, Width::B32, v)?;
    regs[4] = top;
    Ok(())
}

/// PUSH: esp falls by 4, and the source is stored where it then points (SDM volume 2).
#[tactic(auto, unfolding(ia_inst::specs::Meaning::meaning))]
pub fn push(src: &Src, len: u8, cpu: &mut Cpu, m: &mut Memory) -> Result<(), Refused>
    requires { IsTrue (source_valid B32 src.now) }
    ensures { (c : ℕ) → Does (inst.Push src.now) len c result cpu.old m.old cpu.new m.new }
{
    let v = read_src(Width::B32, src, &cpu.regs, m)?;
    push_value(v, &mut cpu.regs, m)?;
    cpu.eip = next_of(cpu, len);
    Ok(())
}

/// POP: the word at esp goes to the operand, and esp rises by 4 (SDM volume 2). The address of the destination
/// takes the stack pointer as it is after the value was popped.
#[tactic(auto, unfolding(ia_inst::specs::Meaning::meaning))]
pub fn pop(dst: &Rm, len: u8, cpu: &mut Cpu, m: &mut Memory) -> Result<(), Refused>
    requires { IsTrue (rm_valid dst.now) }
    ensures { (c : ℕ) → Does (inst.Pop dst.now) len c result cpu.old m.old cpu.new m.new }
{
    let v = load(m, cpu.regs[4], Width::B32)?;
    let mut regs = cpu.regs;
    regs[4] = regs[4].wrapping_add(4);
    write_rm(Width::B32, dst, v, &mut regs, m)?;
    cpu.regs = regs;
    cpu.eip = next_of(cpu, len);
    Ok(())
}

/// LEAVE: esp goes 4 past ebp, and ebp becomes what stood where it pointed (SDM volume 2).
#[tactic(auto, unfolding(ia_inst::specs::Meaning::meaning))]
pub fn leave(len: u8, cpu: &mut Cpu, m: &Memory) -> Result<(), Refused>
    ensures { (c : ℕ) → Does inst.Leave len c result cpu.old m.now cpu.new m.now }
{
    let base = cpu.regs[5];
    let v = load(m, base, Width::B32)?;
    cpu.regs[4] = base.wrapping_add(4);
    cpu.regs[5] = v;
    cpu.eip = next_of(cpu, len);
    Ok(())
}
