//! Moves of values, and sign extensions.

ghost use Rattle.std.specs.Prelude.{◌≡◌, ℕ, ◌%◌, ◌<◌, ◌^◌, IsTrue, if◌then◌else◌};
ghost use Rattle.br_word.specs.Words.{bits_of};
ghost use Rattle.ia_inst.specs.Canonical.{rm_valid, address_valid, widens};
ghost use Rattle.ia_inst.specs.declared.inst.Inst.TheVariants as inst;
ghost use Rattle.ia_inst.specs.Meaning.{sign_extended};
ghost use Rattle.guest_mem.specs.View.{MemoryView};
ghost use Rattle.ia_meaning.specs.Effect.{Does};
ghost use Rattle.ia_meaning.specs.Valid.{source_valid};

use crate::cpu::{Cpu, Refused, next_of};
use crate::finish::finish_plain;
use crate::operand::{address, read_rm, read_src, reg, set_reg, write_rm};
use br_word::Width;
use guest_mem::Memory;
use ia_inst::{Addr, Rm, Src};

/// MOV: the source goes to the destination, with no flag changed (SDM volume 2).
#[tactic(auto, unfolding(ia_inst::specs::Meaning::meaning))]
pub fn mov(
    w: Width,
    dst: &Rm,
    src: &Src,
    len: u8,
    cpu: &mut Cpu,
    m: &mut Memory,
) -> Result<(), Refused>
    requires dst { IsTrue (rm_valid dst.now) }
    requires src { IsTrue (source_valid w src.now) }
    ensures { (c : ℕ) → Does (inst.Mov w dst.now src.now) len c result cpu.old m.old cpu.new m.new }
{
    let v = read_src(w, src, &cpu.regs, m)?;
    finish_plain(w, dst, v, len, cpu, m)
}

/// The low bits of a number.
fn truncated(w: Width, v: u32) -> u32
    ensures value { result ≡ v % 2 ^ bits_of w }
    ensures fits { result < 2 ^ bits_of w }
{
    match w {
        Width::B8 => v % 0x100,
        Width::B16 => v % 0x10000,
        Width::B32 => v,
    }
}

/// LEA: the low bits of the address of a place, which is not read, go to a register (SDM volume 2).
#[tactic(auto, unfolding(ia_inst::specs::Meaning::meaning))]
pub fn lea(w: Width, dst: u8, addr: &Addr, len: u8, cpu: &mut Cpu)
    requires dst { dst < 8 }
    requires addr { IsTrue (address_valid addr.now) }
    ensures { (c : ℕ) (m : MemoryView) → Does (inst.Lea w dst addr.now) len c (Ok tt) cpu.old m cpu.new m }
{
    let v = truncated(w, address(&cpu.regs, addr));
    set_reg(&mut cpu.regs, w, dst, v);
    cpu.eip = next_of(cpu, len);
}

/// XCHG: the operand and a register change their values (SDM volume 2).
#[tactic(auto, unfolding(ia_inst::specs::Meaning::meaning))]
pub fn xchg(
    w: Width,
    dst: &Rm,
    other: u8,
    len: u8,
    cpu: &mut Cpu,
    m: &mut Memory,
) -> Result<(), Refused>
    requires dst { IsTrue (rm_valid dst.now) }
    requires other { other < 8 }
    ensures { (c : ℕ) → Does (inst.Xchg w dst.now other) len c result cpu.old m.old cpu.new m.new }
{
    let a = read_rm(w, dst, &cpu.regs, m)?;
    let b = reg(&cpu.regs, w, other);
    write_rm(w, dst, b, &mut cpu.regs, m)?;
    set_reg(&mut cpu.regs, w, other, a);
    cpu.eip = next_of(cpu, len);
    Ok(())
}

/// A number of one width as a signed number of a wider one.
fn extended(from: Width, to: Width, v: u32) -> u32
    requires widens { IsTrue (widens from to) }
    requires fits { v < 2 ^ bits_of from }
    ensures value { result ≡ sign_extended from to v }
    ensures fits { result < 2 ^ bits_of to }
{
    match from {
        Width::B8 if v < 0x80 => v,
        Width::B8 => match to {
            Width::B16 => v + 0xFF00,
            _ => v + 0xFFFF_FF00,
        },
        _ if v < 0x8000 => v,
        _ => v + 0xFFFF_0000,
    }
}

/// MOVZX and MOVSX: the operand goes to a wider register, `signed` with its sign (SDM volume 2).
#[tactic(auto, unfolding(ia_inst::specs::Meaning::meaning))]
pub fn extend(
    signed: bool,
    from: Width,
    to: Width,
    dst: u8,
    src: &Rm,
    len: u8,
    cpu: &mut Cpu,
    m: &Memory,
) -> Result<(), Refused>
    requires widens { IsTrue (widens from to) }
    requires dst { dst < 8 }
    requires src { IsTrue (rm_valid src.now) }
    ensures { (c : ℕ) → Does (inst.Extend signed from to dst src.now) len c result cpu.old m.now cpu.new m.now }
{
    let b = read_rm(from, src, &cpu.regs, m)?;
    let v = if signed { extended(from, to, b) } else { b };
    set_reg(&mut cpu.regs, to, dst, v);
    cpu.eip = next_of(cpu, len);
    Ok(())
}

/// CWDE: ax goes to eax with its sign (SDM volume 2).
#[tactic(auto, unfolding(ia_inst::specs::Meaning::meaning))]
pub fn cwde(len: u8, cpu: &mut Cpu)
    ensures { (c : ℕ) (m : MemoryView) → Does inst.Cwde len c (Ok tt) cpu.old m cpu.new m }
{
    cpu.regs[0] = extended(Width::B16, Width::B32, reg(&cpu.regs, Width::B16, 0));
    cpu.eip = next_of(cpu, len);
}

/// CDQ: each bit of edx becomes the sign of eax (SDM volume 2).
#[tactic(auto, unfolding(ia_inst::specs::Meaning::meaning))]
pub fn cdq(len: u8, cpu: &mut Cpu)
    ensures { (c : ℕ) (m : MemoryView) → Does inst.Cdq len c (Ok tt) cpu.old m cpu.new m }
{
    cpu.regs[2] = if cpu.regs[0] >= 0x8000_0000 {
        u32::MAX
    } else {
        0
    };
    cpu.eip = next_of(cpu, len);
}
