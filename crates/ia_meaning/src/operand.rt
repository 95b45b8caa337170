//! Registers, addresses and operands (SDM volume 1, 3.4.1 and 3.7.5).

ghost use Rattle.std.specs.Prelude.{◌≡◌, ℕ, ◌+◌, ◌*◌, ◌<◌, ◌≤◌, ◌^◌, IsTrue, List, IfOk, OnErr, length};
ghost use Rattle.br_word.specs.Words.{bits_of, size_of};
ghost use Rattle.ia_inst.specs.Canonical.{base_valid, index_valid, address_valid, rm_valid};
ghost use Rattle.br_word.specs.Memory.{load, store};
ghost use Rattle.ia_inst.specs.Meaning.{reg_value, reg_with, of_rm, of_src, to_rm, address_of, base_of, index_of};
ghost use Rattle.ia_meaning.specs.Effect.{Loads, Stores, GoesOn, WritesAs};
ghost use Rattle.ia_meaning.specs.Valid.{source_valid};

use crate::cpu::Refused;
use br_word::Width;
use guest_mem::Memory;
use ia_inst::{Addr, Rm, Src};

/// The value of a register, or of a part of one.
pub fn reg(regs: &[u32; 8], w: Width, r: u8) -> u32
    requires { r < 8 }
    ensures value { result ≡ reg_value w r regs.now }
    ensures fits { result < 2 ^ bits_of w }
{
    match w {
        Width::B32 => regs[r as usize],
        Width::B16 => regs[r as usize] % 0x10000,
        Width::B8 => {
            if r < 4 {
                regs[r as usize] % 256
            } else {
                regs[r as usize - 4] / 256 % 256
            }
        }
    }
}

/// Puts a value into a register, or into a part of one.
pub fn set_reg(regs: &mut [u32; 8], w: Width, r: u8, v: u32)
    requires reg { r < 8 }
    requires value { v < 2 ^ bits_of w }
    ensures { regs.new ≡ reg_with w r v regs.old }
{
    match w {
        Width::B32 => {
            regs[r as usize] = v;
        }
        Width::B16 => {
            let old = regs[r as usize];
            regs[r as usize] = old / 0x10000 * 0x10000 + v;
        }
        Width::B8 => {
            if r < 4 {
                let old = regs[r as usize];
                regs[r as usize] = old / 256 * 256 + v;
            } else {
                let old = regs[r as usize - 4];
                regs[r as usize - 4] = old / 0x10000 * 0x10000 + v * 256 + old % 256;
            }
        }
    }
}

/// The value of a base register, 0 where there is none.
fn base_part(regs: &[u32; 8], base: Option<u8>) -> u32
    requires { IsTrue (base_valid base) }
    ensures { result ≡ base_of base regs.now }
{
    match base {
        None => 0,
        Some(r) => regs[r as usize],
    }
}

/// The value of an index register times its scale (1, 2, 4 or 8), 0 where there is none.
fn index_part(regs: &[u32; 8], index: Option<(u8, u8)>) -> u64
    requires { IsTrue (index_valid index) }
    ensures value { result ≡ index_of index regs.now }
    ensures bound { result ≤ 4294967295 * 8 }
{
    match index {
        None => 0,
        Some((r, scale)) => regs[r as usize] as u64 * scale as u64,
    }
}

/// The address of a place in memory.
pub fn address(regs: &[u32; 8], a: &Addr) -> u32
    requires { IsTrue (address_valid a.now) }
    ensures { result ≡ address_of a.now regs.now }
{
    let base = base_part(regs, a.base) as u64;
    let index = index_part(regs, a.index);
    ((base + index + a.disp as u64) % 0x1_0000_0000) as u32
}

/// Reads from memory.
pub fn load(m: &Memory, at: u32, w: Width) -> Result<u32, Refused>
    ensures value { Loads result at (load at (size_of w) m.now.regions) }
    ensures fits { IfOk result (λ v. v < 2 ^ bits_of w) }
{
    match m.load(at, w) {
        Some(v) => Ok(v),
        None => Err(Refused::Access(at)),
    }
}

/// Writes to memory.
pub fn store(m: &mut Memory, at: u32, w: Width, v: u32) -> Result<(), Refused>
    ensures { Stores result at (store at (size_of w) v m.old.regions) m.old m.new }
{
    if m.store(at, w, v) {
        Ok(())
    } else {
        Err(Refused::Access(at))
    }
}

/// Reads an operand.
pub fn read_rm(w: Width, rm: &Rm, regs: &[u32; 8], m: &Memory) -> Result<u32, Refused>
    requires { IsTrue (rm_valid rm.now) }
    ensures value { GoesOn (of_rm w rm.now regs.now) result m.now.regions }
    ensures fits { IfOk result (λ v. v < 2 ^ bits_of w) }
{
    match rm {
        Rm::Reg(r) => Ok(reg(regs, w, *r)),
        Rm::Mem(a) => load(m, address(regs, a), w),
    }
}

/// Reads a source.
pub fn read_src(w: Width, src: &Src, regs: &[u32; 8], m: &Memory) -> Result<u32, Refused>
    requires { IsTrue (source_valid w src.now) }
    ensures value { GoesOn (of_src w src.now regs.now) result m.now.regions }
    ensures fits { IfOk result (λ v. v < 2 ^ bits_of w) }
{
    match src {
        Src::Rm(rm) => read_rm(w, rm, regs, m),
        Src::Imm(v) => Ok(*v),
    }
}

/// Writes an operand. Where that is refused, nothing changes.
pub fn write_rm(
    w: Width,
    rm: &Rm,
    v: u32,
    regs: &mut [u32; 8],
    m: &mut Memory,
) -> Result<(), Refused>
    requires rm { IsTrue (rm_valid rm.now) }
    requires value { v < 2 ^ bits_of w }
    ensures writes { WritesAs (to_rm w rm.now v regs.old) result m.old regs.new m.new }
    ensures rest { m.new ≡ record m.old { regions = m.new.regions } }
    ensures err { OnErr result ((regs.new ≡ regs.old) × (m.new ≡ m.old)) }
{
    match rm {
        Rm::Reg(r) => {
            set_reg(regs, w, *r, v);
            Ok(())
        }
        Rm::Mem(a) => store(m, address(regs, a), w, v),
    }
}
