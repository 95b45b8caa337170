//! MUL, IMUL, DIV and IDIV.

ghost use Rattle.std.specs.Prelude.{◌≡◌, ℕ, ◌*◌, ◌/◌, ◌%◌, ◌^◌, ◌<◌, Bool, IsTrue, Ok, Option};
ghost use Rattle.ia_inst.specs.Canonical.{rm_valid, by_valid};
ghost use Rattle.ia_inst.specs.declared.inst.Inst.TheVariants as inst;
ghost use Rattle.ia_inst.specs.Act.{Past, Ends, perform};
ghost use Rattle.ia_inst.specs.Meaning.{pair_of, with_pair, divides, muldiv, factor_of, product_changes, all_undefined};
ghost use Rattle.guest_mem.specs.View.{MemoryView};
ghost use Rattle.ia_meaning.specs.Effect.{view, status_after, Goes, Does};

use crate::cpu::{Cpu, Refused};
use crate::finish::settle;
use crate::operand::read_rm;
use crate::status::{Status, changed};
use crate::wide::{divide, divide_signed, multiply, multiply_signed, overflows};
use br_word::{Flags, Width};
use guest_mem::Memory;
use ia_inst::Rm;

/// CF and OF say whether a product is too large, and the other flags are left undefined.
fn product_status(over: bool, cpu: &Cpu, choice: u8) -> Status
    ensures { result ≡ status_after (product_changes over) cpu.now choice }
{
    let known = Flags {
        cf: true,
        pf: false,
        zf: false,
        sf: false,
        of: true,
    };
    let flags = Flags {
        cf: over,
        pf: false,
        zf: false,
        sf: false,
        of: over,
    };
    changed(known, flags, cpu, choice)
}

/// All flags are left undefined, as by a division.
fn no_status(cpu: &Cpu, choice: u8) -> Status
    ensures { result ≡ status_after all_undefined cpu.now choice }
{
    let none = Flags {
        cf: false,
        pf: false,
        zf: false,
        sf: false,
        of: false,
    };
    changed(none, none, cpu, choice)
}

/// Puts a product into edx and eax.
fn put_product(p: u64, over: bool, len: u8, cpu: &mut Cpu, choice: u8)
    ensures { (n : ℕ) (big : Bool) (m : MemoryView) → p ≡ n → over ≡ big
        → Goes (perform (Ends (with_pair (n / 2 ^ 32) (n % 2 ^ 32) cpu.old.regs) cpu.old.df (product_changes big) (Past len))
        choice (view cpu.old) m.regions)
        (Ok tt) cpu.old m cpu.new m }
{
    let after = product_status(over, cpu, choice);
    cpu.regs[0] = (p % 0x1_0000_0000) as u32;
    cpu.regs[2] = (p >> 32) as u32;
    settle(after, len, cpu);
}

/// Puts a quotient into eax and a remainder into edx.
fn put_quotient(q: Option<(u32, u32)>, len: u8, cpu: &mut Cpu, choice: u8) -> Result<(), Refused>
    ensures { (m : MemoryView) → Goes (perform (divides q len cpu.old.regs cpu.old.df) choice (view cpu.old) m.regions)
        result cpu.old m cpu.new m }
{
    match q {
        None => Err(Refused::Division),
        Some((quotient, remainder)) => {
            let after = no_status(cpu, choice);
            cpu.regs[0] = quotient;
            cpu.regs[2] = remainder;
            settle(after, len, cpu);
            Ok(())
        }
    }
}

/// The number of 64 bits in edx and eax, edx above.
fn pair(cpu: &Cpu) -> u64
    ensures { result ≡ pair_of cpu.now.regs }
{
    cpu.regs[2] as u64 * 0x1_0000_0000 + cpu.regs[0] as u64
}

/// MUL, IMUL, DIV and IDIV of edx:eax by their numbers.
fn muldiv_by(op: u8, b: u32, len: u8, cpu: &mut Cpu, choice: u8) -> Result<(), Refused>
    ensures { (m : MemoryView) → Goes (perform (muldiv op b len cpu.old.regs cpu.old.df) choice (view cpu.old) m.regions)
        result cpu.old m cpu.new m }
{
    let a = cpu.regs[0];
    match op {
        4 => {
            let p = multiply(a, b);
            put_product(p, p >> 32 != 0, len, cpu, choice);
            Ok(())
        }
        5 => {
            put_product(multiply_signed(a, b), overflows(a, b), len, cpu, choice);
            Ok(())
        }
        6 => put_quotient(divide(pair(cpu), b), len, cpu, choice),
        _ => put_quotient(divide_signed(pair(cpu), b), len, cpu, choice),
    }
}

/// MUL, IMUL, DIV and IDIV of edx:eax by the operand, by `op` from 4 to 7 (SDM volume 2).
#[tactic(auto, unfolding(ia_inst::specs::Meaning::meaning))]
pub fn muldiv(
    op: u8,
    src: &Rm,
    len: u8,
    cpu: &mut Cpu,
    m: &Memory,
    choice: u8,
) -> Result<(), Refused>
    requires { IsTrue (rm_valid src.now) }
    ensures { Does (inst.MulDiv op src.now) len choice result cpu.old m.now cpu.new m.now }
{
    let b = read_rm(Width::B32, src, &cpu.regs, m)?;
    muldiv_by(op, b, len, cpu, choice)
}

/// The first factor: the immediate, or else the destination.
fn factor(by: Option<u32>, dst: u8, regs: &[u32; 8]) -> u32
    requires { dst < 8 }
    ensures { result ≡ factor_of by dst regs.now }
{
    match by {
        Some(v) => v,
        None => regs[dst as usize],
    }
}

/// IMUL with a destination: the low 32 bits of the source times `by`, or else times the destination (SDM volume 2).
#[tactic(auto, unfolding(ia_inst::specs::Meaning::meaning))]
pub fn imul(
    dst: u8,
    src: &Rm,
    by: Option<u32>,
    len: u8,
    cpu: &mut Cpu,
    m: &Memory,
    choice: u8,
) -> Result<(), Refused>
    requires dst { dst < 8 }
    requires src { IsTrue (rm_valid src.now) }
    ensures { Does (inst.Imul dst src.now by) len choice result cpu.old m.now cpu.new m.now }
{
    let b = read_rm(Width::B32, src, &cpu.regs, m)?;
    let a = factor(by, dst, &cpu.regs);
    let after = product_status(overflows(a, b), cpu, choice);
    cpu.regs[dst as usize] = a.wrapping_mul(b);
    settle(after, len, cpu);
    Ok(())
}
