//! Sums, differences and logic.

ghost use Rattle.std.specs.Prelude.{◌≡◌, ℕ, ◌-◌, ◌<◌, ◌^◌, ◌==◌, if◌then◌else◌, IsTrue, List};
ghost use Rattle.br_word.specs.Words.{bits_of};
ghost use Rattle.ia_inst.specs.Canonical.{rm_valid};
ghost use Rattle.ia_inst.specs.declared.inst.Inst.TheVariants as inst;
ghost use Rattle.ia_inst.specs.Act.{Past, Ends, perform};
ghost use Rattle.ia_inst.specs.Meaning.{Result, alu, of_sum, of_logic, to_rm, with_carry};
ghost use Rattle.ia_meaning.specs.Effect.{view, AsksFor, Goes, Does};
ghost use Rattle.ia_meaning.specs.Valid.{source_valid};

use crate::cpu::{Cpu, Refused};
use crate::finish::{finish, finish_plain, settle};
use crate::operand::{read_rm, read_src};
use crate::status::{set, stepped};
use br_word::{Sum, Width, add_flags, logic_flags, sub_flags};
use guest_mem::Memory;
use ia_inst::{Rm, Src};

/// A value and the flags that logic leaves: CF and OF are clear, the others by the value (SDM volume 2, AND, OR, XOR, TEST).
fn logic(w: Width, value: u32) -> Sum
    requires { value < 2 ^ bits_of w }
    ensures sum { of_sum result ≡ of_logic w value }
    ensures value { result.value ≡ value }
{
    Sum {
        value,
        flags: logic_flags(w, value),
    }
}

/// ADD, OR, ADC, SBB, AND, SUB, XOR and CMP by their numbers.
fn alu_sum(op: u8, w: Width, a: u32, b: u32, carry: bool) -> Sum
    requires a_fits { a < 2 ^ bits_of w }
    requires b_fits { b < 2 ^ bits_of w }
    ensures sum { of_sum result ≡ alu op w a b carry }
    ensures fits { result.value < 2 ^ bits_of w }
{
    match op {
        0 | 2 => add_flags(w, a, b, carry),
        1 => logic(w, a | b),
        4 => logic(w, a & b),
        6 => logic(w, a ^ b),
        _ => sub_flags(w, a, b, carry),
    }
}

/// CF where the operation takes it in.
fn carry_in(op: u8, cpu: &Cpu) -> bool
    ensures { AsksFor (with_carry op) result (view cpu.now) }
{
    (op == 2 || op == 3) && cpu.flags.cf
}

/// Writes a sum and sets its flags, but for CMP, which sets its flags alone.
fn put_sum(
    op: u8,
    w: Width,
    dst: &Rm,
    sum: &Sum,
    len: u8,
    cpu: &mut Cpu,
    m: &mut Memory,
) -> Result<(), Refused>
    requires dst { IsTrue (rm_valid dst.now) }
    requires value { sum.now.value < 2 ^ bits_of w }
    ensures { (r : Result) (c : ℕ) → of_sum sum.now ≡ r
        → Goes (perform (if op == 7 then Ends cpu.old.regs cpu.old.df r.changes (Past len)
        else to_rm w dst.now r.value cpu.old.regs (λ regs. Ends regs cpu.old.df r.changes (Past len))) c (view cpu.old) m.old.regions)
        result cpu.old m.old cpu.new m.new }
{
    let after = set(sum.flags);
    if op == 7 {
        settle(after, len, cpu);
        return Ok(());
    }
    finish(w, dst, sum.value, after, len, cpu, m)
}

/// ADD, OR, ADC, SBB, AND, SUB, XOR and CMP, by `op` from 0 to 7 (SDM volume 2). CF is read by ADC and SBB, before any
/// operand; CMP writes its flags alone.
#[tactic(auto, unfolding(ia_inst::specs::Meaning::meaning))]
pub fn alu(
    op: u8,
    w: Width,
    dst: &Rm,
    src: &Src,
    len: u8,
    cpu: &mut Cpu,
    m: &mut Memory,
) -> Result<(), Refused>
    requires dst { IsTrue (rm_valid dst.now) }
    requires src { IsTrue (source_valid w src.now) }
    ensures { (c : ℕ) → Does (inst.Alu op w dst.now src.now) len c result cpu.old m.old cpu.new m.new }
{
    let carry = carry_in(op, cpu);
    let a = read_rm(w, dst, &cpu.regs, m)?;
    let b = read_src(w, src, &cpu.regs, m)?;
    let sum = alu_sum(op, w, a, b, carry);
    put_sum(op, w, dst, &sum, len, cpu, m)
}

/// TEST: the flags of the conjunction, which is not written (SDM volume 2).
#[tactic(auto, unfolding(ia_inst::specs::Meaning::meaning))]
pub fn test(
    w: Width,
    dst: &Rm,
    src: &Src,
    len: u8,
    cpu: &mut Cpu,
    m: &Memory,
) -> Result<(), Refused>
    requires dst { IsTrue (rm_valid dst.now) }
    requires src { IsTrue (source_valid w src.now) }
    ensures { (c : ℕ) → Does (inst.Test w dst.now src.now) len c result cpu.old m.now cpu.new m.now }
{
    let a = read_rm(w, dst, &cpu.regs, m)?;
    let b = read_src(w, src, &cpu.regs, m)?;
    settle(set(logic_flags(w, a & b)), len, cpu);
    Ok(())
}

/// INC: the operand and 1, with CF as it is (SDM volume 2).
#[tactic(auto, unfolding(ia_inst::specs::Meaning::meaning))]
pub fn inc(w: Width, dst: &Rm, len: u8, cpu: &mut Cpu, m: &mut Memory) -> Result<(), Refused>
    requires { IsTrue (rm_valid dst.now) }
    ensures { (c : ℕ) → Does (inst.Inc w dst.now) len c result cpu.old m.old cpu.new m.new }
{
    let a = read_rm(w, dst, &cpu.regs, m)?;
    let sum = add_flags(w, a, 1, false);
    finish(w, dst, sum.value, stepped(&sum, cpu), len, cpu, m)
}

/// DEC: the operand less 1, with CF as it is (SDM volume 2).
#[tactic(auto, unfolding(ia_inst::specs::Meaning::meaning))]
pub fn dec(w: Width, dst: &Rm, len: u8, cpu: &mut Cpu, m: &mut Memory) -> Result<(), Refused>
    requires { IsTrue (rm_valid dst.now) }
    ensures { (c : ℕ) → Does (inst.Dec w dst.now) len c result cpu.old m.old cpu.new m.new }
{
    let a = read_rm(w, dst, &cpu.regs, m)?;
    let difference = sub_flags(w, a, 1, false);
    finish(
        w,
        dst,
        difference.value,
        stepped(&difference, cpu),
        len,
        cpu,
        m,
    )
}

/// The greatest number of a width.
fn greatest(w: Width) -> u32
    ensures { result ≡ 2 ^ bits_of w - 1 }
{
    match w {
        Width::B8 => 0xFF,
        Width::B16 => 0xFFFF,
        Width::B32 => 0xFFFF_FFFF,
    }
}

/// NOT: each bit turned over, with no flag changed (SDM volume 2).
#[tactic(auto, unfolding(ia_inst::specs::Meaning::meaning))]
pub fn not(w: Width, dst: &Rm, len: u8, cpu: &mut Cpu, m: &mut Memory) -> Result<(), Refused>
    requires { IsTrue (rm_valid dst.now) }
    ensures { (c : ℕ) → Does (inst.Not w dst.now) len c result cpu.old m.old cpu.new m.new }
{
    let a = read_rm(w, dst, &cpu.regs, m)?;
    finish_plain(w, dst, greatest(w) - a, len, cpu, m)
}

/// NEG: 0 less the operand; CF is clear exactly where it is 0 (SDM volume 2).
#[tactic(auto, unfolding(ia_inst::specs::Meaning::meaning))]
pub fn neg(w: Width, dst: &Rm, len: u8, cpu: &mut Cpu, m: &mut Memory) -> Result<(), Refused>
    requires { IsTrue (rm_valid dst.now) }
    ensures { (c : ℕ) → Does (inst.Neg w dst.now) len c result cpu.old m.old cpu.new m.new }
{
    let a = read_rm(w, dst, &cpu.regs, m)?;
    let difference = sub_flags(w, 0, a, false);
    finish(w, dst, difference.value, set(difference.flags), len, cpu, m)
}
