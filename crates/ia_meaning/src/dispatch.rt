//! One instruction.

ghost use Rattle.std.specs.Prelude.{◌≡◌, ◌+◌, ◌-◌, ◌<◌, ◌/◌, ◌%◌, ◌^◌, ◌==◌, ◌&&◌, ◌||◌, ℕ, not, IsTrue};
ghost use Rattle.br_word.specs.Words.{bit};
ghost use Rattle.ia_inst.specs.Canonical.{valid_of};
ghost use Rattle.ia_inst.specs.Kinds.{flags_read};
ghost use Rattle.ia_inst.specs.Act.{perform};
ghost use Rattle.ia_inst.specs.Meaning.{meaning};
ghost use Rattle.ia_inst.specs.Step.{some_unmarked};
ghost use Rattle.ia_inst.specs.declared.inst.Inst.TheVariants as inst;
ghost use Rattle.ia_meaning.specs.Effect.{view, Does, Comes};

use crate::arithmetic::{alu, dec, inc, neg, not, test};
use crate::control::{call, call_rm, cmov, jcc, jmp, jmp_rm, nop, ret, setcc};
use crate::cpu::{Cpu, Outcome, Refused, next_of};
use crate::moves::{cdq, cwde, extend, lea, mov, xchg};
use crate::multiply::{imul, muldiv};
use crate::shift::{rotate, sahf, shift};
use crate::stack::{leave, pop, push};
use crate::string::{clear_direction, movs, set_direction, stos};
use br_word::{Flags, GuestFault};
use guest_mem::Memory;
use ia_inst::{Inst, reads_flags};

/// The instruction is carried out, or refused with nothing changed. A trap is left to the caller.
fn carry_out(i: &Inst, len: u8, cpu: &mut Cpu, m: &mut Memory, choice: u8) -> Result<(), Refused>
    requires valid { IsTrue (valid_of i.now) }
    requires no_trap { i.now ≡ inst.Int80 → ⊥ }
    ensures { Does i.now len choice result cpu.old m.old cpu.new m.new }
{
    match i {
        Inst::Alu { op, w, dst, src } => alu(*op, *w, dst, src, len, cpu, m),
        Inst::Test { w, dst, src } => test(*w, dst, src, len, cpu, m),
        Inst::Mov { w, dst, src } => mov(*w, dst, src, len, cpu, m),
        Inst::Lea { w, dst, addr } => {
            lea(*w, *dst, addr, len, cpu);
            Ok(())
        }
        Inst::Xchg { w, dst, reg } => xchg(*w, dst, *reg, len, cpu, m),
        Inst::Inc { w, dst } => inc(*w, dst, len, cpu, m),
        Inst::Dec { w, dst } => dec(*w, dst, len, cpu, m),
        Inst::Not { w, dst } => not(*w, dst, len, cpu, m),
        Inst::Neg { w, dst } => neg(*w, dst, len, cpu, m),
        Inst::Push { src } => push(src, len, cpu, m),
        Inst::Pop { dst } => pop(dst, len, cpu, m),
        Inst::MulDiv { op, src } => muldiv(*op, src, len, cpu, m, choice),
        Inst::Imul { dst, src, by } => imul(*dst, src, *by, len, cpu, m, choice),
        Inst::Shift { op, w, dst, count } => { shift(*op, *w, dst, count, len, cpu, m, choice) }
        Inst::Rotate { right, dst, count } => { rotate(*right, dst, count, len, cpu, m, choice) }
        Inst::Cwde => {
            cwde(len, cpu);
            Ok(())
        }
        Inst::Cdq => {
            cdq(len, cpu);
            Ok(())
        }
        Inst::Extend {
            signed,
            from,
            to,
            dst,
            src,
        } => { extend(*signed, *from, *to, *dst, src, len, cpu, m) }
        Inst::Setcc { cond, dst } => setcc(*cond, dst, len, cpu, m),
        Inst::Cmov { cond, dst, src } => cmov(*cond, *dst, src, len, cpu, m),
        Inst::Jcc { cond, rel } => {
            jcc(*cond, *rel, len, cpu);
            Ok(())
        }
        Inst::Jmp { rel } => {
            jmp(*rel, len, cpu);
            Ok(())
        }
        Inst::JmpRm { target } => jmp_rm(target, cpu, m),
        Inst::Call { rel } => call(*rel, len, cpu, m),
        Inst::CallRm { target } => call_rm(target, len, cpu, m),
        Inst::Ret { pop } => ret(*pop, cpu, m),
        Inst::Leave => leave(len, cpu, m),
        Inst::Movs { w, rep } => movs(*w, *rep, len, cpu, m),
        Inst::Stos { w, rep } => stos(*w, *rep, len, cpu, m),
        Inst::Cld => {
            clear_direction(len, cpu);
            Ok(())
        }
        Inst::Std => {
            set_direction(len, cpu);
            Ok(())
        }
        Inst::Sahf => {
            sahf(len, cpu);
            Ok(())
        }
        Inst::Nop => {
            nop(len, cpu);
            Ok(())
        }
        Inst::Int80 => Ok(()),
    }
}

/// Some flag of these bits is not defined.
fn some_undefined(bits: u8, known: &Flags) -> bool
    ensures { result ≡ ((bits % 2 == 1) && not known.now.cf || (bits / 2 % 2 == 1) && not known.now.pf
        || (bits / 4 % 2 == 1) && not known.now.zf || (bits / 8 % 2 == 1) && not known.now.sf
        || (bits / 16 % 2 == 1) && not known.now.of) }
{
    (bits % 2 == 1 && !known.cf)
        || (bits / 2 % 2 == 1 && !known.pf)
        || (bits / 4 % 2 == 1 && !known.zf)
        || (bits / 8 % 2 == 1 && !known.sf)
        || (bits / 16 % 2 == 1 && !known.of)
}

/// Some flag that the instruction reads is not defined.
fn reads_undefined(i: &Inst, known: &Flags) -> bool
    requires { IsTrue (valid_of i.now) }
    ensures { result ≡ some_unmarked (flags_read i.now) known.now }
{
    some_undefined(reads_flags(i), known)
}

/// Counts the step where it reads a flag that is not defined.
fn count_undefined(i: &Inst, cpu: &mut Cpu)
    requires valid { IsTrue (valid_of i.now) }
    requires room { cpu.old.undefined < 2 ^ 64 - 1 }
    ensures { cpu.new ≡ record cpu.old { undefined = cpu.old.undefined + bit (some_unmarked (flags_read i.now) cpu.old.known) } }
{
    if reads_undefined(i, &cpu.known) {
        cpu.undefined += 1;
    }
}

/// Carries out a valid instruction of `len` bytes, which stands at eip.
///
/// Flags that it leaves undefined take their values from bits 0 to 4 of `choice`: CF, PF, ZF, SF and
/// OF. `Trap` is the answer to int 0x80, of which nothing is done but to move eip past it. `Fault` is
/// the answer where an access is not allowed, with its address, or where a division has no quotient of
/// 32 bits, with eip: registers, flags, eip and memory are then as they were. In every case the count
/// `undefined` rises by one where the instruction reads a flag that is not defined, and else stays.
#[tactic(auto, unfolding(ia_inst::specs::Meaning::meaning))]
pub fn execute(i: &Inst, len: u8, cpu: &mut Cpu, m: &mut Memory, choice: u8) -> Outcome
    requires valid { IsTrue (valid_of i.now) }
    requires room { cpu.old.undefined < 2 ^ 64 - 1 }
    ensures effect { Comes (perform (meaning i.now len cpu.old.regs cpu.old.eip cpu.old.df) choice (view cpu.old) m.old.regions)
        result cpu.old m.old cpu.new m.new }
    ensures undefined { cpu.new.undefined ≡ cpu.old.undefined + bit (some_unmarked (flags_read i.now) cpu.old.known) }
{
    count_undefined(i, cpu);
    if let Inst::Int80 = i {
        cpu.eip = next_of(cpu, len);
        return Outcome::Trap;
    }
    match carry_out(i, len, cpu, m, choice) {
        Ok(()) => Outcome::Next,
        Err(Refused::Access(at)) => Outcome::Fault(GuestFault::Access(at)),
        Err(Refused::Division) => Outcome::Fault(GuestFault::Divide(cpu.eip)),
    }
}

#[cfg(test)]
mod tests;
