//! Shifts and rotations, and SAHF.

ghost use Rattle.std.specs.Prelude.{◌≡◌, ℕ, ◌<◌, ◌^◌, ◌/◌, ◌%◌, ◌==◌, IsTrue, Ok};
ghost use Rattle.br_word.specs.Words.{bits_of};
ghost use Rattle.ia_inst.specs.Canonical.{rm_valid};
ghost use Rattle.ia_inst.specs.declared.inst.Inst.TheVariants as inst;
ghost use Rattle.ia_inst.specs.Meaning.{count_of, shifted, rotated, rotate_changes, bit_of};
ghost use Rattle.guest_mem.specs.View.{MemoryView};
ghost use Rattle.ia_meaning.specs.Effect.{status_after, Does};

use crate::cpu::{Cpu, Refused};
use crate::finish::{finish, settle};
use crate::operand::{read_rm, reg};
use crate::status::{Status, changed, chosen, kept};
use crate::wide::{rotate_left, rotate_right};
use br_word::{Flags, ShiftOp, Width, shift_result};
use guest_mem::Memory;
use ia_inst::{Count, Rm};

/// A value, and the flags after it.
#[derive(Clone, Copy, Debug)]
struct Worked {
    value: u32,
    after: Status,
}

/// The count modulo 32.
fn count_of(count: &Count, regs: &[u32; 8]) -> u32
    ensures value { result ≡ count_of count.now regs.now }
    ensures fits { result < 32 }
{
    match count {
        Count::Imm(n) => *n as u32 % 32,
        Count::Cl => reg(regs, Width::B8, 1) % 32,
    }
}

/// A count of 0 keeps the value and the flags.
fn untouched(a: u32, cpu: &Cpu) -> Worked
    ensures value { result.value ≡ a }
    ensures after { result.after ≡ record { flags = cpu.now.flags; known = cpu.now.known } }
{
    Worked {
        value: a,
        after: kept(cpu),
    }
}

/// A shift by 0 to 31 of a value, and its flags (SDM volume 2, SAL/SAR/SHL/SHR).
fn shifted(op: ShiftOp, w: Width, a: u32, n: u32, cpu: &Cpu, choice: u8) -> Worked
    requires a_fits { a < 2 ^ bits_of w }
    requires n_fits { n < 32 }
    ensures value { result.value ≡ (shifted op w a n).value }
    ensures after { result.after ≡ status_after (shifted op w a n).changes cpu.now choice }
    ensures fits { result.value < 2 ^ bits_of w }
{
    if n == 0 {
        return untouched(a, cpu);
    }
    let r = shift_result(op, w, a, n);
    let known = Flags {
        cf: r.cf_known,
        pf: true,
        zf: true,
        sf: true,
        of: r.of_known,
    };
    Worked {
        value: r.value,
        after: changed(known, r.flags, cpu, choice),
    }
}

/// SHL, SHR and SAR by a count modulo 32 (SDM volume 2).
#[tactic(auto, unfolding(ia_inst::specs::Meaning::meaning))]
pub fn shift(
    op: ShiftOp,
    w: Width,
    dst: &Rm,
    count: &Count,
    len: u8,
    cpu: &mut Cpu,
    m: &mut Memory,
    choice: u8,
) -> Result<(), Refused>
    requires { IsTrue (rm_valid dst.now) }
    ensures { Does (inst.Shift op w dst.now count.now) len choice result cpu.old m.old cpu.new m.new }
{
    let a = read_rm(w, dst, &cpu.regs, m)?;
    let n = count_of(count, &cpu.regs);
    let r = shifted(op, w, a, n, cpu, choice);
    finish(w, dst, r.value, r.after, len, cpu, m)
}

/// CF is the bit that came round last. OF is set for a count of 1 alone, and the other flags are kept.
fn rotate_status(right: bool, r: u32, n: u32, cpu: &Cpu, choice: u8) -> Status
    ensures { result ≡ status_after (rotate_changes right r n) cpu.now choice }
{
    let top = r >= 0x8000_0000;
    let cf = if right { top } else { r % 2 == 1 };
    let below = if right { (r >> 30) % 2 == 1 } else { cf };
    Status {
        flags: Flags {
            cf,
            pf: cpu.flags.pf,
            zf: cpu.flags.zf,
            sf: cpu.flags.sf,
            of: if n == 1 {
                top != below
            } else {
                chosen(choice, 4)
            },
        },
        known: Flags {
            cf: true,
            pf: cpu.known.pf,
            zf: cpu.known.zf,
            sf: cpu.known.sf,
            of: n == 1,
        },
    }
}

/// A rotation by 0 to 31 of a word, and its flags (SDM volume 2, RCL/RCR/ROL/ROR).
fn rotated(right: bool, a: u32, n: u32, cpu: &Cpu, choice: u8) -> Worked
    requires { n < 32 }
    ensures value { result.value ≡ (rotated right a n).value }
    ensures after { result.after ≡ status_after (rotated right a n).changes cpu.now choice }
{
    if n == 0 {
        return untouched(a, cpu);
    }
    let value = if right {
        rotate_right(a, n)
    } else {
        rotate_left(a, n)
    };
    Worked {
        value,
        after: rotate_status(right, value, n, cpu, choice),
    }
}

/// ROL and ROR of 32 bits by a count modulo 32 (SDM volume 2).
#[tactic(auto, unfolding(ia_inst::specs::Meaning::meaning))]
pub fn rotate(
    right: bool,
    dst: &Rm,
    count: &Count,
    len: u8,
    cpu: &mut Cpu,
    m: &mut Memory,
    choice: u8,
) -> Result<(), Refused>
    requires { IsTrue (rm_valid dst.now) }
    ensures { Does (inst.Rotate right dst.now count.now) len choice result cpu.old m.old cpu.new m.new }
{
    let a = read_rm(Width::B32, dst, &cpu.regs, m)?;
    let n = count_of(count, &cpu.regs);
    let r = rotated(right, a, n, cpu, choice);
    finish(Width::B32, dst, r.value, r.after, len, cpu, m)
}

/// SAHF: CF, PF, ZF and SF become bits 0, 2, 6 and 7 of ah (SDM volume 2).
#[tactic(auto, unfolding(ia_inst::specs::Meaning::meaning))]
pub fn sahf(len: u8, cpu: &mut Cpu)
    ensures { (c : ℕ) (m : MemoryView) → Does inst.Sahf len c (Ok tt) cpu.old m cpu.new m }
{
    let ah = reg(&cpu.regs, Width::B8, 4);
    let flags = Flags {
        cf: ah % 2 == 1,
        pf: (ah >> 2) % 2 == 1,
        zf: (ah >> 6) % 2 == 1,
        sf: (ah >> 7) % 2 == 1,
        of: cpu.flags.of,
    };
    let known = Flags {
        cf: true,
        pf: true,
        zf: true,
        sf: true,
        of: cpu.known.of,
    };
    settle(Status { flags, known }, len, cpu);
}
