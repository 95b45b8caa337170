//! The last part of an instruction.

ghost use Rattle.std.specs.Prelude.{◌≡◌, ℕ, ◌+◌, ◌<◌, ◌^◌, IsTrue, List};
ghost use Rattle.br_word.specs.Words.{bits_of};
ghost use Rattle.ia_inst.specs.Canonical.{rm_valid};
ghost use Rattle.ia_inst.specs.Act.{Past, Ends, perform};
ghost use Rattle.ia_inst.specs.Meaning.{Result, wrap, to_rm, no_changes};
ghost use Rattle.ia_meaning.specs.Effect.{view, status_after, Goes};

use crate::cpu::{Cpu, Refused, next_of};
use crate::operand::write_rm;
use crate::status::{Status, kept};
use br_word::Width;
use guest_mem::Memory;
use ia_inst::Rm;

/// The flags are set, and eip moves on.
pub fn settle(after: Status, len: u8, cpu: &mut Cpu)
    ensures { cpu.new ≡ record cpu.old { flags = after.flags; known = after.known; eip = wrap (cpu.old.eip + len) } }
{
    cpu.eip = next_of(cpu, len);
    cpu.flags = after.flags;
    cpu.known = after.known;
}

/// A value goes to its destination, the flags are set, and eip moves on.
pub fn finish(
    w: Width,
    dst: &Rm,
    v: u32,
    after: Status,
    len: u8,
    cpu: &mut Cpu,
    m: &mut Memory,
) -> Result<(), Refused>
    requires dst { IsTrue (rm_valid dst.now) }
    requires value { v < 2 ^ bits_of w }
    ensures { (r : Result) (c : ℕ) → v ≡ r.value → after ≡ status_after r.changes cpu.old c
        → Goes (perform (to_rm w dst.now r.value cpu.old.regs (λ regs. Ends regs cpu.old.df r.changes (Past len)))
        c (view cpu.old) m.old.regions)
        result cpu.old m.old cpu.new m.new }
{
    write_rm(w, dst, v, &mut cpu.regs, m)?;
    settle(after, len, cpu);
    Ok(())
}

/// The same with the flags as they are.
pub fn finish_plain(
    w: Width,
    dst: &Rm,
    v: u32,
    len: u8,
    cpu: &mut Cpu,
    m: &mut Memory,
) -> Result<(), Refused>
    requires dst { IsTrue (rm_valid dst.now) }
    requires value { v < 2 ^ bits_of w }
    ensures { (c : ℕ)
        → Goes (perform (to_rm w dst.now v cpu.old.regs (λ regs. Ends regs cpu.old.df no_changes (Past len)))
        c (view cpu.old) m.old.regions)
        result cpu.old m.old cpu.new m.new }
{
    finish(w, dst, v, kept(cpu), len, cpu, m)
}
