//! The processor, and how a step ends.

ghost use Rattle.std.specs.Prelude.{◌≡◌, ◌+◌};
ghost use Rattle.ia_inst.specs.Meaning.{wrap};

use br_word::{Flags, GuestFault};

/// The processor of a guest (SDM volume 1, 3.4).
#[derive(Clone, Copy, Debug, PartialEq, Eq)]
pub struct Cpu {
    /// eax, ecx, edx, ebx, esp, ebp, esi, edi.
    pub regs: [u32; 8],
    /// The address of the next instruction (SDM volume 1, 3.5).
    pub eip: u32,
    /// The status flags CF, PF, ZF, SF and OF (SDM volume 1, 3.4.3.1). Each has a value also where it is not defined.
    pub flags: Flags,
    /// DF: strings go down (SDM volume 1, 3.4.3.2).
    pub df: bool,
    /// Which of the flags are defined.
    pub known: Flags,
    /// How many steps read a flag that was not defined.
    pub undefined: u64,
}

/// How a step ends.
#[derive(Clone, Copy, Debug, PartialEq, Eq)]
pub enum Outcome {
    /// It went on to the next instruction.
    Next,
    /// It was int 0x80, and nothing was done but to move eip past it.
    Trap,
    /// It faulted, and nothing was changed.
    Fault(GuestFault),
}

/// Why an instruction was not carried out.
#[derive(Clone, Copy, Debug, PartialEq, Eq)]
pub enum Refused {
    /// The access at this address is not allowed.
    Access(u32),
    /// The divisor is 0, or the quotient does not fit.
    Division,
}

/// The address after an instruction of so many bytes.
pub fn next_of(cpu: &Cpu, len: u8) -> u32
    ensures { result ≡ wrap (cpu.now.eip + len) }
{
    cpu.eip.wrapping_add(len as u32)
}
