//! Flags after a step, with their marks.

ghost use Rattle.std.specs.Prelude.{◌≡◌, ◌<◌, true};
ghost use Rattle.br_word.specs.State.{all_flags};
ghost use Rattle.ia_inst.specs.Act.{choice_bit, flag_after};
ghost use Rattle.ia_inst.specs.Meaning.{set_if};
ghost use Rattle.ia_meaning.specs.Effect.{status_after, changes_to};

use crate::cpu::Cpu;
use br_word::{Flags, Sum};

/// The flags and which of them are defined.
#[derive(Clone, Copy, Debug)]
pub struct Status {
    /// The flags.
    pub flags: Flags,
    /// Which of them are defined.
    pub known: Flags,
}

/// Each flag set.
const ALL: Flags = Flags {
    cf: true,
    pf: true,
    zf: true,
    sf: true,
    of: true,
};

/// All flags as they are.
pub fn kept(cpu: &Cpu) -> Status
    ensures { result ≡ record { flags = cpu.now.flags; known = cpu.now.known } }
{
    Status {
        flags: cpu.flags,
        known: cpu.known,
    }
}

/// All flags set.
pub fn set(flags: Flags) -> Status
    ensures { result ≡ record { flags = flags; known = all_flags true } }
{
    Status { flags, known: ALL }
}

/// All flags set but CF, which is as it is.
pub fn stepped(sum: &Sum, cpu: &Cpu) -> Status
    ensures { result ≡ record {
      flags = record sum.now.flags { cf = cpu.now.flags.cf };
      known = record (all_flags true) { cf = cpu.now.known.cf };
    } }
{
    Status {
        flags: Flags {
            cf: cpu.flags.cf,
            pf: sum.flags.pf,
            zf: sum.flags.zf,
            sf: sum.flags.sf,
            of: sum.flags.of,
        },
        known: Flags {
            cf: cpu.known.cf,
            pf: true,
            zf: true,
            sf: true,
            of: true,
        },
    }
}

/// Bit k of the choice.
#[tactic(auto, unfolding(ia_inst::specs::Act::choice_bit))]
pub fn chosen(choice: u8, k: u8) -> bool
    requires { k < 5 }
    ensures { result ≡ choice_bit k choice }
{
    (choice >> k) % 2 == 1
}

/// The flags that are known set, and the others by the choice.
pub fn changed(known: Flags, flags: Flags, cpu: &Cpu, choice: u8) -> Status
    ensures { result ≡ status_after (changes_to known flags) cpu.now choice }
{
    Status {
        flags: Flags {
            cf: either(known.cf, flags.cf, chosen(choice, 0)),
            pf: either(known.pf, flags.pf, chosen(choice, 1)),
            zf: either(known.zf, flags.zf, chosen(choice, 2)),
            sf: either(known.sf, flags.sf, chosen(choice, 3)),
            of: either(known.of, flags.of, chosen(choice, 4)),
        },
        known,
    }
}

/// A flag, or a bit of the choice where it is left undefined.
pub fn either(known: bool, flag: bool, choice: bool) -> bool
    ensures { result ≡ flag_after (set_if known flag) flag choice }
{
    if known { flag } else { choice }
}
