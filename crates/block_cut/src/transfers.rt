//! Where transfers lead.
ghost use Rattle.std.specs.Prelude.{◌≡◌};
ghost use Rattle.elf_read.specs.Elf.{IsGuest};
ghost use Rattle.block_cut.specs.Transfers.{leads_to};

use crate::places::placed;
use elf_read::Exe;
use ia_inst::Inst;

/// Whether a transfer at the address `site` may lead to the address `target`: an indirect one to each
/// address, a conditional jump to its target and to the address after it, a jump or a call to its target.
/// Where no transfer stands, as in no executable segment, it is false. The call takes no memory.
pub fn leads(exe: &Exe, site: u32, target: u32) -> bool
    requires { IsGuest exe.now }
    ensures { result ≡ leads_to exe.now site target }
{
    let Some((inst, len)) = placed(exe, site) else {
        return false;
    };
    let next = site + len as u32;
    match inst {
        Inst::Jcc { rel, .. } => target == next.wrapping_add(rel) || target == next,
        Inst::Jmp { rel } | Inst::Call { rel } => target == next.wrapping_add(rel),
        Inst::JmpRm { .. } | Inst::CallRm { .. } | Inst::Ret { .. } => true,
        _ => false,
    }
}
