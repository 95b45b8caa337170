//! Which edges count.
ghost use Rattle.std.specs.Prelude.{◌≡◌};
ghost use Rattle.elf_read.specs.Elf.{IsGuest};
ghost use Rattle.block_cut.specs.CountedEdges.{counts};

use crate::transfers::leads;
use elf_read::{Exe, in_exec};

/// Whether an edge counts, given by its site and its target, both addresses: the target lies in an
/// executable segment, and the edge is the pair of 0 and the entry, or a transfer at the site may lead to
/// the target. The call takes no memory.
#[tactic(auto, unfolding(crate::specs::CountedEdges::counts))]
pub fn counts(exe: &Exe, edge: (u32, u32)) -> bool
    requires { IsGuest exe.now }
    ensures { result ≡ counts exe.now edge }
{
    in_exec(exe, edge.1) && ((edge.0 == 0 && edge.1 == exe.entry) || leads(exe, edge.0, edge.1))
}
