//! The starts of blocks that have a re-entry.
ghost use Rattle.std.specs.Prelude.{◌≡◌, ℕ, IfOk};
ghost use Rattle.std.specs.Ordering.{nat_cmp};
ghost use Rattle.std.specs.BTreeSet.{contains};
ghost use Rattle.block_cut.specs.Transfers.{is_among};
ghost use Rattle.elf_read.specs.declared.exe.Exe.{Exe};
ghost use Rattle.flow_graph.specs.Graph.{AreCutsOf, starts_in};
ghost use Rattle.cold_copy.specs.ColdCode.{reentered_from};

use elf_read::Exe;
use flow_graph::Graph;
use std::alloc::{AllocError, Global};
use std::collections::BTreeSet;

/// These addresses, each once. An error comes for want of memory.
fn set_of(alloc: Global, outs: &[u32]) -> Result<BTreeSet<u32>, AllocError>
    ensures { IfOk result (λ s. (y : ℕ) → contains nat_cmp s y ≡ is_among outs.now y) }
{
    let mut set = BTreeSet::new(alloc);
    for out in outs {
        set.insert(*out)?;
    }
    Ok(set)
}

/// The starts of blocks that are not empty to which one of these addresses leads, ascending. An error comes for want of memory.
pub fn reentered(
    alloc: Global,
    exe: &Exe,
    graph: &Graph,
    outs: &[u32],
) -> Result<Vec<u32>, AllocError>
    requires { AreCutsOf exe.now graph.now }
    ensures { IfOk result (λ v. v.items ≡ reentered_from exe.now outs.now (starts_in graph.now.nodes)) }
{
    let set = set_of(alloc, outs)?;
    let mut found = Vec::new(alloc);
    for index in 0..graph.len() {
        let start = graph.start(index);
        if graph.cut(index).count > 0 && set.contains(&start) {
            found.push(start)?;
        }
    }
    Ok(found)
}
