//! The search for cold starts.
ghost use Rattle.std.specs.Prelude.{◌≡◌, ◌<◌, ◌≤◌, IfOk, IfErr, OnOk, [], length, vec_len, option_to_list};
ghost use Rattle.std.specs.Ordering.{nat_cmp};
ghost use Rattle.std.specs.BTreeSet.{IsOrdered, IsEmpty, btree_set_len};
ghost use Rattle.elf_read.specs.Elf.{IsGuest};
ghost use Rattle.flow_graph.specs.Graph.{AreCode, AreCutsOf, starts_in};
ghost use Rattle.cold_set.specs.ColdStarts.{is_free, roots, cold_list};
ghost use Rattle.cold_set.specs.Meets.{Meets, IsMany, IsFound, ways_in};
ghost use Rattle.cold_set.specs.declared.error.ColdSetError.TheVariants.{Cold};

use crate::error::{ColdSetError, MAX_COLD};
use crate::ways::{Ways, block_ways, cold_ways};
use elf_read::{Exe, in_exec};
use flow_graph::Graph;
use std::alloc::{AllocError, Global};
use std::collections::BTreeSet;

/// Whether an address lies in an executable segment and no block starts there.
fn is_free(exe: &Exe, graph: &Graph, address: u32) -> bool
    requires { IsGuest exe.now }
    ensures { result ≡ is_free exe.now (starts_in graph.now.nodes) address }
{
    in_exec(exe, address) && graph.index_of(address).is_none()
}

/// Meets an address, where there is one: if it is free and new, it joins the set and the list.
fn meet(
    exe: &Exe,
    graph: &Graph,
    found: &mut BTreeSet<u32>,
    todo: &mut Vec<u32>,
    way: Option<u32>,
) -> Result<(), AllocError>
    requires { IsGuest exe.now }
    ensures { OnOk result (Meets exe.now (starts_in graph.now.nodes) (option_to_list way) found.old.keys todo.old.items found.new.keys todo.new.items) }
{
    if let Some(address) = way {
        if is_free(exe, graph, address) && found.insert(address)? {
            todo.push(address)?;
        }
    }
    Ok(())
}

/// Meets the addresses of ways.
fn meet_ways(
    exe: &Exe,
    graph: &Graph,
    found: &mut BTreeSet<u32>,
    todo: &mut Vec<u32>,
    ways: Ways,
) -> Result<(), AllocError>
    requires { IsGuest exe.now }
    ensures { OnOk result (Meets exe.now (starts_in graph.now.nodes) (ways_in ways) found.old.keys todo.old.items found.new.keys todo.new.items) }
{
    meet(exe, graph, found, todo, ways.first)?;
    meet(exe, graph, found, todo, ways.second)
}

/// Meets the roots: the entry, and where the blocks of a graph go on. The set and the list are empty before.
fn meet_roots(
    exe: &Exe,
    graph: &Graph,
    found: &mut BTreeSet<u32>,
    todo: &mut Vec<u32>,
) -> Result<(), ColdSetError>
    requires guest { IsGuest exe.now }
    requires cuts { AreCutsOf exe.now graph.now }
    requires code { AreCode exe.now graph.now.nodes }
    requires none { IsEmpty found.old }
    requires nothing { todo.old.items ≡ [] }
    ensures met { OnOk result (Meets exe.now (starts_in graph.now.nodes) (roots exe.now (starts_in graph.now.nodes)) [] [] found.new.keys todo.new.items) }
    ensures few { OnOk result (btree_set_len found.new ≤ MAX_COLD) }
    ensures many { IfErr result (λ e. e ≡ Cold → IsMany exe.now (starts_in graph.now.nodes) found.new) }
{
    meet(exe, graph, found, todo, Some(exe.entry))?;
    for index in 0..graph.len() {
        let start = graph.start(index);
        let ways = block_ways(exe, start, &graph.cut(index));
        meet_ways(exe, graph, found, todo, ways)?;
        if found.len() > MAX_COLD as usize {
            return Err(ColdSetError::Cold);
        }
    }
    Ok(())
}

/// Meets the ways of each address of the list, and of each that joins it.
fn meet_all(
    exe: &Exe,
    graph: &Graph,
    found: &mut BTreeSet<u32>,
    todo: &mut Vec<u32>,
) -> Result<(), ColdSetError>
    requires guest { IsGuest exe.now }
    requires few { btree_set_len found.old ≤ MAX_COLD }
    requires met { Meets exe.now (starts_in graph.now.nodes) (roots exe.now (starts_in graph.now.nodes)) [] [] found.old.keys todo.old.items }
    ensures all { OnOk result (IsFound exe.now (starts_in graph.now.nodes) found.new) }
    ensures few { OnOk result (btree_set_len found.new ≤ MAX_COLD) }
    ensures many { IfErr result (λ e. e ≡ Cold → IsMany exe.now (starts_in graph.now.nodes) found.new) }
{
    while let Some(address) = todo.pop() {
        let ways = cold_ways(exe, address);
        meet_ways(exe, graph, found, todo, ways)?;
        if found.len() > MAX_COLD as usize {
            return Err(ColdSetError::Cold);
        }
    }
    Ok(())
}

/// The members of a set, ascending.
fn listed(alloc: Global, found: BTreeSet<u32>) -> Result<Vec<u32>, AllocError>
    ensures items { IfOk result (λ v. v.items ≡ found.keys) }
    ensures ordered { IsOrdered nat_cmp found }
{
    found.into_iter().collect(alloc)
}

/// The cold starts of an executable and a graph of it, ascending: the least set of addresses that lie in an executable segment,
/// are no starts of blocks, and are one of these: the entry; a direct target of the transfer of a block or of a cold block, for a
/// conditional jump also the address after it; the address after a call that ends one; the address behind a block at which no
/// instruction stands; the address after a cold block of 64 instructions without a transfer. A cold block is what
/// `cold_cut::cut_cold` cuts. The work grows with the number of blocks and cold starts, times a logarithm; each cold block is cut once.
///
/// Errors: [`ColdSetError::Cold`] exactly where there are more than [`MAX_COLD`], and [`ColdSetError::Memory`] for want of
/// memory.
pub fn cold_starts(alloc: Global, exe: &Exe, graph: &Graph) -> Result<Vec<u32>, ColdSetError>
    requires guest { IsGuest exe.now }
    requires cuts { AreCutsOf exe.now graph.now }
    requires code { AreCode exe.now graph.now.nodes }
    ensures list { IfOk result (λ v. v.items ≡ cold_list exe.now (starts_in graph.now.nodes)) }
    ensures few { IfOk result (λ v. vec_len v ≤ MAX_COLD) }
    ensures many { IfErr result (λ e. e ≡ Cold → MAX_COLD < length (cold_list exe.now (starts_in graph.now.nodes))) }
{
    let mut found = BTreeSet::new(alloc);
    let mut todo = Vec::new(alloc);
    match meet_roots(exe, graph, &mut found, &mut todo) {
        Ok(()) => {}
        Err(error) => return Err(error),
    }
    match meet_all(exe, graph, &mut found, &mut todo) {
        Ok(()) => {}
        Err(error) => return Err(error),
    }
    Ok(listed(alloc, found)?)
}
