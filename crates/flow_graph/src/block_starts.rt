//! The starts of blocks, and how far each block goes.
ghost use Rattle.std.specs.Prelude.{◌≡◌, ℕ, ◌+◌, ◌<◌, ◌≤◌, ◌⊎◌, IfOk, IfErr, OnOk, OnErr, IsTrue, All, vec_len, Some, false};
ghost use Rattle.std.specs.Ordering.{nat_cmp};
ghost use Rattle.std.specs.BTreeMap.{IsOrdered, IsUnchanged, Updates, btree_map_len};
ghost use Rattle.elf_read.specs.Elf.{IsGuest, is_exec};
ghost use Rattle.run_model.specs.Edges.{Edge};
ghost use Rattle.flow_graph.specs.Graph.{IsReached, AreStarts, HasTooMany};
ghost use Rattle.block_cut.specs.Blocks.{block_of, cut_of};
ghost use Rattle.flow_graph.specs.BlockRows.{AreKnown};
ghost use Rattle.flow_graph.specs.CutStarts.{IsCutBlock, starts_with, has_start, AreCut, FollowEach};
ghost use Rattle.flow_graph.specs.declared.error.GraphError.TheVariants.{Blocks};

use crate::block_rows::BlockRow;
use crate::error::{GraphError, MAX_BLOCKS};
use crate::index_search::index_among;
use block_cut::{Cut, cut, start_behind};
use elf_read::Exe;
use std::alloc::{AllocError, Global};
use std::collections::BTreeMap;

/// How far the block of a start goes: it is cut only where it is not known.
fn known_or_cut(exe: &Exe, known: &[BlockRow], start: u32) -> Cut
    requires guest { IsGuest exe.now }
    requires code { IsTrue (is_exec start exe.now.segments) }
    requires known { AreKnown exe.now known.now }
    ensures { result ≡ cut_of start (block_of exe.now start) }
{
    match index_among(known, start) {
        Some(index) => known[index].cut,
        None => cut(exe, start),
    }
}

/// Adds a start that is not there. The error is want of memory, and nothing is then added.
fn keep(blocks: &mut BTreeMap<u32, Cut>, start: u32, block: Cut) -> Result<(), AllocError>
    requires { has_start blocks.old start ≡ false }
    ensures updates { OnOk result (Updates nat_cmp blocks.old blocks.new start (Some block)) }
    ensures len { OnOk result (btree_map_len blocks.new ≡ btree_map_len blocks.old + 1) }
    ensures same { OnErr result (IsUnchanged blocks.old blocks.new) }
{
    blocks.insert(start, block)?;
    Ok(())
}

/// Adds a start and what is reached from it to starts that are closed under following starts. Each block is
/// cut at most once.
fn add_start(
    exe: &Exe,
    blocks: &mut BTreeMap<u32, Cut>,
    start: u32,
    known: &[BlockRow],
) -> Result<(), GraphError>
    requires guest { IsGuest exe.now }
    requires code { IsTrue (is_exec start exe.now.segments) }
    requires few { btree_map_len blocks.old ≤ MAX_BLOCKS }
    requires cut { AreCut exe.now blocks.old }
    requires closed { FollowEach exe.now blocks.old }
    requires known { AreKnown exe.now known.now }
    ensures sound { (t : ℕ) → IsTrue (has_start blocks.new t) → IsTrue (has_start blocks.old t) ⊎ IsReached exe.now start t }
    ensures keeps { (t : ℕ) → IsTrue (has_start blocks.old t) → IsTrue (has_start blocks.new t) }
    ensures few { OnOk result (btree_map_len blocks.new ≤ MAX_BLOCKS) }
    ensures added { OnOk result (IsTrue (has_start blocks.new start)) }
    ensures cut { OnOk result (AreCut exe.now blocks.new) }
    ensures closed { OnOk result (FollowEach exe.now blocks.new) }
    ensures many { IfErr result (λ e. e ≡ Blocks → (MAX_BLOCKS < btree_map_len blocks.new) × IsOrdered nat_cmp blocks.new) }
{
    let mut next = start;
    while !blocks.contains_key(&next) {
        let block = known_or_cut(exe, known, next);
        keep(blocks, next, block)?;
        if blocks.len() > MAX_BLOCKS as usize {
            return Err(GraphError::Blocks);
        }
        match start_behind(exe, next, &block) {
            Some(t) => next = t,
            None => return Ok(()),
        }
    }
    Ok(())
}

/// The starts and their cuts, ascending.
fn listed(alloc: Global, blocks: BTreeMap<u32, Cut>) -> Result<Vec<(u32, Cut)>, AllocError>
    ensures items { IfOk result (λ v. v.items ≡ blocks.entries) }
    ensures ordered { IsOrdered nat_cmp blocks }
{
    blocks.into_iter().collect(alloc)
}

/// The starts of blocks, ascending, each with the cut of its block, of edges that count. A block that is
/// known is not cut again.
pub fn blocks_of(
    alloc: Global,
    exe: &Exe,
    counted: &[(u32, u32)],
    known: &[BlockRow],
) -> Result<Vec<(u32, Cut)>, GraphError>
    requires guest { IsGuest exe.now }
    requires code { All (λ (e : Edge). IsTrue (is_exec e.1 exe.now.segments)) counted.now }
    requires known { AreKnown exe.now known.now }
    ensures starts { IfOk result (λ v. AreStarts exe.now counted.now (starts_with v.items)) }
    ensures cut { IfOk result (λ v. All (IsCutBlock exe.now) v.items) }
    ensures few { IfOk result (λ v. vec_len v ≤ MAX_BLOCKS) }
    ensures many { IfErr result (λ e. e ≡ Blocks → HasTooMany exe.now counted.now) }
{
    let mut blocks = BTreeMap::new(alloc);
    for edge in counted {
        match add_start(exe, &mut blocks, edge.1, known) {
            Ok(()) => {}
            Err(e) => return Err(e),
        }
    }
    Ok(listed(alloc, blocks)?)
}
