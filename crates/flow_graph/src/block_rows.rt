//! The rows of a graph.
ghost use Rattle.std.specs.Prelude.{◌≡◌, ◌+◌, ◌-◌, ◌<◌, ◌^◌, IsTrue, IfOk, All, option_to_list, length, map, vec_len, true};
ghost use Rattle.elf_read.specs.Elf.{IsGuest, is_exec};
ghost use Rattle.run_model.specs.Edges.{Edge};
ghost use Rattle.trace_file.specs.Edges.{ascends};
ghost use Rattle.block_cut.specs.Blocks.{block_of, cut_of, follow_of};
ghost use Rattle.flow_graph.specs.Graph.{targets_from, known_of};
ghost use Rattle.flow_graph.specs.CutStarts.{IsCutBlock};
ghost use Rattle.flow_graph.specs.BlockRows.{Holds, Gains, IsMade, AreMade};

use crate::site_search::first_at;
use block_cut::{Cut, End, start_behind};
use elf_read::Exe;
use std::alloc::{AllocError, Global};

/// A block: its start, how far it goes, and where its known exits stand among all targets.
#[derive(Clone, Copy)]
pub struct BlockRow {
    /// The address of its first instruction.
    pub start: u32,
    /// How far it goes.
    pub cut: Cut,
    /// The index of its first known exit among all targets.
    pub from: u32,
    /// The index behind its last known exit.
    pub to: u32,
}

/// The row of a block that ends with a transfer.
fn transfer_row(counted: &[(u32, u32)], start: u32, cut: Cut) -> BlockRow
    requires order { ascends counted.now ≡ true }
    requires few { length counted.now < 2 ^ 32 }
    ensures { IsMade (map (λ (e : Edge). e.1) counted.now) start (targets_from cut.last counted.now) cut result }
{
    let site = cut.last as u64;
    BlockRow {
        start,
        cut,
        from: first_at(counted, site) as u32,
        to: first_at(counted, site + 1) as u32,
    }
}

/// The row of another block. Its following start becomes a target.
fn next_row(exe: &Exe, targets: &mut Vec<u32>, start: u32, cut: Cut) -> Result<BlockRow, AllocError>
    requires guest { IsGuest exe.now }
    requires code { IsTrue (is_exec start exe.now.segments) }
    requires block { cut ≡ cut_of start (block_of exe.now start) }
    requires few { vec_len targets.old < 2 ^ 32 - 1 }
    ensures gains { Gains 1 targets.old.items targets.new.items }
    ensures row { IfOk result (IsMade targets.new.items start (option_to_list (follow_of exe.now start)) cut) }
{
    let from = targets.len() as u32;
    match start_behind(exe, start, &cut) {
        Some(next) => {
            targets.push(next)?;
            Ok(BlockRow {
                start,
                cut,
                from,
                to: from + 1,
            })
        }
        None => Ok(BlockRow {
            start,
            cut,
            from,
            to: from,
        }),
    }
}

/// The row of a block.
fn row_of(
    exe: &Exe,
    counted: &[(u32, u32)],
    targets: &mut Vec<u32>,
    start: u32,
    cut: Cut,
) -> Result<BlockRow, AllocError>
    requires guest { IsGuest exe.now }
    requires block { IsCutBlock exe.now (start, cut) }
    requires order { ascends counted.now ≡ true }
    requires few { vec_len targets.old < 2 ^ 32 - 1 }
    requires holds { Holds counted.now targets.old.items }
    ensures gains { Gains 1 targets.old.items targets.new.items }
    ensures row { IfOk result (IsMade targets.new.items start (known_of exe.now counted.now start) cut) }
{
    match cut.end {
        End::Transfer => Ok(transfer_row(counted, start, cut)),
        _ => next_row(exe, targets, start, cut),
    }
}

/// The rows of blocks. Their following starts become targets.
pub fn rows_of(
    alloc: Global,
    exe: &Exe,
    counted: &[(u32, u32)],
    targets: &mut Vec<u32>,
    blocks: &[(u32, Cut)],
) -> Result<Vec<BlockRow>, AllocError>
    requires guest { IsGuest exe.now }
    requires blocks { All (IsCutBlock exe.now) blocks.now }
    requires order { ascends counted.now ≡ true }
    requires few { vec_len targets.old + length blocks.now < 2 ^ 32 }
    requires holds { Holds counted.now targets.old.items }
    ensures rows { IfOk result (λ v. AreMade targets.new.items blocks.now (known_of exe.now counted.now) v.items) }
{
    let mut rows = Vec::new(alloc);
    for block in blocks {
        rows.push(row_of(exe, counted, targets, block.0, block.1)?)?;
    }
    Ok(rows)
}
