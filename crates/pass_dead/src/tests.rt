//! Blocks, pruned by hand.

use crate::{Block, prune};
use ssa_form::{BinOp, Exit, Line, Lines, REGISTERS, Val, Width, check_block};
use std::alloc::{AllocError, Global};
use std::test::Fail;

/// An operator of two.
fn bin(op: BinOp, a: Val, b: Val) -> Line {
    Line::Bin { op, a, b }
}

/// A sum, a second that names it, a load, an address that only a store names, that store, and a sum that nothing names.
fn some_lines(alloc: Global) -> Result<Lines, AllocError> {
    let mut lines = Lines::new(alloc);
    lines.push(bin(BinOp::Add, Val::Param(0), Val::Param(1)))?;
    lines.push(bin(BinOp::Add, Val::Line(0), Val::Num(1)))?;
    lines.push(Line::Load {
        w: Width::B32,
        at: Val::Num(4096),
    })?;
    lines.push(bin(BinOp::Sub, Val::Param(4), Val::Num(4)))?;
    lines.push(Line::Store {
        w: Width::B32,
        at: Val::Line(3),
        a: Val::Num(7),
    })?;
    lines.push(bin(BinOp::Xor, Val::Line(0), Val::Line(2)))?;
    Ok(lines)
}

/// The block of these lines with an out and an exit.
fn some_block(alloc: Global, eax: Val, exit: Exit) -> Result<Block, AllocError> {
    let mut outs = [Val::Num(0); REGISTERS];
    outs[0] = eax;
    Ok(Block {
        start: 0x0804_8054,
        lines: some_lines(alloc)?,
        outs,
        exit,
    })
}

/// Whether the pruned block is checked and has just these lines left.
fn leaves(alloc: Global, block: &Block, left: [bool; 6]) -> Result<bool, AllocError> {
    let pruned = prune(alloc, block)?;
    let checked = check_block(&pruned);
    let list = pruned.lines.into_list();
    let mut same = checked && list.len() == 6;
    for (line, stays) in list.as_slice().iter().zip(left.iter()) {
        same = same && matches!(*line, Line::Gone) != *stays;
    }
    Ok(same)
}

#[test]
fn what_nothing_needs_goes(rt: HostRuntime) -> Result<(), Fail> {
    let alloc = rt.alloc();
    let jump = some_block(alloc, Val::Num(0), Exit::Jump(0x0804_8060))?;
    assert!(rt; leaves(alloc, &jump, [false, false, false, true, true, false])?);
    let out = some_block(alloc, Val::Line(1), Exit::Jump(0x0804_8060))?;
    assert!(rt; leaves(alloc, &out, [true, true, false, true, true, false])?);
    Ok(())
}

#[test]
fn an_exit_needs_its_line(rt: HostRuntime) -> Result<(), Fail> {
    let alloc = rt.alloc();
    let way = some_block(alloc, Val::Param(0), Exit::Way(Val::Line(2)))?;
    assert!(rt; leaves(alloc, &way, [false, false, true, true, true, false])?);
    Ok(())
}
