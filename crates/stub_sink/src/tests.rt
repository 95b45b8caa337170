//! Splits, worked out by hand.

use crate::{Block, BlockKey, split};
use ssa_form::{BinOp, Exit, KnownExits, Line, Lines, REGISTERS, Val, Width, check_block};
use std::alloc::{AllocError, Global};
use std::test::Fail;

/// `add eax, ecx` with its carry, a jump by way of memory, and a load that only an out names.
fn some_lines(alloc: Global) -> Result<Lines, AllocError> {
    let mut lines = Lines::new(alloc);
    lines.push(Line::Bin {
        op: BinOp::Add,
        a: Val::Param(0),
        b: Val::Param(1),
    })?;
    lines.push(Line::Bin {
        op: BinOp::Ult,
        a: Val::Line(0),
        b: Val::Param(0),
    })?;
    lines.push(Line::Load {
        w: Width::B32,
        at: Val::Num(4096),
    })?;
    lines.push(Line::Load {
        w: Width::B32,
        at: Val::Param(4),
    })?;
    Ok(lines)
}

/// The block of these lines with this exit.
fn some_block(alloc: Global, exit: Exit) -> Result<Block, AllocError> {
    let mut outs = [Val::Num(0); REGISTERS];
    outs[0] = Val::Line(0);
    outs[1] = Val::Line(3);
    outs[8] = Val::Line(1);
    Ok(Block {
        start: 0x0804_8054,
        lines: some_lines(alloc)?,
        outs,
        exit,
    })
}

/// Whether the split of the block has these two parts, where one exit is known at which these registers are live.
fn splits(
    alloc: Global,
    block: &Block,
    live: u16,
    body: [bool; 4],
    sunk: [bool; 4],
) -> Result<bool, AllocError> {
    let key = BlockKey {
        start: block.start,
        exits: KnownExits::of(vec![in alloc; (0x0804_8060, live)]?),
    };
    let parts = split(alloc, block, &key)?;
    Ok(parts.body.as_slice() == body.as_slice() && parts.sunk.as_slice() == sunk.as_slice())
}

#[test]
fn a_carry_sinks_and_its_sum_stays(rt: HostRuntime) -> Result<(), Fail> {
    let alloc = rt.alloc();
    let block = some_block(alloc, Exit::Way(Val::Line(2)))?;
    assert!(rt; check_block(&block));
    // eax is live, the flags are written first; the load of a side exit stays before later stores
    assert!(rt;
        splits(
            alloc,
            &block,
            1,
            [true, false, true, true],
            [false, true, false, false]
        )?
    );
    // nothing is live
    assert!(rt;
        splits(
            alloc,
            &block,
            0,
            [false, false, true, true],
            [true, true, false, false]
        )?
    );
    Ok(())
}

#[test]
fn nothing_sinks_without_a_side_exit(rt: HostRuntime) -> Result<(), Fail> {
    let alloc = rt.alloc();
    let known = some_block(alloc, Exit::Jump(0x0804_8060))?;
    let none = [false, false, false, false];
    assert!(rt; splits(alloc, &known, 1, [true, false, false, false], none)?);
    let other = some_block(alloc, Exit::Jump(0x0804_8061))?;
    assert!(rt;
        splits(
            alloc,
            &other,
            1,
            [true, false, false, true],
            [false, true, false, false]
        )?
    );
    Ok(())
}
