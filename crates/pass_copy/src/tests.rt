//! Blocks, folded by hand.

use crate::{Block, fold};
use ssa_form::{BinOp, Exit, Line, Lines, REGISTERS, Val, Width, check_block};
use std::alloc::{AllocError, Global};
use std::test::Fail;

/// A copy of eax, a copy of the copy, their difference, a sum with it, and the store of that sum.
fn some_lines(alloc: Global) -> Result<Lines, AllocError> {
    let mut lines = Lines::new(alloc);
    lines.push(bin(BinOp::Add, Val::Param(0), Val::Num(0)))?;
    lines.push(bin(BinOp::Or, Val::Line(0), Val::Num(0)))?;
    lines.push(bin(BinOp::Sub, Val::Line(1), Val::Param(0)))?;
    lines.push(bin(BinOp::Add, Val::Line(2), Val::Param(1)))?;
    lines.push(bin(BinOp::Add, Val::Line(3), Val::Line(1)))?;
    lines.push(Line::Store {
        w: Width::B32,
        at: Val::Line(4),
        a: Val::Line(2),
    })?;
    Ok(lines)
}

/// An operator of two.
fn bin(op: BinOp, a: Val, b: Val) -> Line {
    Line::Bin { op, a, b }
}

/// The block of these lines, which goes to what it copied.
fn some_block(alloc: Global) -> Result<Block, AllocError> {
    let mut outs = [Val::Num(0); REGISTERS];
    outs[0] = Val::Line(1);
    outs[1] = Val::Line(2);
    outs[2] = Val::Line(4);
    Ok(Block {
        start: 0x0804_8054,
        lines: some_lines(alloc)?,
        outs,
        exit: Exit::Way(Val::Line(0)),
    })
}

#[test]
fn copies_and_constants_go(rt: HostRuntime) -> Result<(), Fail> {
    let alloc = rt.alloc();
    let block = some_block(alloc)?;
    assert!(rt; check_block(&block));
    assert!(rt; block.lines.len() <= 2048);
    let folded = fold(alloc, &block)?;
    assert!(rt; check_block(&folded));
    let list = folded.lines.into_list();
    assert_eq!(rt; list.len(), 6);
    for line in list.as_slice().iter().take(4) {
        assert!(rt; matches!(*line, Line::Gone));
    }
    let sum = list.as_slice().get(4).copied();
    assert!(rt;
        matches!(
            sum,
            Some(Line::Bin {
                op: BinOp::Add,
                a: Val::Param(1),
                b: Val::Param(0)
            })
        )
    );
    Ok(())
}

#[test]
fn outs_and_exit_are_replaced(rt: HostRuntime) -> Result<(), Fail> {
    let alloc = rt.alloc();
    let block = some_block(alloc)?;
    assert!(rt; block.lines.len() <= 2048);
    let folded = fold(alloc, &block)?;
    assert!(rt; matches!(folded.outs[0], Val::Param(0)));
    assert!(rt; matches!(folded.outs[1], Val::Num(0)));
    assert!(rt; matches!(folded.outs[2], Val::Line(4)));
    assert!(rt; matches!(folded.exit, Exit::Way(Val::Param(0))));
    Ok(())
}
