//! Blocks whose names stand for something, and blocks with one that does not.

use crate::{BinOp, Block, Exit, Line, Lines, REGISTERS, Val, Width, check_block};
use std::alloc::{AllocError, Global};
use std::test::Fail;

const ESP: Val = Val::Param(4);

const JUMP: Exit = Exit::Jump(0x0804_8060);

/// Whether a block is checked whose lines are the two of `push ecx` and a last one.
fn checks(alloc: Global, last: Line, exit: Exit) -> Result<bool, AllocError> {
    let mut lines = Lines::new(alloc);
    lines.push(Line::Bin {
        op: BinOp::Sub,
        a: ESP,
        b: Val::Num(4),
    })?;
    lines.push(Line::Store {
        w: Width::B32,
        at: Val::Line(0),
        a: Val::Param(1),
    })?;
    lines.push(last)?;
    Ok(check_block(&Block {
        start: 0x0804_8054,
        lines,
        outs: [Val::Line(0); REGISTERS],
        exit,
    }))
}

/// The sum of two numbers.
fn sum(a: Val, b: Val) -> Line {
    Line::Bin {
        op: BinOp::Add,
        a,
        b,
    }
}

#[test]
fn names_that_stand_for_something(rt: HostRuntime) -> Result<(), Fail> {
    let alloc = rt.alloc();
    assert!(rt; checks(alloc, Line::Gone, JUMP)?);
    assert!(rt;
        checks(
            alloc,
            sum(Val::Param(13), Val::Line(0)),
            Exit::Way(Val::Line(2))
        )?
    );
    assert!(rt; checks(alloc, Line::Gone, Exit::Island { len: 2 })?);
    Ok(())
}

#[test]
fn names_that_stand_for_nothing(rt: HostRuntime) -> Result<(), Fail> {
    let alloc = rt.alloc();
    assert!(rt; !checks(alloc, sum(Val::Param(14), ESP), JUMP)?);
    // the line itself, a store, a line that is gone, and one behind the last
    assert!(rt; !checks(alloc, sum(ESP, Val::Line(2)), JUMP)?);
    assert!(rt; !checks(alloc, sum(ESP, Val::Line(1)), JUMP)?);
    assert!(rt; !checks(alloc, Line::Gone, Exit::Way(Val::Line(2)))?);
    let test = Val::Line(3);
    let both = Exit::Cond {
        test,
        taken: 0,
        next: 1,
    };
    assert!(rt; !checks(alloc, sum(ESP, ESP), both)?);
    Ok(())
}
