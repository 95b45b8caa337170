//! Rows and live sets, worked out by hand.
ghost use Rattle.std.specs.Prelude.{◌≡◌, IfOk};
ghost use Rattle.live_flow.specs.Examples.{chain};

use crate::{Block, LiveRow, Starts, live, row_of};
use ssa_form::{BinOp, Exit, Line, Lines, REGISTERS, Val, check_block};
use std::alloc::{AllocError, Global};
use std::test::Fail;

/// `add eax, ecx` and `mov edx, ebx`: every other register is its own out.
fn some_block(alloc: Global, exit: Exit) -> Result<Block, AllocError> {
    let mut lines = Lines::new(alloc);
    lines.push(Line::Bin {
        op: BinOp::Add,
        a: Val::Param(0),
        b: Val::Param(1),
    })?;
    let mut outs = [Val::Num(0); REGISTERS];
    for register in 0..REGISTERS {
        outs[register] = Val::Param(register as u8);
    }
    outs[0] = Val::Line(0);
    outs[2] = Val::Param(3);
    Ok(Block {
        start: 0x0804_8054,
        lines,
        outs,
        exit,
    })
}

/// The row of the block with this exit, where 0x08048060 is the known exit.
fn some_row(alloc: Global, exit: Exit) -> Result<LiveRow, AllocError> {
    let known = [0x0804_8060];
    row_of(alloc, &some_block(alloc, exit)?, known.as_slice())
}

#[test]
fn a_row_says_what_is_read_and_handed_on(rt: HostRuntime) -> Result<(), Fail> {
    let alloc = rt.alloc();
    assert!(rt; check_block(&some_block(alloc, Exit::Jump(0x0804_8060))?));
    let row = some_row(alloc, Exit::Jump(0x0804_8060))?;
    assert_eq!(rt; row.start, 0x0804_8054);
    // eax and ecx are read, ebx goes to edx; all but eax and edx are their own outs
    assert_eq!(rt; row.uses, 0b00_0000_0000_1011);
    assert_eq!(rt; row.passes, 0b11_1111_1111_1010);
    assert!(rt; !row.fallback);
    assert!(rt; row.next.as_slice() == [0x0804_8060].as_slice());
    Ok(())
}

#[test]
fn an_exit_reads_its_name(rt: HostRuntime) -> Result<(), Fail> {
    let alloc = rt.alloc();
    let way = some_row(alloc, Exit::Way(Val::Param(7)))?;
    assert_eq!(rt; way.uses, 0b00_0000_1000_1011);
    assert!(rt; way.fallback);
    Ok(())
}

#[test]
fn ways_out_of_branches_and_native_instructions(rt: HostRuntime) -> Result<(), Fail> {
    let alloc = rt.alloc();
    let branch = Exit::Cond {
        test: Val::Param(10),
        taken: 0x0804_8060,
        next: 0x0804_8058,
    };
    let row = some_row(alloc, branch)?;
    assert!(rt; row.fallback);
    assert_eq!(rt; row.uses, 0b00_0100_0000_1011);
    let native = some_row(alloc, Exit::Island { len: 2 })?;
    assert_eq!(rt; native.uses, 0x3FFF);
    assert_eq!(rt; native.passes, 0b11_1111_1111_1010);
    assert!(rt; !native.fallback);
    Ok(())
}

/// A row.
fn row(
    alloc: Global,
    start: u32,
    sets: (u16, u16),
    fallback: bool,
    next: &[u32],
) -> Result<LiveRow, AllocError>
    ensures { IfOk result (λ row. row ≡ record { start = start; uses = sets.0; passes = sets.1; fallback = fallback; next = next.now }) }
{
    let next = Vec::from_slice(alloc, next)?;
    Ok(LiveRow {
        start,
        uses: sets.0,
        passes: sets.1,
        fallback,
        next: Starts::of(next),
    })
}

/// A block that reads eax and may leave by a side exit, one that jumps back to it, and one that branches back to that and to itself.
fn chain(alloc: Global) -> Result<Vec<LiveRow>, AllocError>
    ensures { IfOk result (λ rows. rows.items ≡ chain) }
{
    let mut rows = Vec::new(alloc);
    rows.push(row(alloc, 16, (1, 6), true, [].as_slice())?)?;
    rows.push(row(alloc, 32, (0, 3), false, [16].as_slice())?)?;
    rows.push(row(alloc, 48, (8, 5), false, [32, 48].as_slice())?)?;
    Ok(rows)
}

#[test]
fn what_is_needed_behind_is_live(rt: HostRuntime) -> Result<(), Fail> {
    let alloc = rt.alloc();
    let rows = chain(alloc)?;
    let sets = live(alloc, rows.as_slice())?;
    // the first hands ecx and edx on to the original; the second has eax and ecx of that, the third eax alone, and reads ebx
    assert!(rt; sets.as_slice() == [7, 3, 9].as_slice());
    Ok(())
}
