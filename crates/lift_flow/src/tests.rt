//! Blocks of small executables. The expected lines were worked out by hand.
ghost use Rattle.std.specs.Prelude.{◌≡◌, ◌<◌, ◌≤◌, true, false, IfOk, length};
ghost use Rattle.elf_read.specs.Elf.{IsGuest};

use crate::{Block, lift_block};
use elf_read::{Bytes, Exe, Perms, Segment, Segments, in_exec};
use ssa_form::{BinOp, Exit, Line, Val, check_block};
use std::alloc::{AllocError, Global};
use std::process::Abort;
use std::test::Fail;

const START: u32 = 0x0804_8000;

fn segment(alloc: Global, start: u32, code: &[u8]) -> Result<Segment, AllocError>
    requires { length code.now ≤ 100 }
    ensures start { IfOk result (λ s. s.start ≡ start) }
    ensures size { IfOk result (λ s. s.size ≡ length code.now) }
    ensures bytes { IfOk result (λ s. s.bytes ≡ code.now) }
    ensures perms { IfOk result (λ s. s.perms ≡ record { read = true; write = false; exec = true }) }
{
    Ok(Segment {
        start,
        size: code.len() as u32,
        perms: Perms {
            read: true,
            write: false,
            exec: true,
        },
        bytes: Bytes::of(Vec::from_slice(alloc, code)?),
    })
}

/// An executable with this code at 08048000.
fn with_code(alloc: Global, code: &[u8]) -> Result<Exe, AllocError>
    requires some { 0 < length code.now }
    requires few { length code.now ≤ 100 }
    ensures { IfOk result IsGuest }
{
    let mut segments = Vec::new(alloc);
    segments.push(segment(alloc, 0x0804_8000, code)?)?;
    Ok(Exe {
        entry: 0x0804_8000,
        segments: Segments::of(segments),
        brk_start: 0x0804_9000,
    })
}

/// The block at an address, which is executable.
fn block_at(rt: &impl Abort, alloc: Global, exe: &Exe, start: u32) -> Result<Block, AllocError>
    requires { IsGuest exe.now }
{
    assert!(rt; in_exec(exe, start));
    lift_block(alloc, exe, start)
}

/// The line with an index; `Gone` where there is none.
fn line(block: &Block, index: usize) -> Line {
    if index < block.lines.len() {
        block.lines.line(index)
    } else {
        Line::Gone
    }
}

#[test]
fn blocks_and_their_exits(rt: HostRuntime) -> Result<(), Fail> {
    // inc eax; int 0x80; jz 08048000; retn; nop; two bytes that spell nothing
    let code = [0x40, 0xcd, 0x80, 0x74, 0xfb, 0xc3, 0x90, 0x0f, 0xff];
    let alloc = rt.alloc();
    let exe = with_code(alloc, &code)?;
    // before a native instruction: eight lines, and on to it
    let before = block_at(&rt, alloc, &exe, START)?;
    assert_eq!(rt; before.lines.len(), 8);
    assert!(rt; check_block(&before));
    assert!(rt; matches!(before.outs[0], Val::Line(0)));
    assert!(rt; matches!(before.outs[8], Val::Param(8)));
    assert!(rt; matches!(before.exit, Exit::Jump(0x0804_8001)));
    // the native instruction
    let native = block_at(&rt, alloc, &exe, START + 1)?;
    assert_eq!(rt; native.lines.len(), 0);
    assert!(rt; matches!(native.exit, Exit::Island { len: 2 }));
    // a transfer without lines, and one with two
    let jump = block_at(&rt, alloc, &exe, START + 3)?;
    assert_eq!(rt; jump.lines.len(), 0);
    assert!(rt;
        matches!(
            jump.exit,
            Exit::Cond {
                test: Val::Param(10),
                taken: 0x0804_8000,
                next: 0x0804_8005
            }
        )
    );
    let ret = block_at(&rt, alloc, &exe, START + 5)?;
    assert_eq!(rt; ret.lines.len(), 2);
    assert!(rt;
        matches!(
            line(&ret, 1),
            Line::Bin {
                op: BinOp::Add,
                a: Val::Param(4),
                b: Val::Num(4)
            }
        )
    );
    assert!(rt; matches!(ret.exit, Exit::Way(Val::Line(0))));
    // before bytes that spell nothing, and none at all
    let last = block_at(&rt, alloc, &exe, START + 6)?;
    assert!(rt; matches!(last.exit, Exit::Jump(0x0804_8007)));
    let none = block_at(&rt, alloc, &exe, START + 7)?;
    assert_eq!(rt; none.lines.len(), 0);
    assert!(rt; matches!(none.exit, Exit::Jump(0x0804_8007)));
    Ok(())
}

#[test]
fn sixty_four_instructions(rt: HostRuntime) -> Result<(), Fail> {
    // 66 times inc eax: a block of 64, and one of the two up to the end of the segment
    let code = [0x40; 66];
    let alloc = rt.alloc();
    let exe = with_code(alloc, &code)?;
    let full = block_at(&rt, alloc, &exe, START)?;
    assert_eq!(rt; full.lines.len(), 512);
    assert!(rt; matches!(full.outs[0], Val::Line(504)));
    assert!(rt; matches!(full.exit, Exit::Jump(0x0804_8040)));
    let rest = block_at(&rt, alloc, &exe, START + 64)?;
    assert_eq!(rt; rest.lines.len(), 16);
    assert!(rt;
        matches!(
            line(&rest, 8),
            Line::Bin {
                op: BinOp::Add,
                a: Val::Line(0),
                b: Val::Num(1)
            }
        )
    );
    assert!(rt; matches!(rest.exit, Exit::Jump(0x0804_8042)));
    Ok(())
}
