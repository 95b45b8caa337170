//! Cuts of blocks, following starts and transfers of small executables. The expected answers were
//! worked out by hand.
ghost use Rattle.std.specs.Prelude.{◌≡◌, ◌<◌, ◌≤◌, true, false, IfOk, length};
ghost use Rattle.elf_read.specs.Elf.{IsGuest};

use crate::{Cut, End, counts, cut, following_start, instruction_at, leads};
use elf_read::{Bytes, Exe, Perms, Segment, Segments, in_exec};
use std::alloc::{AllocError, Global};
use std::process::Abort;
use std::test::Fail;

fn segment(alloc: Global, start: u32, code: &[u8]) -> Result<Segment, AllocError>
    requires { length code.now ≤ 100 }
    ensures start { IfOk result (λ s. s.start ≡ start) }
    ensures size { IfOk result (λ s. s.size ≡ length code.now) }
    ensures bytes { IfOk result (λ s. s.bytes ≡ code.now) }
    ensures perms { IfOk result (λ s. s.perms ≡ record { read = true; write = false; exec = true }) }
{
    Ok(Segment {
        start,
        size: code.len() as u32,
        perms: Perms {
            read: true,
            write: false,
            exec: true,
        },
        bytes: Bytes::of(Vec::from_slice(alloc, code)?),
    })
}

/// An executable with this code at 08048000.
fn with_code(alloc: Global, code: &[u8]) -> Result<Exe, AllocError>
    requires some { 0 < length code.now }
    requires few { length code.now ≤ 100 }
    ensures { IfOk result IsGuest }
{
    let mut segments = Vec::new(alloc);
    segments.push(segment(alloc, 0x0804_8000, code)?)?;
    Ok(Exe {
        entry: 0x0804_8000,
        segments: Segments::of(segments),
        brk_start: 0x0804_9000,
    })
}

/// The cut of the block at an address, which is executable.
fn cut_at(rt: &impl Abort, exe: &Exe, start: u32) -> Cut
    requires { IsGuest exe.now }
{
    assert!(rt; in_exec(exe, start));
    cut(exe, start)
}

/// The start that follows the block at an address, which is executable.
fn follow(rt: &impl Abort, exe: &Exe, start: u32) -> Option<u32>
    requires { IsGuest exe.now }
{
    assert!(rt; in_exec(exe, start));
    following_start(exe, start)
}

#[test]
fn cuts_blocks(rt: HostRuntime) -> Result<(), Fail> {
    // mov eax, 4; int 0x80, which is native; jz 08048000; retn; nop; two bytes that spell nothing
    let code = [
        0xb8, 4, 0, 0, 0, 0xcd, 0x80, 0x74, 0xf7, 0xc3, 0x90, 0x0f, 0xff,
    ];
    let exe = with_code(rt.alloc(), &code)?;
    let before = Cut {
        count: 1,
        len: 5,
        end: End::BeforeIsland,
        last: 0x0804_8000,
    };
    assert_eq!(rt; cut_at(&rt, &exe, 0x0804_8000), before);
    let native = Cut {
        count: 1,
        len: 2,
        end: End::Island,
        last: 0x0804_8005,
    };
    assert_eq!(rt; cut_at(&rt, &exe, 0x0804_8005), native);
    let transfer = Cut {
        count: 1,
        len: 2,
        end: End::Transfer,
        last: 0x0804_8007,
    };
    assert_eq!(rt; cut_at(&rt, &exe, 0x0804_8007), transfer);
    let unreadable = Cut {
        count: 1,
        len: 1,
        end: End::Unreadable,
        last: 0x0804_800a,
    };
    assert_eq!(rt; cut_at(&rt, &exe, 0x0804_800a), unreadable);
    let empty = Cut {
        count: 0,
        len: 0,
        end: End::Unreadable,
        last: 0x0804_800b,
    };
    assert_eq!(rt; cut_at(&rt, &exe, 0x0804_800b), empty);
    assert_eq!(rt; follow(&rt, &exe, 0x0804_8000), Some(0x0804_8005));
    assert_eq!(rt; follow(&rt, &exe, 0x0804_8005), Some(0x0804_8007));
    assert_eq!(rt; follow(&rt, &exe, 0x0804_8007), None);
    assert_eq!(rt; follow(&rt, &exe, 0x0804_800a), None);
    Ok(())
}

#[test]
fn counts_instructions(rt: HostRuntime) -> Result<(), Fail> {
    // 65 times nop, and retn
    let mut code = [0x90; 66];
    code[65] = 0xc3;
    let exe = with_code(rt.alloc(), &code)?;
    let full = Cut {
        count: 64,
        len: 64,
        end: End::Full,
        last: 0x0804_803f,
    };
    assert_eq!(rt; cut_at(&rt, &exe, 0x0804_8000), full);
    let full = Cut {
        count: 64,
        len: 64,
        end: End::Full,
        last: 0x0804_8040,
    };
    assert_eq!(rt; cut_at(&rt, &exe, 0x0804_8001), full);
    let transfer = Cut {
        count: 64,
        len: 64,
        end: End::Transfer,
        last: 0x0804_8041,
    };
    assert_eq!(rt; cut_at(&rt, &exe, 0x0804_8002), transfer);
    assert_eq!(rt; follow(&rt, &exe, 0x0804_8000), Some(0x0804_8040));
    Ok(())
}

#[test]
fn finds_targets(rt: HostRuntime) -> Result<(), Fail> {
    // jz 08048010; jmp 08047ff0; call 08048010; jmp eax; ret; nop
    let code = [
        0x74, 0x0e, 0xeb, 0xec, 0xe8, 7, 0, 0, 0, 0xff, 0xe0, 0xc3, 0x90,
    ];
    let exe = with_code(rt.alloc(), &code)?;
    assert!(rt; leads(&exe, 0x0804_8000, 0x0804_8010));
    assert!(rt; leads(&exe, 0x0804_8000, 0x0804_8002));
    assert!(rt; !leads(&exe, 0x0804_8000, 0x0804_8004));
    assert!(rt; leads(&exe, 0x0804_8002, 0x0804_7ff0));
    assert!(rt; !leads(&exe, 0x0804_8002, 0x0804_8004));
    assert!(rt; leads(&exe, 0x0804_8004, 0x0804_8010));
    assert!(rt; !leads(&exe, 0x0804_8004, 0x0804_8009));
    assert!(rt; leads(&exe, 0x0804_8009, 7));
    assert!(rt; leads(&exe, 0x0804_800b, 7));
    assert!(rt; !leads(&exe, 0x0804_800c, 0x0804_800d));
    assert!(rt; !leads(&exe, 0x0804_7fff, 0x0804_8000));
    Ok(())
}

/// Two segments, one behind the other: nop and the first byte of retn 4, and its rest.
fn halves(alloc: Global) -> Result<Exe, AllocError>
    ensures { IfOk result IsGuest }
{
    let mut segments = Vec::new(alloc);
    segments.push(segment(alloc, 0x0804_8000, &[0x90, 0x90])?)?;
    segments.push(segment(alloc, 0x0804_8002, &[0x90, 0xc2])?)?;
    segments.push(segment(alloc, 0x0804_8004, &[4, 0])?)?;
    Ok(Exe {
        entry: 0x0804_8000,
        segments: Segments::of(segments),
        brk_start: 0x0804_9000,
    })
}

#[test]
fn runs_on_between_segments(rt: HostRuntime) -> Result<(), Fail> {
    let exe = halves(rt.alloc())?;
    let unreadable = Cut {
        count: 3,
        len: 3,
        end: End::Unreadable,
        last: 0x0804_8002,
    };
    assert_eq!(rt; cut_at(&rt, &exe, 0x0804_8000), unreadable);
    Ok(())
}

#[test]
fn counts_edges(rt: HostRuntime) -> Result<(), Fail> {
    // jz 08048004; nop; ret; jmp eax
    let exe = with_code(rt.alloc(), &[0x74, 0x02, 0x90, 0xc3, 0xff, 0xe0])?;
    assert!(rt; counts(&exe, (0, 0x0804_8000)));
    assert!(rt; !counts(&exe, (0, 0x0804_8002)));
    assert!(rt; counts(&exe, (0x0804_8000, 0x0804_8004)));
    assert!(rt; !counts(&exe, (0x0804_8000, 0x0804_8005)));
    assert!(rt; !counts(&exe, (0x0804_8002, 0x0804_8003)));
    assert!(rt; counts(&exe, (0x0804_8003, 0x0804_8005)));
    assert!(rt; !counts(&exe, (0x0804_8003, 0x0804_8006)));
    Ok(())
}

/// Whether an instruction of so many bytes stands at an address, and begins with these two.
fn stands(exe: &Exe, at: u32, len: u8, first: u8, second: u8) -> bool
    requires { IsGuest exe.now }
{
    match instruction_at(exe, at) {
        Some(here) => here.len == len && here.bytes[0] == first && here.bytes[1] == second,
        None => false,
    }
}

#[test]
fn reads_instructions(rt: HostRuntime) -> Result<(), Fail> {
    // mov eax, 4; int 0x80; two bytes that spell nothing
    let exe = with_code(rt.alloc(), &[0xb8, 4, 0, 0, 0, 0xcd, 0x80, 0x0f, 0xff])?;
    assert!(rt; stands(&exe, 0x0804_8000, 5, 0xb8, 4));
    assert!(rt; stands(&exe, 0x0804_8005, 2, 0xcd, 0x80));
    assert!(rt; instruction_at(&exe, 0x0804_8007).is_none());
    assert!(rt; instruction_at(&exe, 0x0804_8009).is_none());
    Ok(())
}
