//! Listings of small executables. The expected texts are those of an independent implementation.
ghost use Rattle.std.specs.Prelude.{◌≡◌, ◌<◌, ◌≤◌, IfOk, length};
ghost use Rattle.elf_read.specs.Elf.{IsGuest};

use crate::show_block;
use elf_read::{Bytes, Exe, Perms, Segment, Segments, in_exec};
use std::alloc::{AllocError, Global};
use std::process::Abort;
use std::test::Fail;

/// An executable with this code at 08048054.
fn with_code(alloc: Global, code: &[u8]) -> Result<Exe, AllocError>
    requires some { 0 < length code.now }
    requires few { length code.now ≤ 100 }
    ensures { IfOk result IsGuest }
{
    let mut segments = Vec::new(alloc);
    segments.push(Segment {
        start: 0x0804_8054,
        size: code.len() as u32,
        perms: Perms {
            read: true,
            write: false,
            exec: true,
        },
        bytes: Bytes::of(Vec::from_slice(alloc, code)?),
    })?;
    Ok(Exe {
        entry: 0x0804_8054,
        segments: Segments::of(segments),
        brk_start: 0x0804_9000,
    })
}

/// Appends the listings of blocks with these known ways.
fn show_blocks(
    rt: &impl Abort,
    alloc: Global,
    exe: &Exe,
    blocks: &[(u32, &[u32])],
    out: &mut String,
) -> Result<(), AllocError>
    requires { IsGuest exe.now }
{
    for (start, known) in blocks {
        assert!(rt; in_exec(exe, *start));
        show_block(alloc, exe, *start, known, out)?;
    }
    Ok(())
}

const FIRST: &str = "block 08048054
  08048054 b804000000 mov eax, 0x00000004
  08048059 bb01000000 mov ebx, 0x00000001
  0804805e b976800408 mov ecx, 0x08048076
  08048063 ba03000000 mov edx, 0x00000003
  to 08048068 known
block 08048068
  08048068 cd80 int 0x80
  to 0804806a known
block 0804806a
  0804806a b801000000 mov eax, 0x00000001
  0804806f bb00000000 mov ebx, 0x00000000
  to 08048074 known
block 08048074
  08048074 cd80 int 0x80
  to 08048076 known
block 08048076
  to 08048076 original
";

#[test]
fn shows_a_program(rt: HostRuntime) -> Result<(), Fail> {
    let code = [
        0xb8, 4, 0, 0, 0, 0xbb, 1, 0, 0, 0, 0xb9, 0x76, 0x80, 4, 8, 0xba, 3, 0, 0, 0, 0xcd, 0x80,
        0xb8, 1, 0, 0, 0, 0xbb, 0, 0, 0, 0, 0xcd, 0x80, 0x68, 0x69, 0x0a,
    ];
    let exe = with_code(rt.alloc(), &code)?;
    let blocks: [(u32, &[u32]); 5] = [
        (0x0804_8054, &[0x0804_8068]),
        (0x0804_8068, &[0x0804_806a]),
        (0x0804_806a, &[0x0804_8074]),
        (0x0804_8074, &[0x0804_8076]),
        (0x0804_8076, &[]),
    ];
    let mut out = String::new(rt.alloc());
    show_blocks(&rt, rt.alloc(), &exe, &blocks, &mut out)?;
    assert_eq!(rt; out.as_str(), FIRST);
    Ok(())
}

const TRANSFERS: &str = "before
block 08048054
  08048054 e809000000 call 0x08048062
  to 08048062 known
block 08048059
  08048059 e804000000 call 0x08048062
  to 08048062 known
block 0804805e
  0804805e 31c0 xor eax, eax
  08048060 7403 jz 0x08048065
  to 08048062 original
  to 08048065 known
block 08048062
  08048062 90 nop
  08048063 90 nop
  08048064 c3 ret
  to 08048059 known
  to 0804805e known
  to other original
block 08048065
  08048065 40 inc eax
  08048066 31db xor ebx, ebx
  to 08048068 known
block 08048068
  08048068 cd80 int 0x80
  to 0804806a original
";

#[test]
fn shows_transfers(rt: HostRuntime) -> Result<(), Fail> {
    let code = [
        0xe8, 9, 0, 0, 0, 0xe8, 4, 0, 0, 0, 0x31, 0xc0, 0x74, 3, 0x90, 0x90, 0xc3, 0x40, 0x31,
        0xdb, 0xcd, 0x80,
    ];
    let exe = with_code(rt.alloc(), &code)?;
    let blocks: [(u32, &[u32]); 6] = [
        (0x0804_8054, &[0x0804_8062]),
        (0x0804_8059, &[0x0804_8062]),
        (0x0804_805e, &[0x0804_8065]),
        (0x0804_8062, &[0x0804_8059, 0x0804_805e]),
        (0x0804_8065, &[0x0804_8068]),
        (0x0804_8068, &[]),
    ];
    let mut out = String::from_str(rt.alloc(), "before\n")?;
    show_blocks(&rt, rt.alloc(), &exe, &blocks, &mut out)?;
    assert_eq!(rt; out.as_str(), TRANSFERS);
    Ok(())
}

#[test]
fn shows_64_instructions(rt: HostRuntime) -> Result<(), Fail> {
    let exe = with_code(rt.alloc(), &[0x90; 66])?;
    let mut out = String::new(rt.alloc());
    show_blocks(
        &rt,
        rt.alloc(),
        &exe,
        &[(0x0804_8054, &[0x0804_8094])],
        &mut out,
    )?;
    assert!(rt; out.ends_with("  08048093 90 nop\n  to 08048094 known\n"));
    assert_eq!(rt; out.len(), 15 + 64 * 18 + 20);
    Ok(())
}
