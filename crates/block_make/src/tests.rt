//! Worked fragments: their bytes were written by another program over the same rules, and read through by hand.
ghost use Rattle.std.specs.Prelude.{◌≡◌, ◌<◌, ◌≤◌, true, false, IfOk, length};
ghost use Rattle.elf_read.specs.Elf.{IsGuest, is_exec};
ghost use Rattle.block_make.specs.Keys.{IsKey};

use crate::fragment::code_of;
use crate::{Assembled, Fix, MAX_EXITS, make};
use br_word::Steps;
use elf_read::{Bytes, Exe, Perms, Segment, Segments, in_exec};
use ssa_form::{BlockKey, KnownExits};
use std::alloc::{AllocError, Global};
use std::process::Abort;
use std::test::Fail;

const START: u32 = 0x0804_8054;

/// RESTORE: DF, the flags and the registers from their slots.
const RESTORE: [u8; 118] = [
    0xfc, 0x8b, 0x05, 0x34, 0x00, 0x00, 0x07, 0x85, 0xc0, 0x0f, 0x84, 0x01, 0x00, 0x00, 0x00, 0xfd,
    0x8b, 0x05, 0x20, 0x00, 0x00, 0x07, 0x8b, 0x0d, 0x24, 0x00, 0x00, 0x07, 0xc1, 0xe1, 0x02, 0x09,
    0xc8, 0x8b, 0x0d, 0x28, 0x00, 0x00, 0x07, 0xc1, 0xe1, 0x06, 0x09, 0xc8, 0x8b, 0x0d, 0x2c, 0x00,
    0x00, 0x07, 0xc1, 0xe1, 0x07, 0x09, 0xc8, 0xc1, 0xe0, 0x08, 0x8b, 0x0d, 0x30, 0x00, 0x00, 0x07,
    0x09, 0xc8, 0x80, 0xc0, 0x7f, 0x9e, 0x8b, 0x0d, 0x04, 0x00, 0x00, 0x07, 0x8b, 0x15, 0x08, 0x00,
    0x00, 0x07, 0x8b, 0x1d, 0x0c, 0x00, 0x00, 0x07, 0x8b, 0x25, 0x10, 0x00, 0x00, 0x07, 0x8b, 0x2d,
    0x14, 0x00, 0x00, 0x07, 0x8b, 0x35, 0x18, 0x00, 0x00, 0x07, 0x8b, 0x3d, 0x1c, 0x00, 0x00, 0x07,
    0x8b, 0x05, 0x00, 0x00, 0x00, 0x07,
];

/// SPILL: ebp, ebx and esi to the slots of esp, eax and ebp.
const SPILL: [u8; 18] = [
    0x89, 0x2d, 0x10, 0x00, 0x00, 0x07, 0x89, 0x1d, 0x00, 0x00, 0x00, 0x07, 0x89, 0x35, 0x14, 0x00,
    0x00, 0x07,
];

/// CAPTURE: the registers and flags to their slots, and ebp, ebx and esi from those of esp, eax and ebp.
const CAPTURE: [u8; 101] = [
    0x89, 0x05, 0x00, 0x00, 0x00, 0x07, 0x89, 0x0d, 0x04, 0x00, 0x00, 0x07, 0x89, 0x15, 0x08, 0x00,
    0x00, 0x07, 0x89, 0x1d, 0x0c, 0x00, 0x00, 0x07, 0x89, 0x25, 0x10, 0x00, 0x00, 0x07, 0x89, 0x2d,
    0x14, 0x00, 0x00, 0x07, 0x89, 0x35, 0x18, 0x00, 0x00, 0x07, 0x89, 0x3d, 0x1c, 0x00, 0x00, 0x07,
    0x0f, 0x92, 0x05, 0x20, 0x00, 0x00, 0x07, 0x0f, 0x9a, 0x05, 0x24, 0x00, 0x00, 0x07, 0x0f, 0x94,
    0x05, 0x28, 0x00, 0x00, 0x07, 0x0f, 0x98, 0x05, 0x2c, 0x00, 0x00, 0x07, 0x0f, 0x90, 0x05, 0x30,
    0x00, 0x00, 0x07, 0x8b, 0x2d, 0x10, 0x00, 0x00, 0x07, 0x8b, 0x1d, 0x00, 0x00, 0x00, 0x07, 0x8b,
    0x35, 0x14, 0x00, 0x00, 0x07,
];

fn segment(alloc: Global, code: &[u8]) -> Result<Segment, AllocError>
    requires { length code.now ≤ 100 }
    ensures start { IfOk result (λ s. s.start ≡ START) }
    ensures size { IfOk result (λ s. s.size ≡ length code.now) }
    ensures bytes { IfOk result (λ s. s.bytes ≡ code.now) }
    ensures perms { IfOk result (λ s. s.perms ≡ record { read = true; write = false; exec = true }) }
{
    Ok(Segment {
        start: START,
        size: code.len() as u32,
        perms: Perms {
            read: true,
            write: false,
            exec: true,
        },
        bytes: Bytes::of(Vec::from_slice(alloc, code)?),
    })
}

/// An executable with this code at 08048054.
fn with_code(alloc: Global, code: &[u8]) -> Result<Exe, AllocError>
    requires some { 0 < length code.now }
    requires few { length code.now ≤ 100 }
    ensures { IfOk result IsGuest }
{
    let mut segments = Vec::new(alloc);
    segments.push(segment(alloc, code)?)?;
    Ok(Exe {
        entry: START,
        segments: Segments::of(segments),
        brk_start: 0x0804_9000,
    })
}

/// The code of the block at 08048054 with these known exits, each with all registers live.
fn code_with(
    rt: &impl Abort,
    alloc: Global,
    code: &[u8],
    exits: &[u32],
) -> Result<Assembled, AllocError>
    requires some { 0 < length code.now }
    requires few { length code.now ≤ 100 }
    requires exits { length exits.now ≤ 100 }
{
    let exe = with_code(alloc, code)?;
    let mut known = Vec::new(alloc);
    for exit in exits {
        known.push((*exit, 0x3fff))?;
    }
    let key = BlockKey {
        start: START,
        exits: KnownExits::of(known),
    };
    assert!(rt; in_exec(&exe, START));
    assert!(rt; key.exits.as_slice().len() <= MAX_EXITS);
    code_of(alloc, &exe, &key)
}

/// Whether the code is of these parts, one behind another.
fn is_code(rt: &HostRuntime, code: &Assembled, parts: &[&[u8]]) -> Result<bool, Fail> {
    let mut all = Vec::new(rt.alloc());
    for part in parts {
        all.extend_from_slice(part)?;
    }
    Ok(code.bytes() == all.as_slice())
}

/// A fix to a known block.
fn known(at: u32, target: u32) -> Fix {
    Fix {
        at,
        target,
        known: true,
    }
}

/// A fix to the original.
fn original(at: u32, target: u32) -> Fix {
    Fix {
        at,
        target,
        known: false,
    }
}

#[test]
fn four_movs(rt: HostRuntime) -> Result<(), Fail> {
    // mov eax,1; mov ebx,2; mov ecx,3; mov edx,4; int 0x80
    let code = [
        0xb8, 0x01, 0x00, 0x00, 0x00, 0xbb, 0x02, 0x00, 0x00, 0x00, 0xb9, 0x03, 0x00, 0x00, 0x00,
        0xba, 0x04, 0x00, 0x00, 0x00, 0xcd, 0x80,
    ];
    let made = code_with(&rt, rt.alloc(), &code, &[0x0804_8068])?;
    // the homes take the numbers, in the order of their registers; jmp to the block of int 0x80
    let moves = [
        0xbb, 0x01, 0x00, 0x00, 0x00, 0xc7, 0x05, 0x04, 0x00, 0x00, 0x07, 0x03, 0x00, 0x00, 0x00,
        0xc7, 0x05, 0x08, 0x00, 0x00, 0x07, 0x04, 0x00, 0x00, 0x00, 0xc7, 0x05, 0x0c, 0x00, 0x00,
        0x07, 0x02, 0x00, 0x00, 0x00,
    ];
    assert!(rt; is_code(&rt, &made, &[&moves, &[0xe9, 0, 0, 0, 0]])?);
    assert!(rt; made.fixes() == [known(36, 0x0804_8068)].as_slice());
    Ok(())
}

#[test]
fn a_condition_with_one_known_way(rt: HostRuntime) -> Result<(), Fail> {
    // jz to itself
    let made = code_with(&rt, rt.alloc(), &[0x74, 0xfe], &[START])?;
    // mov eax,[zf]; test eax,eax; jnz over the side exit, of 141 bytes
    let test = [
        0x8b, 0x05, 0x28, 0x00, 0x00, 0x07, 0x85, 0xc0, 0x0f, 0x85, 0x8d, 0x00, 0x00, 0x00,
    ];
    let jump = [0xe9, 0, 0, 0, 0];
    assert!(rt; is_code(&rt, &made, &[&test, &SPILL, &RESTORE, &jump, &jump])?);
    assert!(rt; made.fixes() == [original(151, 0x0804_8056), known(156, START)].as_slice());
    Ok(())
}

#[test]
fn an_indirect_jump_with_two_known_exits(rt: HostRuntime) -> Result<(), Fail> {
    // jmp eax
    let made = code_with(&rt, rt.alloc(), &[0xff, 0xe0], &[START, START + 1])?;
    // mov eax,ebx; cmp eax,08048054; jz; cmp eax,08048055; jz; mov eax,ebx; mov [jump slot],eax
    let aim = [
        0x89, 0xd8, 0x81, 0xf8, 0x54, 0x80, 0x04, 0x08, 0x0f, 0x84, 0xa2, 0x00, 0x00, 0x00, 0x81,
        0xf8, 0x55, 0x80, 0x04, 0x08, 0x0f, 0x84, 0x9b, 0x00, 0x00, 0x00, 0x89, 0xd8, 0x89, 0x05,
        0x3c, 0x00, 0x00, 0x07,
    ];
    // jmp [jump slot]
    let away = [0xff, 0x25, 0x3c, 0x00, 0x00, 0x07];
    let jump = [0xe9, 0, 0, 0, 0];
    assert!(rt; is_code(&rt, &made, &[&aim, &SPILL, &RESTORE, &away, &jump, &jump])?);
    assert!(rt; made.fixes() == [known(177, START), known(182, START + 1)].as_slice());
    Ok(())
}

#[test]
fn a_native_instruction(rt: HostRuntime) -> Result<(), Fail> {
    // int 0x80
    let made = code_with(&rt, rt.alloc(), &[0xcd, 0x80], &[START + 2])?;
    let jump = [0xe9, 0, 0, 0, 0];
    assert!(rt;
        is_code(
            &rt,
            &made,
            &[&SPILL, &RESTORE, &[0xcd, 0x80], &CAPTURE, &jump]
        )?
    );
    assert!(rt; made.fixes() == [known(240, START + 2)].as_slice());
    let made = code_with(&rt, rt.alloc(), &[0xcd, 0x80], &[])?;
    assert!(rt; made.fixes() == [original(240, START + 2)].as_slice());
    Ok(())
}

#[test]
fn fragments_are_made(rt: HostRuntime) -> Result<(), Fail> {
    let exe = with_code(rt.alloc(), &[0x90, 0xcd, 0x80])?;
    let key = BlockKey {
        start: START,
        exits: KnownExits::of(Vec::new(rt.alloc())),
    };
    assert!(rt; in_exec(&exe, START));
    let mut steps: Steps<u8> = Steps::new(0);
    let made = make(rt.alloc(), &exe, &key, &mut steps)?;
    assert_eq!(rt; made.len(), 141);
    assert_eq!(rt; made.byte(0), 0x89);
    assert!(rt; made.bytes().starts_with(&SPILL));
    assert!(rt; made.fixes() == [original(137, START + 1)].as_slice());
    Ok(())
}
