//! Cuts of cold blocks. The expected answers were worked out by hand.
ghost use Rattle.std.specs.Prelude.{◌<◌, ◌≤◌, IfOk, length};
ghost use Rattle.elf_read.specs.Elf.{IsGuest};

use crate::{ColdCut, ColdEnd, cut_cold};
use elf_read::{Bytes, Exe, Perms, Segment, Segments};
use std::alloc::{AllocError, Global};
use std::test::Fail;

/// An executable with this code at 08048000.
fn with_code(alloc: Global, code: &[u8]) -> Result<Exe, AllocError>
    requires some { 0 < length code.now }
    requires few { length code.now ≤ 100 }
    ensures { IfOk result IsGuest }
{
    let mut segments = Vec::new(alloc);
    segments.push(Segment {
        start: 0x0804_8000,
        size: code.len() as u32,
        perms: Perms {
            read: true,
            write: false,
            exec: true,
        },
        bytes: Bytes::of(Vec::from_slice(alloc, code)?),
    })?;
    Ok(Exe {
        entry: 0x0804_8000,
        segments: Segments::of(segments),
        brk_start: 0x0804_9000,
    })
}

fn cut_of(count: u8, len: u32, end: ColdEnd, last: u32) -> ColdCut {
    ColdCut {
        count,
        len,
        end,
        last,
    }
}

#[test]
fn cuts_at_transfers_and_unreadable_bytes(rt: HostRuntime) -> Result<(), Fail> {
    // mov eax, 4; int 0x80, which is native; jz 08048000; retn; nop; two bytes that spell nothing
    let code = [
        0xb8, 4, 0, 0, 0, 0xcd, 0x80, 0x74, 0xf7, 0xc3, 0x90, 0x0f, 0xff,
    ];
    let exe = with_code(rt.alloc(), &code)?;
    assert_eq!(rt;
        cut_cold(&exe, 0x0804_8000),
        cut_of(3, 9, ColdEnd::Transfers, 0x0804_8007)
    );
    assert_eq!(rt;
        cut_cold(&exe, 0x0804_8005),
        cut_of(2, 4, ColdEnd::Transfers, 0x0804_8007)
    );
    assert_eq!(rt;
        cut_cold(&exe, 0x0804_8009),
        cut_of(1, 1, ColdEnd::Transfers, 0x0804_8009)
    );
    assert_eq!(rt;
        cut_cold(&exe, 0x0804_800a),
        cut_of(1, 1, ColdEnd::Unreadable, 0x0804_800a)
    );
    assert_eq!(rt;
        cut_cold(&exe, 0x0804_800b),
        cut_of(0, 0, ColdEnd::Unreadable, 0x0804_800b)
    );
    assert_eq!(rt;
        cut_cold(&exe, 0xffff_ffff),
        cut_of(0, 0, ColdEnd::Unreadable, 0xffff_ffff)
    );
    Ok(())
}

#[test]
fn counts_instructions(rt: HostRuntime) -> Result<(), Fail> {
    // 65 times nop, and retn
    let mut code = [0x90; 66];
    code[65] = 0xc3;
    let exe = with_code(rt.alloc(), &code)?;
    assert_eq!(rt;
        cut_cold(&exe, 0x0804_8000),
        cut_of(64, 64, ColdEnd::Full, 0x0804_803f)
    );
    assert_eq!(rt;
        cut_cold(&exe, 0x0804_8001),
        cut_of(64, 64, ColdEnd::Full, 0x0804_8040)
    );
    assert_eq!(rt;
        cut_cold(&exe, 0x0804_8002),
        cut_of(64, 64, ColdEnd::Transfers, 0x0804_8041)
    );
    Ok(())
}
