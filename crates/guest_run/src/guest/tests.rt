//! How a guest begins. The expected addresses were worked out by hand.

ghost use Rattle.std.specs.Prelude.{IfOk};
ghost use Rattle.elf_read.specs.Elf.{IsGuest};

use super::*;
use crate::arguments::args_fit;
use br_word::{Perms, Width};
use elf_read::{Bytes, Segment, Segments};
use std::test::Fail;

/// One segment: code at 0x08048000.
fn code(alloc: Global) -> Result<Exe, AllocError>
    ensures { IfOk result IsGuest }
{
    let mut segments = Vec::new(alloc);
    segments.push(Segment {
        start: 0x0804_8000,
        size: 20,
        perms: Perms {
            read: true,
            write: false,
            exec: true,
        },
        bytes: Bytes::of(vec![in alloc; 0x90, 0xC3]?),
    })?;
    Ok(Exe {
        entry: 0x0804_8000,
        segments: Segments::of(segments),
        brk_start: 0x0804_9000,
    })
}

/// What stands at an address and the word behind it.
fn words_at(guest: &Guest, at: u32) -> (Option<u32>, Option<u32>) {
    (
        guest.memory.load(at, Width::B32),
        guest.memory.load(at.wrapping_add(4), Width::B32),
    )
}

#[test]
fn begins(rt: HostRuntime) -> Result<(), Fail> {
    let exe = code(rt.alloc())?;
    let guest = Guest::of(rt.alloc(), &exe, &[])?;
    assert_eq!(rt; guest.eip(), 0x0804_8000);
    assert_eq!(rt; guest.cpu.regs, [0, 0, 0, 0, 0xBFFF_FFE0, 0, 0, 0]);
    assert_eq!(rt; words_at(&guest, 0xBFFF_FFE0), (Some(1), Some(0xBFFF_FFFA)));
    // `guest` and its zero byte end the stack.
    assert_eq!(rt;
        words_at(&guest, 0xBFFF_FFF8),
        (Some(0x7567_0000), Some(0x0074_7365))
    );

    let mut words = Vec::new(rt.alloc());
    words.push(String::from_str(rt.alloc(), "ab")?)?;
    assert!(rt; args_fit(&words));
    let guest = Guest::of(rt.alloc(), &exe, &words)?;
    assert_eq!(rt; guest.cpu.regs, [0, 0, 0, 0, 0xBFFF_FFD0, 0, 0, 0]);
    assert_eq!(rt; words_at(&guest, 0xBFFF_FFD0), (Some(2), Some(0xBFFF_FFF7)));
    assert_eq!(rt; words_at(&guest, 0xBFFF_FFD8), (Some(0xBFFF_FFFD), Some(0)));
    assert_eq!(rt;
        words_at(&guest, 0xBFFF_FFF8),
        (Some(0x7473_6575), Some(0x0062_6100))
    );
    Ok(())
}
