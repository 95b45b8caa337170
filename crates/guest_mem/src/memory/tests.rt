//! One small guest: code at 0x08048000, data at 0x08049000, the heap from 0x0804A000.

ghost use Rattle.std.specs.Prelude.{IfOk};
ghost use Rattle.elf_read.specs.Elf.{IsGuest};

use super::*;
use elf_read::{Bytes, Perms, Segment, Segments};
use std::test::Fail;

fn guest(alloc: Global) -> Result<Exe, AllocError>
    ensures { IfOk result IsGuest }
{
    let mut segments = Vec::new(alloc);
    segments.push(Segment {
        start: 0x0804_8000,
        size: 20,
        perms: Perms {
            read: true,
            write: false,
            exec: true,
        },
        bytes: Bytes::of(Vec::from_slice(alloc, &[0x90, 0xC3])?),
    })?;
    segments.push(Segment {
        start: 0x0804_9000,
        size: 8,
        perms: Perms {
            read: true,
            write: true,
            exec: false,
        },
        bytes: Bytes::of(Vec::from_slice(alloc, &[1, 2, 3, 4, 5])?),
    })?;
    Ok(Exe {
        entry: 0x0804_8000,
        segments: Segments::of(segments),
        brk_start: 0x0804_A000,
    })
}

/// A guest of one segment of 121 bytes.
fn short_guest(alloc: Global) -> Result<Exe, AllocError>
    ensures { IfOk result IsGuest }
{
    let mut segments = Vec::new(alloc);
    segments.push(Segment {
        start: 0x0804_8000,
        size: 121,
        perms: Perms {
            read: true,
            write: false,
            exec: true,
        },
        bytes: Bytes::of(Vec::from_slice(alloc, &[0x90, 0xC3])?),
    })?;
    Ok(Exe {
        entry: 0x0804_8000,
        segments: Segments::of(segments),
        brk_start: 0x0804_9000,
    })
}

/// A guest whose code starts a byte before a border.
fn border_guest(alloc: Global) -> Result<Exe, AllocError>
    ensures { IfOk result IsGuest }
{
    let mut segments = Vec::new(alloc);
    segments.push(Segment {
        start: 0x0804_8FFF,
        size: 4100,
        perms: Perms {
            read: true,
            write: false,
            exec: true,
        },
        bytes: Bytes::of(Vec::from_slice(alloc, &[0x81, 0xC0, 1, 2, 3, 4, 0xC3])?),
    })?;
    Ok(Exe {
        entry: 0x0804_8FFF,
        segments: Segments::of(segments),
        brk_start: 0x0804_B000,
    })
}

#[test]
fn begins(rt: HostRuntime) -> Result<(), Fail> {
    let memory = Memory::of(rt.alloc(), &guest(rt.alloc())?, &[0xAA, 0xBB])?;
    for (at, w, want) in [
        (0x0804_9000, Width::B32, Some(0x0403_0201)),
        (0x0804_9004, Width::B32, Some(5)),
        (0x0804_9003, Width::B16, Some(0x0504)),
        (0x0804_9003, Width::B8, Some(4)),
        (0x0804_9005, Width::B32, None),
        (0x0804_8000, Width::B16, Some(0xC390)),
        (0x0804_A000, Width::B8, None),
        (0xBFEF_FFFF, Width::B8, None),
        (0xBFF0_0000, Width::B32, Some(0)),
        (0xBFFF_FFFC, Width::B32, Some(0xBBAA_0000)),
        (0xBFFF_FFFF, Width::B16, None),
        (0xFFFF_FFFF, Width::B32, None),
    ] {
        assert_eq!(rt; memory.load(at, w), want, "at {at}");
    }
    Ok(())
}

#[test]
fn stores(rt: HostRuntime) -> Result<(), Fail> {
    let mut memory = Memory::of(rt.alloc(), &guest(rt.alloc())?, &[])?;
    assert!(rt; memory.store(0x0804_9002, Width::B16, 0x1234_ABCD));
    assert_eq!(rt; memory.load(0x0804_9000, Width::B32), Some(0xABCD_0201));
    assert!(rt; !memory.store(0x0804_9006, Width::B32, 0xFFFF_FFFF));
    assert_eq!(rt; memory.load(0x0804_9004, Width::B32), Some(5));
    assert!(rt; !memory.store(0x0804_8000, Width::B8, 0));
    assert!(rt; memory.store(0xBFFF_FFFC, Width::B32, 0x8000_0001));
    assert_eq!(rt; memory.load(0xBFFF_FFFF, Width::B8), Some(0x80));
    Ok(())
}

#[test]
fn fetches(rt: HostRuntime) -> Result<(), Fail> {
    let memory = Memory::of(rt.alloc(), &guest(rt.alloc())?, &[])?;
    let mut bytes = [7; 15];
    assert_eq!(rt; memory.fetch(0x0804_8012, &mut bytes), 2);
    assert_eq!(rt; bytes, [0, 0, 7, 7, 7, 7, 7, 7, 7, 7, 7, 7, 7, 7, 7]);
    assert_eq!(rt; memory.fetch(0x0804_8000, &mut bytes), 15);
    assert_eq!(rt; bytes, [0x90, 0xC3, 0, 0, 0, 0, 0, 0, 0, 0, 0, 0, 0, 0, 0]);
    assert_eq!(rt; memory.fetch(0x0804_8014, &mut bytes), 0);
    assert_eq!(rt; memory.fetch(0x0804_9000, &mut bytes), 0);
    Ok(())
}

#[test]
fn copies(rt: HostRuntime) -> Result<(), Fail> {
    let mut memory = Memory::of(rt.alloc(), &guest(rt.alloc())?, &[])?;
    assert!(rt; !memory.can_write(0x0804_8000, 3));
    assert!(rt; !memory.can_read(0x0804_9006, 3));
    assert!(rt; memory.can_write(0x0804_9005, 3));
    memory.copy_in(0x0804_9005, &[9, 8, 7]);
    let mut bytes = [0; 5];
    assert!(rt; memory.can_read(0x0804_9003, 5));
    memory.copy_out(0x0804_9003, &mut bytes);
    assert_eq!(rt; bytes, [4, 5, 9, 8, 7]);
    Ok(())
}

#[test]
fn moves_the_break(rt: HostRuntime) -> Result<(), Fail> {
    let mut memory = Memory::of(rt.alloc(), &guest(rt.alloc())?, &[])?;
    assert_eq!(rt; memory.set_break(0x0804_A004)?, 0x0804_A004);
    assert!(rt; memory.store(0x0804_A000, Width::B32, 0x4433_2211));
    assert_eq!(rt; memory.set_break(0x0804_A002)?, 0x0804_A002);
    assert_eq!(rt; memory.load(0x0804_A001, Width::B16), None);
    assert_eq!(rt; memory.set_break(0x0804_A008)?, 0x0804_A008);
    assert_eq!(rt; memory.load(0x0804_A000, Width::B32), Some(0x2211));
    assert_eq!(rt; memory.load(0x0804_A004, Width::B32), Some(0));
    assert_eq!(rt; memory.set_break(0x0804_9FFF)?, 0x0804_A008);
    assert_eq!(rt; memory.set_break(0x0C04_A001)?, 0x0804_A008);
    assert_eq!(rt; memory.set_break(0x0C04_A000)?, 0x0C04_A000);
    assert_eq!(rt; memory.load(0x0C04_9FFC, Width::B32), Some(0));
    Ok(())
}

#[test]
fn crosses_pages(rt: HostRuntime) -> Result<(), Fail> {
    let mut memory = Memory::of(rt.alloc(), &guest(rt.alloc())?, &[])?;
    for (at, w, value) in [
        (0xBFF0_0FFF, Width::B16, 0x0000_2211),
        (0xBFF0_1FFF, Width::B32, 0x4433_2211),
        (0xBFF0_2FFE, Width::B32, 0x8877_6655),
        (0xBFF0_3FFD, Width::B32, 0xCCBB_AA99),
    ] {
        assert!(rt; memory.store(at, w, value), "at {at}");
        assert_eq!(rt; memory.load(at, w), Some(value), "at {at}");
    }
    assert_eq!(rt; memory.load(0xBFF0_2000, Width::B32), Some(0x0044_3322));
    Ok(())
}

#[test]
fn lends_pieces(rt: HostRuntime) -> Result<(), Fail> {
    let mut memory = Memory::of(rt.alloc(), &guest(rt.alloc())?, &[])?;
    assert!(rt; memory.can_write(0xBFF0_0FFE, 5));
    let piece = memory.piece_mut(0xBFF0_0FFE, 5);
    assert_eq!(rt; piece.len(), 2);
    piece.copy_from_slice(&[1, 2]);
    assert!(rt; memory.can_write(0xBFF0_1000, 3));
    let piece = memory.piece_mut(0xBFF0_1000, 3);
    assert_eq!(rt; piece.len(), 3);
    piece.copy_from_slice(&[3, 4, 5]);
    assert_eq!(rt; memory.load(0xBFF0_0FFE, Width::B32), Some(0x0403_0201));
    assert!(rt; memory.can_read(0xBFF0_0FFE, 5));
    assert_eq!(rt; memory.piece(0xBFF0_0FFE, 5), [1, 2].as_slice());
    Ok(())
}

#[test]
fn moves_the_break_by_pages(rt: HostRuntime) -> Result<(), Fail> {
    let mut memory = Memory::of(rt.alloc(), &guest(rt.alloc())?, &[])?;
    assert_eq!(rt; memory.set_break(0x0804_B800)?, 0x0804_B800);
    assert!(rt; memory.store(0x0804_AFFE, Width::B32, 0x4433_2211));
    assert_eq!(rt; memory.set_break(0x0804_B000)?, 0x0804_B000);
    assert_eq!(rt; memory.load(0x0804_AFFE, Width::B32), None);
    assert_eq!(rt; memory.set_break(0x0804_D001)?, 0x0804_D001);
    assert_eq!(rt; memory.load(0x0804_AFFE, Width::B32), Some(0x2211));
    assert_eq!(rt; memory.load(0x0804_D000, Width::B8), Some(0));
    Ok(())
}

/// How many bytes each page of a region has.
fn page_sizes(alloc: Global, memory: &Memory, place: usize) -> Result<Vec<usize>, Fail> {
    match memory.areas.get(place) {
        None => Err("no region".into()),
        Some(area) => Ok(area.page_sizes(alloc)?),
    }
}

#[test]
fn pages_are_apart(rt: HostRuntime) -> Result<(), Fail> {
    let mut memory = Memory::of(rt.alloc(), &short_guest(rt.alloc())?, &[])?;
    assert_eq!(rt; memory.set_break(0x0804_B000)?, 0x0804_B000);
    assert_eq!(rt;
        page_sizes(rt.alloc(), &memory, 0)?.as_slice(),
        [121].as_slice()
    );
    assert_eq!(rt;
        page_sizes(rt.alloc(), &memory, 2)?.as_slice(),
        [4096, 4096].as_slice()
    );
    assert_eq!(rt; memory.set_break(0x0804_9801)?, 0x0804_9801);
    assert_eq!(rt;
        page_sizes(rt.alloc(), &memory, 2)?.as_slice(),
        [2049].as_slice()
    );
    assert_eq!(rt; memory.set_break(0x0804_A801)?, 0x0804_A801);
    assert_eq!(rt;
        page_sizes(rt.alloc(), &memory, 2)?.as_slice(),
        [4096, 2049].as_slice()
    );
    Ok(())
}

#[test]
fn begins_before_a_border(rt: HostRuntime) -> Result<(), Fail> {
    let memory = Memory::of(rt.alloc(), &border_guest(rt.alloc())?, &[])?;
    assert_eq!(rt;
        page_sizes(rt.alloc(), &memory, 0)?.as_slice(),
        [1, 4096, 3].as_slice()
    );
    let mut bytes = [7; 15];
    assert_eq!(rt; memory.fetch(0x0804_8FFF, &mut bytes), 15);
    assert_eq!(rt;
        bytes,
        [0x81, 0xC0, 1, 2, 3, 4, 0xC3, 0, 0, 0, 0, 0, 0, 0, 0]
    );
    assert_eq!(rt; memory.load(0x0804_8FFF, Width::B32), Some(0x0201_C081));
    assert!(rt; memory.can_read(0x0804_8FFF, 3));
    assert_eq!(rt; memory.piece(0x0804_8FFF, 3), [0x81].as_slice());
    assert!(rt; memory.can_read(0x0804_9000, 2));
    assert_eq!(rt; memory.piece(0x0804_9000, 2), [0xC0, 1].as_slice());
    assert_eq!(rt; memory.fetch(0x0804_A001, &mut bytes), 2);
    assert_eq!(rt; memory.fetch(0x0804_A003, &mut bytes), 0);
    Ok(())
}

#[test]
fn lends_code_in_one_page(rt: HostRuntime) -> Result<(), Fail> {
    let memory = Memory::of(rt.alloc(), &border_guest(rt.alloc())?, &[])?;
    assert_eq!(rt; memory.code(0x0804_8FFE), [].as_slice());
    assert_eq!(rt; memory.code(0x0804_8FFF), [].as_slice());
    assert_eq!(rt;
        memory.code(0x0804_9000),
        [0xC0, 1, 2, 3, 4, 0xC3, 0, 0, 0, 0, 0, 0, 0, 0, 0].as_slice()
    );
    assert_eq!(rt; memory.code(0x0804_9FF1).len(), 15);
    assert_eq!(rt; memory.code(0x0804_9FF2).len(), 0);
    assert_eq!(rt; memory.code(0x0804_A001), [0, 0].as_slice());
    assert_eq!(rt; memory.code(0x0804_A003), [].as_slice());
    assert_eq!(rt; memory.code(0xBFF0_0000), [].as_slice());
    Ok(())
}

#[test]
fn shows_zeros_after_a_fall(rt: HostRuntime) -> Result<(), Fail> {
    let mut memory = Memory::of(rt.alloc(), &guest(rt.alloc())?, &[])?;
    assert_eq!(rt; memory.set_break(0x0804_C000)?, 0x0804_C000);
    assert!(rt; memory.can_write(0x0804_AFFD, 6));
    memory.copy_in(0x0804_AFFD, &[1, 2, 3, 4, 5, 6]);
    assert_eq!(rt; memory.set_break(0x0804_B000)?, 0x0804_B000);
    assert_eq!(rt; memory.set_break(0x0804_C000)?, 0x0804_C000);
    let mut bytes = [7; 6];
    assert!(rt; memory.can_read(0x0804_AFFD, 6));
    memory.copy_out(0x0804_AFFD, &mut bytes);
    assert_eq!(rt; bytes, [1, 2, 3, 0, 0, 0]);
    Ok(())
}
