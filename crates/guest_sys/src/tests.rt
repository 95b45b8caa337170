//! Calls over a border between pages: one writable segment from 0x08048800, which ends at 0x08049003.

ghost use Rattle.std.specs.Prelude.{IfOk};
ghost use Rattle.elf_read.specs.Elf.{IsGuest};

use crate::{Called, SysError, system};
use br_outside::{CalmSink, CalmSource, MemSink, MemSource};
use elf_read::{Bytes, Exe, Perms, Segment, Segments};
use guest_mem::Memory;
use ia_meaning::{Cpu, Flags, GuestFault};
use std::alloc::{AllocError, Global};
use std::test::Fail;

fn guest(alloc: Global) -> Result<Exe, AllocError>
    ensures { IfOk result IsGuest }
{
    let mut segments = Vec::new(alloc);
    segments.push(Segment {
        start: 0x0804_8000,
        size: 16,
        perms: Perms {
            read: true,
            write: false,
            exec: true,
        },
        bytes: Bytes::of(Vec::from_slice(alloc, &[0xC3])?),
    })?;
    segments.push(Segment {
        start: 0x0804_8800,
        size: 0x803,
        perms: Perms {
            read: true,
            write: true,
            exec: false,
        },
        bytes: Bytes::of(Vec::from_slice(alloc, &[1])?),
    })?;
    Ok(Exe {
        entry: 0x0804_8000,
        segments: Segments::of(segments),
        brk_start: 0x0804_A000,
    })
}

/// A processor that asks for a call.
fn asks(number: u32, descriptor: u32, at: u32, len: u32) -> Cpu {
    let flags = Flags {
        cf: true,
        pf: true,
        zf: true,
        sf: true,
        of: true,
    };
    Cpu {
        regs: [number, at, len, descriptor, 0, 0, 0, 0],
        eip: 0x0804_8002,
        flags,
        df: false,
        known: flags,
        undefined: 0,
    }
}

#[test]
fn writes_across_a_border(rt: HostRuntime) -> Result<(), Fail> {
    let mut memory = Memory::of(rt.alloc(), &guest(rt.alloc())?, &[])?;
    assert!(rt; memory.can_write(0x0804_8FFE, 5));
    memory.copy_in(0x0804_8FFE, b"UUUUU");
    let mut input = CalmSource::new(Vec::new(rt.alloc()));
    let mut err = CalmSink::new(rt.alloc());
    let mut out = MemSink::new(rt.alloc(), Vec::new(rt.alloc()));
    let mut cpu = asks(4, 1, 0x0804_8FFE, 5);
    let done = system(
        rt.alloc(),
        &mut cpu,
        &mut memory,
        &mut input,
        &mut out,
        &mut err,
    );
    assert_eq!(rt; done, Ok(Called::Goes));
    assert_eq!(rt; cpu.regs[0], 5);
    assert_eq!(rt; out.written(), b"UUUUU".as_slice());
    let mut fails = MemSink::new(rt.alloc(), Vec::from_slice(rt.alloc(), &[2])?);
    let mut cpu = asks(4, 1, 0x0804_8FFE, 5);
    let done = system(
        rt.alloc(),
        &mut cpu,
        &mut memory,
        &mut input,
        &mut fails,
        &mut err,
    );
    assert_eq!(rt; done, Err(SysError::Out));
    assert_eq!(rt; cpu.regs[0], 4);
    assert_eq!(rt; fails.written(), b"UU".as_slice());
    Ok(())
}

#[test]
fn reads_across_a_border(rt: HostRuntime) -> Result<(), Fail> {
    let mut memory = Memory::of(rt.alloc(), &guest(rt.alloc())?, &[])?;
    let mut out = CalmSink::new(rt.alloc());
    let mut err = CalmSink::new(rt.alloc());
    let mut input = MemSource::new(
        Vec::from_slice(rt.alloc(), b"abcdefgh")?,
        Vec::new(rt.alloc()),
    );
    let mut cpu = asks(3, 0, 0x0804_8FFD, 6);
    let done = system(
        rt.alloc(),
        &mut cpu,
        &mut memory,
        &mut input,
        &mut out,
        &mut err,
    );
    assert_eq!(rt; done, Ok(Called::Goes));
    assert_eq!(rt; cpu.regs[0], 6);
    assert_eq!(rt; input.left(), b"gh".as_slice());
    let mut bytes = [0; 6];
    assert!(rt; memory.can_read(0x0804_8FFD, 6));
    memory.copy_out(0x0804_8FFD, &mut bytes);
    assert_eq!(rt; bytes.as_slice(), b"abcdef".as_slice());
    let fails = Vec::from_slice(rt.alloc(), &[2])?;
    let mut input = MemSource::new(Vec::from_slice(rt.alloc(), b"ABCDEFGH")?, fails);
    let mut cpu = asks(3, 0, 0x0804_8FFD, 6);
    let done = system(
        rt.alloc(),
        &mut cpu,
        &mut memory,
        &mut input,
        &mut out,
        &mut err,
    );
    assert_eq!(rt; done, Err(SysError::Input));
    assert_eq!(rt; input.left(), b"DEFGH".as_slice());
    assert!(rt; memory.can_read(0x0804_8FFD, 6));
    memory.copy_out(0x0804_8FFD, &mut bytes);
    assert_eq!(rt; bytes.as_slice(), b"ABCdef".as_slice());
    Ok(())
}

#[test]
fn reads_what_fits(rt: HostRuntime) -> Result<(), Fail> {
    let mut memory = Memory::of(rt.alloc(), &guest(rt.alloc())?, &[])?;
    let mut out = CalmSink::new(rt.alloc());
    let mut err = CalmSink::new(rt.alloc());
    let mut input = CalmSource::new(Vec::from_slice(rt.alloc(), b"12")?);
    let mut cpu = asks(3, 0, 0x0804_9001, 3);
    let done = system(
        rt.alloc(),
        &mut cpu,
        &mut memory,
        &mut input,
        &mut out,
        &mut err,
    );
    assert_eq!(rt; done, Ok(Called::Goes));
    assert_eq!(rt; cpu.regs[0], 2);
    let mut input = CalmSource::new(Vec::from_slice(rt.alloc(), b"345")?);
    let mut cpu = asks(3, 0, 0x0804_9001, 3);
    let done = system(
        rt.alloc(),
        &mut cpu,
        &mut memory,
        &mut input,
        &mut out,
        &mut err,
    );
    assert_eq!(rt; done, Ok(Called::Fault(GuestFault::Access(0x0804_9001))));
    let mut bytes = [0; 2];
    assert!(rt; memory.can_read(0x0804_9001, 2));
    memory.copy_out(0x0804_9001, &mut bytes);
    assert_eq!(rt; bytes.as_slice(), b"12".as_slice());
    Ok(())
}
