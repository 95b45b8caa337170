//! Examples over the streams in memory.
ghost use Rattle.std.specs.Prelude.{IfOk};
ghost use Rattle.elf_read.specs.Elf.{IsGuest};

use crate::{Traced, TracingError, trace};
use br_outside::{CalmSource, MemSink, MemSource, Source};
use elf_read::{Exe, Reach, read_elf};
use guest_run::{Stop, args_fit};
use std::alloc::Global;
use std::test::Fail;

/// The headers of a file that is one segment with read and execute at 0x08048000; its length stands at
/// 68 and 72.
const HEADERS: [u8; 84] = [
    0x7f, 0x45, 0x4c, 0x46, 1, 1, 1, 0, 0, 0, 0, 0, 0, 0, 0, 0, 2, 0, 3, 0, 1, 0, 0, 0, 0x54, 0x80,
    4, 8, 0x34, 0, 0, 0, 0, 0, 0, 0, 0, 0, 0, 0, 0x34, 0, 0x20, 0, 1, 0, 0, 0, 0, 0, 0, 0, 1, 0, 0,
    0, 0, 0, 0, 0, 0, 0x80, 4, 8, 0, 0x80, 4, 8, 0, 0, 0, 0, 0, 0, 0, 0, 5, 0, 0, 0, 0, 0x10, 0, 0,
];

/// The entry of such a file.
const ENTRY: u32 = 0x0804_8054;

/// An executable of this code.
fn exe_of(alloc: Global, code: &[u8]) -> Result<Exe, Fail>
    ensures { IfOk result IsGuest }
{
    if code.len() > 100 {
        return Err("too long".into());
    }
    let mut file = Vec::from_slice(alloc, &HEADERS)?;
    file.extend_from_slice(code)?;
    if file.len() > 200 {
        return Err("too long".into());
    }
    let length = file.len() as u8;
    file[68] = length;
    file[72] = length;
    match read_elf(alloc, &file, Reach::Guest) {
        Ok(exe) => Ok(exe),
        Err(_) => Err("refused".into()),
    }
}

/// The trace of this code without words.
fn trace_code<I: Source>(
    alloc: Global,
    code: &[u8],
    budget: u64,
    input: &mut I,
    out: &mut MemSink,
) -> Result<Result<Traced, TracingError>, Fail> {
    if budget > 1000 {
        return Err("too many steps".into());
    }
    let exe = exe_of(alloc, code)?;
    let words: Vec<String> = Vec::new(alloc);
    if !args_fit(&words) {
        return Err("words".into());
    }
    let mut report = MemSink::new(alloc, Vec::new(alloc));
    Ok(trace(alloc, &exe, &words, budget, input, out, &mut report))
}

/// The same where no call fails.
fn traced_code(alloc: Global, code: &[u8], budget: u64) -> Result<Traced, Fail> {
    let mut input = CalmSource::new(Vec::new(alloc));
    let mut out = MemSink::new(alloc, Vec::new(alloc));
    match trace_code(alloc, code, budget, &mut input, &mut out)? {
        Ok(traced) => Ok(traced),
        Err(_) => Err("not traced".into()),
    }
}

#[test]
fn an_exit_and_a_loop(rt: HostRuntime) -> Result<(), Fail> {
    let exit = [0xb8, 1, 0, 0, 0, 0xbb, 0, 0, 0, 0, 0xcd, 0x80];
    let left = traced_code(rt.alloc(), &exit, 100)?;
    assert_eq!(rt; left.edges.as_slice(), [(0, ENTRY)].as_slice());
    assert_eq!(rt; left.stop, Stop::Exited(0));
    assert_eq!(rt; left.steps, 3);
    let turns = traced_code(rt.alloc(), &[0xeb, 0xfe], 10)?;
    assert_eq!(rt;
        turns.edges.as_slice(),
        [(0, ENTRY), (ENTRY, ENTRY)].as_slice()
    );
    assert_eq!(rt; turns.stop, Stop::Budget);
    assert_eq!(rt; turns.steps, 10);
    assert_eq!(rt; turns.undefined, 0);
    let none = traced_code(rt.alloc(), &[0xeb, 0xfe], 0)?;
    assert_eq!(rt; none.edges.as_slice(), [(0, ENTRY)].as_slice());
    assert_eq!(rt; none.steps, 0);
    Ok(())
}

/// A Jcc that is not taken after `test eax,eax`, a Jcc that reads a flag which MUL leaves undefined, and a
/// call that goes on at its own return address.
#[test]
fn jumps_and_calls(rt: HostRuntime) -> Result<(), Fail> {
    let untaken = [
        0xb8, 1, 0, 0, 0, 0x85, 0xc0, 0x74, 2, 0xbb, 0, 0, 0, 0, 0xcd, 0x80,
    ];
    let past = traced_code(rt.alloc(), &untaken, 100)?;
    assert_eq!(rt;
        past.edges.as_slice(),
        [(0, ENTRY), (0x0804_805b, 0x0804_805d)].as_slice()
    );
    assert_eq!(rt; past.steps, 5);
    let undefined = [0xf7, 0xe0, 0x74, 0, 0xb8, 1, 0, 0, 0, 0xcd, 0x80];
    let read = traced_code(rt.alloc(), &undefined, 100)?;
    assert_eq!(rt;
        read.edges.as_slice(),
        [(0, ENTRY), (0x0804_8056, 0x0804_8058)].as_slice()
    );
    assert_eq!(rt; read.undefined, 1);
    let call = [
        0xe8, 0, 0, 0, 0, 0xb8, 1, 0, 0, 0, 0xbb, 3, 0, 0, 0, 0xcd, 0x80,
    ];
    let called = traced_code(rt.alloc(), &call, 100)?;
    assert_eq!(rt;
        called.edges.as_slice(),
        [(0, ENTRY), (ENTRY, 0x0804_8059)].as_slice()
    );
    assert_eq!(rt; called.stop, Stop::Exited(3));
    Ok(())
}

/// A write of three bytes to a sink whose first call fails, or its second, which is not made.
#[test]
fn the_output_fails(rt: HostRuntime) -> Result<(), Fail> {
    let hi = [
        0xb8, 4, 0, 0, 0, 0xbb, 1, 0, 0, 0, 0xb9, 0x76, 0x80, 4, 8, 0xba, 3, 0, 0, 0, 0xcd, 0x80,
        0xb8, 1, 0, 0, 0, 0xbb, 0, 0, 0, 0, 0xcd, 0x80, 0x68, 0x69, 0x0a,
    ];
    let alloc = rt.alloc();
    let mut input = MemSource::new(Vec::new(alloc), Vec::new(alloc));
    let mut broken = MemSink::new(alloc, Vec::from_slice(alloc, &[1])?);
    let early = trace_code(alloc, &hi, 4, &mut input, &mut broken)?;
    assert_eq!(rt; early.is_ok(), true);
    let failed = trace_code(alloc, &hi, 100, &mut input, &mut broken)?;
    assert_eq!(rt; failed.err(), Some(TracingError::Out));
    let mut sound = MemSink::new(alloc, Vec::from_slice(alloc, &[2])?);
    let written = trace_code(alloc, &hi, 100, &mut input, &mut sound)?;
    assert_eq!(rt; written.is_ok(), true);
    assert_eq!(rt; sound.written(), b"hi\n".as_slice());
    Ok(())
}
