//! Whole runs, worked by hand.
use crate::{Guest, Stop, args_fit};
use br_outside::{CalmSink, CalmSource};
use br_word::GuestFault;
use elf_read::{Reach, read_elf};
use std::alloc::Global;
use std::test::Fail;

/// The headers of a file that is one segment with read and execute at 0x08048000; its length stands at
/// 68 and 72.
const HEADERS: [u8; 84] = [
    0x7f, 0x45, 0x4c, 0x46, 1, 1, 1, 0, 0, 0, 0, 0, 0, 0, 0, 0, 2, 0, 3, 0, 1, 0, 0, 0, 0x54, 0x80,
    4, 8, 0x34, 0, 0, 0, 0, 0, 0, 0, 0, 0, 0, 0, 0x34, 0, 0x20, 0, 1, 0, 0, 0, 0, 0, 0, 0, 1, 0, 0,
    0, 0, 0, 0, 0, 0, 0x80, 4, 8, 0, 0x80, 4, 8, 0, 0, 0, 0, 0, 0, 0, 0, 5, 0, 0, 0, 0, 0x10, 0, 0,
];

/// What a run came to.
#[derive(Drop)]
struct Finished {
    stop: Stop,
    steps: u64,
    undefined: u64,
    out: Vec<u8>,
    left: usize,
}

/// Runs a file of this code on this input.
fn run_code(alloc: Global, code: &[u8], input: &[u8], budget: u64) -> Result<Finished, Fail> {
    if code.len() > 100 || budget > 1000 {
        return Err("too long".into());
    }
    let mut file = Vec::from_slice(alloc, &HEADERS)?;
    file.extend_from_slice(code)?;
    if file.len() > 200 {
        return Err("too long".into());
    }
    let length = file.len() as u8;
    file[68] = length;
    file[72] = length;
    let Ok(exe) = read_elf(alloc, &file, Reach::Guest) else {
        return Err("refused".into());
    };
    let words: Vec<String> = Vec::new(alloc);
    if !args_fit(&words) {
        return Err("words".into());
    }
    let mut guest = Guest::of(alloc, &exe, &words)?;
    let mut source = CalmSource::new(Vec::from_slice(alloc, input)?);
    let mut out = CalmSink::new(alloc);
    let mut err = CalmSink::new(alloc);
    let Ok(stop) = guest.run(budget, &mut source, &mut out, &mut err) else {
        return Err("an object failed".into());
    };
    Ok(Finished {
        stop,
        steps: guest.steps(),
        undefined: guest.undefined(),
        out: Vec::from_slice(alloc, out.written())?,
        left: source.left().len(),
    })
}

#[test]
fn writes_and_exits(rt: HostRuntime) -> Result<(), Fail> {
    let hi = [
        0xb8, 4, 0, 0, 0, 0xbb, 1, 0, 0, 0, 0xb9, 0x76, 0x80, 4, 8, 0xba, 3, 0, 0, 0, 0xcd, 0x80,
        0xb8, 1, 0, 0, 0, 0xbb, 0, 0, 0, 0, 0xcd, 0x80, 0x68, 0x69, 0x0a,
    ];
    let whole = run_code(rt.alloc(), &hi, &[], 100)?;
    assert_eq!(rt; whole.stop, Stop::Exited(0));
    assert_eq!(rt; whole.steps, 8);
    assert_eq!(rt; whole.undefined, 0);
    assert_eq!(rt; whole.out.as_slice(), b"hi\n".as_slice());
    let none = run_code(rt.alloc(), &hi, &[], 0)?;
    assert_eq!(rt; none.stop, Stop::Budget);
    assert_eq!(rt; none.steps, 0);
    let turns = run_code(rt.alloc(), &[0xeb, 0xfe], &[], 10)?;
    assert_eq!(rt; turns.stop, Stop::Budget);
    assert_eq!(rt; turns.steps, 10);
    Ok(())
}

/// Moves so many bytes downwards, over overlapping ranges, and exits with what is left of the count.
fn moves(count: u8) -> [u8; 27] {
    [
        0xbe, 2, 0xf0, 0xff, 0xbf, 0xbf, 3, 0xf0, 0xff, 0xbf, 0xb9, count, 0, 0, 0, 0xfd, 0xf3,
        0xa4, 0xb8, 1, 0, 0, 0, 0x89, 0xcb, 0xcd, 0x80,
    ]
}

/// Three reads of 3, 4 and 4 bytes from an input of five; a division by 0; three repeated moves downwards
/// over overlapping ranges, and none; a flag that MUL leaves undefined.
#[test]
fn calls_faults_and_strings(rt: HostRuntime) -> Result<(), Fail> {
    let reads = [
        0xb8, 3, 0, 0, 0, 0xbb, 0, 0, 0, 0, 0xb9, 0, 0xf0, 0xff, 0xbf, 0xba, 3, 0, 0, 0, 0xcd,
        0x80, 0x89, 0xc6, 0xb8, 3, 0, 0, 0, 0xba, 4, 0, 0, 0, 0xcd, 0x80, 1, 0xc6, 0xb8, 3, 0, 0,
        0, 0xcd, 0x80, 1, 0xc6, 0xb8, 1, 0, 0, 0, 0x89, 0xf3, 0xcd, 0x80,
    ];
    let read = run_code(rt.alloc(), &reads, b"12345", 100)?;
    assert_eq!(rt; read.stop, Stop::Exited(5));
    assert_eq!(rt; read.steps, 16);
    assert_eq!(rt; read.left, 0);
    let divide = [
        0xb8, 1, 0, 0, 0, 0xba, 0, 0, 0, 0, 0xb9, 0, 0, 0, 0, 0xf7, 0xf1,
    ];
    let divided = run_code(rt.alloc(), &divide, &[], 100)?;
    assert_eq!(rt; divided.stop, Stop::Fault(GuestFault::Divide(0x0804_8063)));
    assert_eq!(rt; divided.steps, 4);
    let moved = run_code(rt.alloc(), &moves(3), &[], 100)?;
    assert_eq!(rt; moved.stop, Stop::Exited(0));
    assert_eq!(rt; moved.steps, 10);
    assert_eq!(rt; run_code(rt.alloc(), &moves(0), &[], 100)?.steps, 8);
    let undefined = [0xf7, 0xe0, 0x74, 0, 0xb8, 1, 0, 0, 0, 0xcd, 0x80];
    assert_eq!(rt; run_code(rt.alloc(), &undefined, &[], 100)?.undefined, 1);
    Ok(())
}
