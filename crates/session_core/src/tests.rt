//! A trace comes and goes, and only what is new is made. The numbers are those of another program over the same rules.
use crate::Session;
use br_word::Steps;
use code_layout::{BuildError, Emitted};
use elf_read::{Reach, read_elf};
use std::alloc::Global;
use std::process::Abort;
use std::test::Fail;
use trace_file::Edges;
use trace_set::Unknown;

/// A program that writes `hi` and a line feed, in one segment of headers and code. It begins to run at 08048054.
const HELLO: [u8; 121] = [
    0x7f, 0x45, 0x4c, 0x46, 1, 1, 1, 0, 0, 0, 0, 0, 0, 0, 0, 0, 2, 0, 3, 0, 1, 0, 0, 0, 0x54, 0x80,
    0x04, 0x08, 0x34, 0, 0, 0, 0, 0, 0, 0, 0, 0, 0, 0, 0x34, 0, 0x20, 0, 1, 0, 0, 0, 0, 0, 0, 0, 1,
    0, 0, 0, 0, 0, 0, 0, 0, 0x80, 0x04, 0x08, 0, 0x80, 0x04, 0x08, 0x79, 0, 0, 0, 0x79, 0, 0, 0, 5,
    0, 0, 0, 0, 0x10, 0, 0, 0xb8, 4, 0, 0, 0, 0xbb, 1, 0, 0, 0, 0xb9, 0x76, 0x80, 0x04, 0x08, 0xba,
    3, 0, 0, 0, 0xcd, 0x80, 0xb8, 1, 0, 0, 0, 0xbb, 0, 0, 0, 0, 0xcd, 0x80, 0x68, 0x69, 0x0a,
];

/// A session of it, without traces.
fn session(rt: &impl Abort, alloc: Global) -> Session<()> {
    let exe = read_elf(alloc, &HELLO, Reach::Original).expect(rt, "accepted");
    Session::of(alloc, exe).expect(rt, "begun")
}

/// How many blocks and how much code a file has.
fn size(file: &Result<Emitted<()>, BuildError>) -> (u32, u32) {
    match file {
        Ok(file) => (file.built().blocks, file.built().code),
        Err(_) => (0, 0),
    }
}

#[test]
fn makes_what_is_new(rt: HostRuntime) -> Result<(), Fail> {
    let alloc = rt.alloc();
    let mut session = session(&rt, alloc);
    let mut steps = Steps::new(());
    assert_eq!(rt; size(&session.emit(&mut steps)), (0, 5));
    assert_eq!(rt; session.compiled_last(), 0);
    let trace = Edges::of_list(vec![in alloc; (0, 0x0804_8054)]?);
    assert!(rt; session.add(&trace).is_ok());
    assert_eq!(rt; size(&session.emit(&mut steps)).0, 5);
    assert_eq!(rt; session.compiled_last(), 5);
    assert_eq!(rt; size(&session.emit(&mut steps)).0, 5);
    assert_eq!(rt; session.compiled_last(), 0);
    assert!(rt; session.remove(1, &mut steps) == Ok(()));
    assert!(rt; session.remove(1, &mut steps) == Err(Unknown));
    assert_eq!(rt; size(&session.emit(&mut steps)), (0, 5));
    Ok(())
}
