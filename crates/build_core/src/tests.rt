//! A small program is built. The numbers were worked out by another program over the same rules.
use crate::build;
use code_layout::Built;
use elf_read::{Reach, read_elf};
use std::alloc::Global;
use std::process::Abort;
use std::test::Fail;
use trace_file::Edges;

/// A program that writes `hi` and a line feed, in one segment of headers and code. It begins to run at 08048054.
const HELLO: [u8; 121] = [
    0x7f, 0x45, 0x4c, 0x46, 1, 1, 1, 0, 0, 0, 0, 0, 0, 0, 0, 0, 2, 0, 3, 0, 1, 0, 0, 0, 0x54, 0x80,
    0x04, 0x08, 0x34, 0, 0, 0, 0, 0, 0, 0, 0, 0, 0, 0, 0x34, 0, 0x20, 0, 1, 0, 0, 0, 0, 0, 0, 0, 1,
    0, 0, 0, 0, 0, 0, 0, 0, 0x80, 0x04, 0x08, 0, 0x80, 0x04, 0x08, 0x79, 0, 0, 0, 0x79, 0, 0, 0, 5,
    0, 0, 0, 0, 0x10, 0, 0, 0xb8, 4, 0, 0, 0, 0xbb, 1, 0, 0, 0, 0xb9, 0x76, 0x80, 0x04, 0x08, 0xba,
    3, 0, 0, 0, 0xcd, 0x80, 0xb8, 1, 0, 0, 0, 0xbb, 0, 0, 0, 0, 0xcd, 0x80, 0x68, 0x69, 0x0a,
];

/// What is built for it.
fn built(rt: &impl Abort, alloc: Global, edges: &Edges) -> Built {
    let exe = read_elf(alloc, &HELLO, Reach::Original).expect(rt, "accepted");
    build(alloc, &exe, edges).expect(rt, "built")
}

/// The bytes from an offset on.
fn bytes_from(built: &Built, at: usize) -> &[u8] {
    if at < built.bytes.len() {
        &built.bytes.as_slice()[at..]
    } else {
        &[]
    }
}

#[test]
fn without_edges_it_jumps_to_the_original(rt: HostRuntime) {
    let built = built(&rt, rt.alloc(), &Edges::new(rt.alloc()));
    assert_eq!(rt; (built.blocks, built.code), (0, 5));
    assert_eq!(rt; built.bytes.len(), 8313);
    assert!(rt; bytes_from(&built, 4096).starts_with(&[0xe9, 0x4f, 0x80, 0x04, 0x07, 0]));
    assert!(rt; bytes_from(&built, 8192) == HELLO.as_slice());
}

#[test]
fn each_block_that_the_entry_leads_to_is_recovered(rt: HostRuntime) -> Result<(), Fail> {
    let list = vec![in rt.alloc(); (0, 0x0804_8054)]?;
    let built = built(&rt, rt.alloc(), &Edges::of_list(list));
    assert_eq!(rt; (built.blocks, built.code), (5, 795));
    assert_eq!(rt; built.bytes.len(), 8313);
    // the state is taken over first: mov [07000000],eax
    assert!(rt; bytes_from(&built, 4096).starts_with(&[0x89, 0x05, 0, 0, 0, 0x07]));
    assert!(rt; bytes_from(&built, 8192) == HELLO.as_slice());
    Ok(())
}

#[test]
fn lines_that_nothing_needs_are_left_out(rt: HostRuntime) -> Result<(), Fail> {
    // xor eax,eax; inc eax; xor ebx,ebx; int 0x80
    let mut bytes = Vec::from_slice(rt.alloc(), &HELLO[..84])?;
    bytes.extend_from_slice(&[0x31, 0xc0, 0x40, 0x31, 0xdb, 0xcd, 0x80])?;
    bytes[68] = 0x5b;
    bytes[72] = 0x5b;
    let exe = read_elf(rt.alloc(), bytes.as_slice(), Reach::Original).expect(&rt, "accepted");
    let edges = Edges::of_list(vec![in rt.alloc(); (0, 0x0804_8054)]?);
    let built = build(rt.alloc(), &exe, &edges).expect(&rt, "built");
    assert_eq!(rt; (built.blocks, built.code), (2, 420));
    assert_eq!(rt; built.bytes.len(), 8283);
    Ok(())
}
