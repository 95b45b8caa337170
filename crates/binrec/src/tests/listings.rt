//! Listings of blocks.
use super::{HELLO, left_of, with_code};
use crate::tests::traces::TRACE;
use std::alloc::{AllocError, Global};
use std::test::Fail;
use trace_file::digest;

/// The blocks of `HELLO` that its trace has seen.
const LISTING: &str = "block 08048054
  08048054 b804000000 mov eax, 0x00000004
  08048059 bb01000000 mov ebx, 0x00000001
  0804805e b976800408 mov ecx, 0x08048076
  08048063 ba03000000 mov edx, 0x00000003
  to 08048068 known
block 08048068
  08048068 cd80 int 0x80
  to 0804806a known
block 0804806a
  0804806a b801000000 mov eax, 0x00000001
  0804806f bb00000000 mov ebx, 0x00000000
  to 08048074 known
block 08048074
  08048074 cd80 int 0x80
  to 08048076 known
block 08048076
  to 08048076 original
";

#[test]
fn shows_the_blocks(rt: HostRuntime) -> Result<(), Fail> {
    let left = left_of(&rt, &["show", "E", "T"], &[("E", &HELLO), ("T", &TRACE)])?;
    assert_eq!(rt; left.status, 0);
    assert_eq!(rt; left.report.as_str(), "shown 5\n");
    assert_eq!(rt; left.printed.as_slice(), LISTING.as_bytes());
    assert!(rt; left.untaken);
    Ok(())
}

#[test]
fn shows_nothing_without_traces(rt: HostRuntime) -> Result<(), Fail> {
    let left = left_of(&rt, &["show", "E"], &[("E", &HELLO)])?;
    assert!(rt; left.says(0, "shown 0\n"));
    let jump = with_code(&rt, &[0xeb, 0xfe])?;
    let other = left_of(&rt, &["show", "E", "T"], &[("E", &jump), ("T", &TRACE)])?;
    assert!(rt; other.gives_up(2, "refused word 2 22 8\n"));
    Ok(())
}

/// An executable whose first instruction is a return, with so many more bytes behind it.
fn returning(alloc: Global, more: u32) -> Result<Vec<u8>, AllocError> {
    let mut file = HELLO[..68].to_vec(alloc)?;
    let size = more.saturating_add(85).to_le_bytes();
    file.extend_from_slice(&size)?;
    file.extend_from_slice(&size)?;
    file.extend_from_slice(&HELLO[76..84])?;
    file.push(0xc3)?;
    for _byte in 0..more {
        file.push(0x90)?;
    }
    Ok(file)
}

/// A trace of that executable in which the return led to each of so many bytes behind it.
fn spread(alloc: Global, file: &[u8], count: u32) -> Result<Vec<u8>, AllocError> {
    let mut trace = TRACE[..8].to_vec(alloc)?;
    trace.extend_from_slice(&digest(file))?;
    trace.extend_from_slice(&count.to_le_bytes())?;
    for k in 0..count {
        trace.extend_from_slice(&0x08048054u32.to_le_bytes())?;
        trace.extend_from_slice(&0x08048055u32.saturating_add(k).to_le_bytes())?;
    }
    Ok(trace)
}

#[test]
fn limits_the_blocks(rt: HostRuntime) -> Result<(), Fail> {
    let alloc = rt.alloc();
    let file = returning(alloc, 65600)?;
    let trace = spread(alloc, &file, 65537)?;
    let files: [(&str, &[u8]); 2] = [("E", &file), ("T", &trace)];
    let left = left_of(&rt, &["show", "E", "T"], &files)?;
    assert!(rt; left.gives_up(7, "limit blocks 65536\n"));
    Ok(())
}
