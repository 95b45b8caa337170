//! Examples from outside: a file of the format, its damaged forms, and a digest that sha256sum printed.
use crate::{Edges, FILE_EDGE_LIMIT, TraceError, digest, read_trace, union_all, write_trace};
use std::alloc::{AllocError, Global};
use std::test::Fail;

/// A program of 121 bytes.
const PROGRAM: &[u8] =
    b"\x7f\x45\x4c\x46\x01\x01\x01\x00\x00\x00\x00\x00\x00\x00\x00\x00\x02\x00\x03\x00\x01\x00\x00\x00\x54\x80\x04\x08\x34\x00\x00\x00\x00\x00\x00\x00\x00\x00\x00\x00\x34\x00\x20\x00\x01\x00\x00\x00\x00\x00\x00\x00\x01\x00\x00\x00\x00\x00\x00\x00\x00\x80\x04\x08\x00\x80\x04\x08\x79\x00\x00\x00\x79\x00\x00\x00\x05\x00\x00\x00\x00\x10\x00\x00\xb8\x04\x00\x00\x00\xbb\x01\x00\x00\x00\xb9\x76\x80\x04\x08\xba\x03\x00\x00\x00\xcd\x80\xb8\x01\x00\x00\x00\xbb\x00\x00\x00\x00\xcd\x80\x68\x69\x0a";

/// Its digest, as sha256sum printed it.
const DIGEST: [u8; 32] = [
    0x91, 0xee, 0x0a, 0xdd, 0x03, 0xa3, 0x4f, 0x6a, 0x2a, 0x91, 0x13, 0xd3, 0x28, 0xd3, 0x2e, 0x4a,
    0x5e, 0xbb, 0x3c, 0x21, 0x43, 0xc2, 0xd3, 0x7f, 0x1d, 0xfa, 0xd5, 0x99, 0xcf, 0xec, 0x3b, 0x7e,
];

/// The trace of a run of it that takes no jump: 52 bytes.
const TRACE: &[u8] =
    b"BRTRACE1\x91\xee\x0a\xdd\x03\xa3\x4f\x6a\x2a\x91\x13\xd3\x28\xd3\x2e\x4a\x5e\xbb\x3c\x21\x43\xc2\xd3\x7f\x1d\xfa\xd5\x99\xcf\xec\x3b\x7e\x01\x00\x00\x00\x00\x00\x00\x00\x54\x80\x04\x08";

fn changed(alloc: Global, at: usize, byte: u8) -> Result<Vec<u8>, AllocError> {
    let mut bytes = TRACE.to_vec(alloc)?;
    if at < bytes.len() {
        bytes[at] = byte;
    }
    Ok(bytes)
}

/// The number and the place of the refusal of a file: 0 and 0 where it is accepted.
fn refusal(alloc: Global, bytes: &[u8]) -> (u8, u32) {
    match read_trace(alloc, bytes, &DIGEST) {
        Ok(_) => (0, 0),
        Err(TraceError::Refused { number, place }) => (number, place),
        Err(TraceError::Other { .. }) => (22, 8),
        Err(TraceError::Memory) => (255, 0),
    }
}

#[test]
fn digests(rt: HostRuntime) {
    assert_eq!(rt; digest(PROGRAM).as_slice(), DIGEST.as_slice());
}

#[test]
fn reads_and_writes(rt: HostRuntime) -> Result<(), Fail> {
    let alloc = rt.alloc();
    let edges = read_trace(alloc, TRACE, &DIGEST)?;
    assert_eq!(rt; edges.as_slice(), [(0, 0x08048054)].as_slice());
    assert!(rt; edges.has(0, 0x08048054));
    assert!(rt; !edges.has(0, 0x08048053));
    assert!(rt; edges.len() <= FILE_EDGE_LIMIT);
    let written = write_trace(alloc, &edges, &DIGEST)?;
    assert_eq!(rt; written.as_slice(), TRACE);
    Ok(())
}

#[test]
fn refuses(rt: HostRuntime) -> Result<(), Fail> {
    let alloc = rt.alloc();
    assert_eq!(rt; refusal(alloc, TRACE), (0, 0));
    assert_eq!(rt; refusal(alloc, &changed(alloc, 0, 0)?), (21, 0));
    assert_eq!(rt; refusal(alloc, &TRACE[..3]), (21, 3));
    assert_eq!(rt; refusal(alloc, &TRACE[..43]), (23, 43));
    assert_eq!(rt; refusal(alloc, &TRACE[..51]), (23, 51));
    assert_eq!(rt; refusal(alloc, &changed(alloc, 8, 0)?), (22, 8));
    let mut twice = changed(alloc, 40, 2)?;
    twice.extend_from_slice(&TRACE[44..])?;
    assert_eq!(rt; refusal(alloc, &twice), (24, 52));
    let mut longer = TRACE.to_vec(alloc)?;
    longer.push(0)?;
    assert_eq!(rt; refusal(alloc, &longer), (25, 52));
    let mut many = changed(alloc, 40, 0x81)?;
    assert_eq!(rt; many.len(), 52);
    many[41] = 0x84;
    many[42] = 0x1E;
    assert_eq!(rt; refusal(alloc, &many), (26, 40));
    Ok(())
}

#[test]
fn joins(rt: HostRuntime) -> Result<(), Fail> {
    let alloc = rt.alloc();
    let left = Edges::of_list(vec![in alloc; (0, 7), (5, 1), (9, 2)]?);
    let right = Edges::of_list(vec![in alloc; (0, 7), (5, 0), (5, 2), (10, 0)]?);
    let both = left.union(&right)?;
    assert_eq!(rt;
        both.as_slice(),
        [(0, 7), (5, 0), (5, 1), (5, 2), (9, 2), (10, 0)].as_slice()
    );
    let none = Edges::new(alloc);
    assert_eq!(rt; none.union(&left)?.len(), 3);
    Ok(())
}

#[test]
fn joins_many(rt: HostRuntime) -> Result<(), Fail> {
    let alloc = rt.alloc();
    let sets = [
        Edges::of_list(vec![in alloc; (5, 1), (9, 2)]?),
        Edges::new(alloc),
        Edges::of_list(vec![in alloc; (5, 0), (5, 1)]?),
        Edges::of_list(vec![in alloc; (0, 7)]?),
        Edges::of_list(vec![in alloc; (0, 7), (10, 0)]?),
    ];
    let sets = sets.as_slice();
    let all = union_all(alloc, sets)?;
    assert_eq!(rt;
        all.as_slice(),
        [(0, 7), (5, 0), (5, 1), (9, 2), (10, 0)].as_slice()
    );
    assert_eq!(rt; union_all(alloc, &sets[1..2])?.len(), 0);
    assert_eq!(rt; union_all(alloc, &[])?.len(), 0);
    Ok(())
}
