//! Cold starts of small executables. The expected answers were worked out by hand.
ghost use Rattle.std.specs.Prelude.{◌≡◌, ◌<◌, ◌≤◌, IfOk, length};
ghost use Rattle.elf_read.specs.Elf.{IsGuest};
ghost use Rattle.trace_file.specs.Edges.{IsEdges};

use crate::cold_starts;
use elf_read::{Bytes, Exe, Perms, Segment, Segments};
use flow_graph::Graph;
use std::alloc::{AllocError, Global};
use std::process::Abort;
use std::test::Fail;
use trace_file::Edges;

/// An executable with this code at 08048000, which begins to run there.
fn with_code(alloc: Global, code: &[u8]) -> Result<Exe, AllocError>
    requires some { 0 < length code.now }
    requires few { length code.now ≤ 100 }
    ensures { IfOk result IsGuest }
{
    let mut segments = Vec::new(alloc);
    segments.push(Segment {
        start: 0x0804_8000,
        size: code.len() as u32,
        perms: Perms {
            read: true,
            write: false,
            exec: true,
        },
        bytes: Bytes::of(Vec::from_slice(alloc, code)?),
    })?;
    Ok(Exe {
        entry: 0x0804_8000,
        segments: Segments::of(segments),
        brk_start: 0x0804_9000,
    })
}

/// The cold starts of code and edges.
fn cold(
    rt: &impl Abort,
    alloc: Global,
    code: &[u8],
    edges: &[(u32, u32)],
) -> Result<Vec<u32>, AllocError>
    requires some { 0 < length code.now }
    requires few { length code.now ≤ 100 }
    requires edges { IsEdges edges.now }
{
    let exe = with_code(alloc, code)?;
    let edges = Edges::of_list(Vec::from_slice(alloc, edges)?);
    let graph = Graph::of(alloc, &exe, &edges).expect(rt, "graph");
    Ok(cold_starts(alloc, &exe, &graph).expect(rt, "cold starts"))
}

/// jz 0804800b; call 08048009; nop; ret; jmp eax; call ecx; two bytes that spell nothing
const CODE: [u8; 15] = [
    0x74, 0x09, 0xe8, 0x02, 0, 0, 0, 0x90, 0xc3, 0xff, 0xe0, 0xff, 0xd1, 0x0f, 0xff,
];

#[test]
fn follows_ways_of_cold_blocks(rt: HostRuntime) -> Result<(), Fail> {
    let found = cold(&rt, rt.alloc(), &CODE, &[])?;
    let expected = [
        0x0804_8000,
        0x0804_8002,
        0x0804_8007,
        0x0804_8009,
        0x0804_800b,
        0x0804_800d,
    ];
    assert!(rt; found.as_slice() == expected.as_slice());
    Ok(())
}

#[test]
fn follows_ways_of_blocks(rt: HostRuntime) -> Result<(), Fail> {
    let edges = [
        (0, 0x0804_8000),
        (0x0804_8000, 0x0804_8002),
        (0x0804_8002, 0x0804_8009),
    ];
    let found = cold(&rt, rt.alloc(), &CODE, &edges)?;
    let expected = [0x0804_8007, 0x0804_800b, 0x0804_800d];
    assert!(rt; found.as_slice() == expected.as_slice());
    Ok(())
}

#[test]
fn goes_on_behind_64_instructions(rt: HostRuntime) -> Result<(), Fail> {
    // 66 times nop, and ret
    let mut code = [0x90; 67];
    code[66] = 0xc3;
    let found = cold(&rt, rt.alloc(), &code, &[])?;
    assert!(rt; found.as_slice() == [0x0804_8000, 0x0804_8040].as_slice());
    let found = cold(&rt, rt.alloc(), &code, &[(0, 0x0804_8000)])?;
    assert!(rt; found.is_empty());
    Ok(())
}

#[test]
fn has_unreadable_bytes_behind_a_block(rt: HostRuntime) -> Result<(), Fail> {
    // int 0x80; nop; two bytes that spell nothing
    let code = [0xcd, 0x80, 0x90, 0x0f, 0xff];
    let found = cold(&rt, rt.alloc(), &code, &[(0, 0x0804_8000)])?;
    assert!(rt; found.as_slice() == [0x0804_8003].as_slice());
    let found = cold(&rt, rt.alloc(), &code, &[])?;
    assert!(rt; found.as_slice() == [0x0804_8000].as_slice());
    Ok(())
}
