//! Graphs of small executables. The expected answers were worked out by hand.
ghost use Rattle.std.specs.Prelude.{◌≡◌, ◌<◌, ◌≤◌, IfOk, length};
ghost use Rattle.elf_read.specs.Elf.{IsGuest};

use crate::Graph;
use block_cut::{Cut, End};
use elf_read::{Bytes, Exe, Perms, Segment, Segments};
use std::alloc::{AllocError, Global};
use std::process::Abort;
use std::test::Fail;
use trace_file::Edges;

/// An executable with this code at 08048000, which begins to run there.
pub fn with_code(alloc: Global, code: &[u8]) -> Result<Exe, AllocError>
    requires some { 0 < length code.now }
    requires few { length code.now ≤ 100 }
    ensures { IfOk result IsGuest }
{
    let mut segments = Vec::new(alloc);
    segments.push(Segment {
        start: 0x0804_8000,
        size: code.len() as u32,
        perms: Perms {
            read: true,
            write: false,
            exec: true,
        },
        bytes: Bytes::of(Vec::from_slice(alloc, code)?),
    })?;
    Ok(Exe {
        entry: 0x0804_8000,
        segments: Segments::of(segments),
        brk_start: 0x0804_9000,
    })
}

/// Whether the block of an index has this start and these known exits.
fn shows(graph: &Graph, index: u32, start: u32, known: &[u32]) -> bool {
    index < graph.len() && graph.start(index) == start && graph.known(index) == known
}

#[test]
fn follows_starts(rt: HostRuntime) -> Result<(), Fail> {
    // write(1, .., 3) and exit(0), and then three bytes of text
    let code = [
        0xb8, 4, 0, 0, 0, 0xbb, 1, 0, 0, 0, 0xb9, 0x22, 0x80, 0x04, 0x08, 0xba, 3, 0, 0, 0, 0xcd,
        0x80, 0xb8, 1, 0, 0, 0, 0xbb, 0, 0, 0, 0, 0xcd, 0x80, 0x68, 0x69, 0x0a,
    ];
    let exe = with_code(rt.alloc(), &code)?;
    let edges = Edges::of_list(vec![in rt.alloc(); (0, 0x0804_8000)]?);
    let graph = Graph::of(rt.alloc(), &exe, &edges).expect(&rt, "graph");
    assert_eq!(rt; graph.len(), 5);
    assert!(rt; shows(&graph, 0, 0x0804_8000, &[0x0804_8014]));
    assert!(rt; shows(&graph, 1, 0x0804_8014, &[0x0804_8016]));
    assert!(rt; shows(&graph, 2, 0x0804_8016, &[0x0804_8020]));
    assert!(rt; shows(&graph, 3, 0x0804_8020, &[0x0804_8022]));
    assert!(rt; shows(&graph, 4, 0x0804_8022, &[]));
    let graph = Graph::of(rt.alloc(), &exe, &Edges::new(rt.alloc())).expect(&rt, "graph");
    assert_eq!(rt; graph.len(), 0);
    Ok(())
}

/// Whether the block of an index goes so far.
fn goes(graph: &Graph, index: u32, cut: Cut) -> bool {
    index < graph.len() && graph.cut(index) == cut
}

/// jz 08048004; nop; ret; jmp eax; ret
const CODE: [u8; 7] = [0x74, 0x02, 0x90, 0xc3, 0xff, 0xe0, 0xc3];

/// The graph of this code and some edges.
fn graph_of_code(rt: &impl Abort, alloc: Global) -> Result<Graph, AllocError> {
    let exe = with_code(alloc, &CODE)?;
    let list = vec![in alloc;
        (0, 0x0804_8000),
        // no beginning
        (0, 0x0804_8006),
        (0x0804_8000, 0x0804_8002),
        (0x0804_8000, 0x0804_8004),
        // no target of it
        (0x0804_8000, 0x0804_8005),
        // no transfer
        (0x0804_8002, 0x0804_8005),
        (0x0804_8003, 0x0804_8000),
        (0x0804_8004, 0x0804_8003),
        (0x0804_8004, 0x0804_8004),
        // no code
        (0x0804_8004, 0x0804_8007)
    ]?;
    Ok(Graph::of(alloc, &exe, &Edges::of_list(list)).expect(rt, "graph"))
}

#[test]
fn knows_exits(rt: HostRuntime) -> Result<(), Fail> {
    let graph = graph_of_code(&rt, rt.alloc())?;
    assert_eq!(rt; graph.len(), 4);
    assert!(rt; shows(&graph, 0, 0x0804_8000, &[0x0804_8002, 0x0804_8004]));
    assert!(rt; shows(&graph, 1, 0x0804_8002, &[0x0804_8000]));
    assert!(rt; shows(&graph, 2, 0x0804_8003, &[0x0804_8000]));
    assert!(rt; shows(&graph, 3, 0x0804_8004, &[0x0804_8003, 0x0804_8004]));
    Ok(())
}

#[test]
fn keeps_edges(rt: HostRuntime) -> Result<(), Fail> {
    let graph = graph_of_code(&rt, rt.alloc())?;
    let edges = [
        (0, 0x0804_8000),
        (0x0804_8000, 0x0804_8002),
        (0x0804_8000, 0x0804_8004),
        (0x0804_8003, 0x0804_8000),
        (0x0804_8004, 0x0804_8003),
        (0x0804_8004, 0x0804_8004),
    ];
    assert!(rt; graph.edges() == edges.as_slice());
    Ok(())
}

#[test]
fn finds_indices(rt: HostRuntime) -> Result<(), Fail> {
    let graph = graph_of_code(&rt, rt.alloc())?;
    assert_eq!(rt; graph.index_of(0x0804_8000), Some(0));
    assert_eq!(rt; graph.index_of(0x0804_8002), Some(1));
    assert_eq!(rt; graph.index_of(0x0804_8003), Some(2));
    assert_eq!(rt; graph.index_of(0x0804_8004), Some(3));
    assert_eq!(rt; graph.index_of(0x0804_8001), None);
    assert_eq!(rt; graph.index_of(0x0804_8005), None);
    assert_eq!(rt; graph.index_of(0), None);
    Ok(())
}

/// A block that ends with a transfer.
fn to_transfer(count: u8, len: u32, last: u32) -> Cut {
    Cut {
        count,
        len,
        end: End::Transfer,
        last,
    }
}

#[test]
fn keeps_cuts(rt: HostRuntime) -> Result<(), Fail> {
    let graph = graph_of_code(&rt, rt.alloc())?;
    assert!(rt; goes(&graph, 0, to_transfer(1, 2, 0x0804_8000)));
    assert!(rt; goes(&graph, 1, to_transfer(2, 2, 0x0804_8003)));
    assert!(rt; goes(&graph, 2, to_transfer(1, 1, 0x0804_8003)));
    assert!(rt; goes(&graph, 3, to_transfer(1, 2, 0x0804_8004)));
    Ok(())
}
