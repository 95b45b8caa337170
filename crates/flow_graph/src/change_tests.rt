//! Graphs that are changed, beside graphs that are made anew.
ghost use Rattle.elf_read.specs.Elf.{IsGuest};

use crate::tests::with_code;
use crate::{Graph, GraphError};
use elf_read::Exe;
use std::alloc::{AllocError, Global};
use std::test::Fail;
use trace_file::{EDGE_LIMIT, Edges};

/// jz 08048004; nop; ret; jmp eax; ret; int 80; nop; int 80; jmp 08048000; mov eax, 4; int 80; ret; nop; nop
const CODE: [u8; 24] = [
    0x74, 0x02, 0x90, 0xc3, 0xff, 0xe0, 0xc3, 0xcd, 0x80, 0x90, 0xcd, 0x80, 0xeb, 0xf2, 0xb8, 4, 0,
    0, 0, 0xcd, 0x80, 0xc3, 0x90, 0x90,
];

/// Edges of that code, of which four do not count.
const ALL: [(u32, u32); 20] = [
    (0, 0x0804_8000),
    (0x0804_8000, 0x0804_8002),
    (0x0804_8000, 0x0804_8004),
    (0x0804_8000, 0x0804_8005),
    (0x0804_8002, 0x0804_8007),
    (0x0804_8003, 0x0804_8000),
    (0x0804_8003, 0x0804_8007),
    (0x0804_8003, 0x0804_8009),
    (0x0804_8004, 0x0804_8006),
    (0x0804_8004, 0x0804_8007),
    (0x0804_8004, 0x0804_800a),
    (0x0804_8004, 0x0804_800e),
    (0x0804_8006, 0x0804_8013),
    (0x0804_8006, 0x0804_8016),
    (0x0804_800c, 0x0804_8000),
    (0x0804_800c, 0x0804_8002),
    (0x0804_8015, 0x0804_8009),
    (0x0804_8015, 0x0804_800c),
    (0x0804_8015, 0x0804_8017),
    (0x0804_8015, 0x0804_8018),
];

/// Some of them: those of the bits of a number that are set.
fn some_edges(alloc: Global, bits: u32) -> Result<Edges, AllocError> {
    let mut some = Edges::of_list(Vec::from_slice(alloc, &ALL)?);
    let mut rest = bits;
    for edge in ALL {
        if rest % 2 == 0 {
            some = some.without(&Edges::of_list(vec![in alloc; edge]?))?;
        }
        rest /= 2;
    }
    Ok(some)
}

/// Whether two graphs have the same edges, blocks and cuts.
fn are_same(left: &Graph, right: &Graph) -> bool {
    if left.edges() != right.edges() || left.len() != right.len() {
        return false;
    }
    for index in 0..left.len() {
        if left.start(index) != right.start(index)
            || left.known(index) != right.known(index)
            || left.cut(index) != right.cut(index)
        {
            return false;
        }
    }
    true
}

/// Whether the graph of edges, once it is changed, is the graph of the changed edges.
fn agrees(
    alloc: Global,
    exe: &Exe,
    before: &Edges,
    added: &Edges,
    gone: &Edges,
) -> Result<bool, GraphError>
    requires { IsGuest exe.now }
{
    let mut graph = Graph::of(alloc, exe, before)?;
    let rest = Edges::of_list(graph.edges().to_vec(alloc)?).without(gone)?;
    if rest.len() + added.len() > EDGE_LIMIT {
        return Ok(false);
    }
    graph.apply(alloc, exe, added, gone)?;
    let all = added.union(&rest)?;
    Ok(are_same(&graph, &Graph::of(alloc, exe, &all)?))
}

#[test]
fn changed_as_made_anew(rt: HostRuntime) -> Result<(), Fail> {
    let exe = with_code(rt.alloc(), &CODE)?;
    let mut bits: u32 = 1;
    for _ in 0..100 {
        let before = some_edges(rt.alloc(), bits)?;
        let added = some_edges(rt.alloc(), bits.rotate_left(11))?;
        let gone = some_edges(rt.alloc(), bits.rotate_left(22))?;
        let same = agrees(rt.alloc(), &exe, &before, &added, &gone).expect(&rt, "graph");
        assert!(rt; same);
        bits = bits.wrapping_mul(1_664_525).wrapping_add(1_013_904_223);
    }
    Ok(())
}
