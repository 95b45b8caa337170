//! The edges that count, and their targets.
ghost use Rattle.std.specs.Prelude.{◌≡◌, ◌+◌, ◌≤◌, IfOk, length, map};
ghost use Rattle.elf_read.specs.Elf.{IsGuest};
ghost use Rattle.run_model.specs.Edges.{Edge};
ghost use Rattle.trace_file.specs.declared.limits.TheConstants.{EDGE_LIMIT};
ghost use Rattle.trace_file.specs.Edges.{IsEdges, without};
ghost use Rattle.block_cut.specs.CountedEdges.{counting};
ghost use Rattle.flow_graph.specs.Graph.{applied};

use block_cut::counts;
use elf_read::Exe;
use std::alloc::{AllocError, Global};
use trace_file::Edges;

/// The edges that count, in their order.
pub fn counting(
    alloc: Global,
    exe: &Exe,
    edges: &[(u32, u32)],
) -> Result<Vec<(u32, u32)>, AllocError>
    requires { IsGuest exe.now }
    ensures { IfOk result (λ v. v.items ≡ counting exe.now edges.now) }
{
    let mut counted = Vec::new(alloc);
    for edge in edges {
        if counts(exe, *edge) {
            counted.push(*edge)?;
        }
    }
    Ok(counted)
}

/// The edges that count, once edges that are `gone` are taken from edges that all count, and those that are
/// `added` put in. Only these are tried.
pub fn changed(
    alloc: Global,
    exe: &Exe,
    edges: &[(u32, u32)],
    added: &Edges,
    gone: &Edges,
) -> Result<Vec<(u32, u32)>, AllocError>
    requires guest { IsGuest exe.now }
    requires edges { IsEdges edges.now }
    requires counted { edges.now ≡ counting exe.now edges.now }
    requires room { length added.now + length (without gone.now edges.now) ≤ EDGE_LIMIT }
    ensures value { IfOk result (λ v. v.items ≡ counting exe.now (applied added.now gone.now edges.now)) }
    ensures edges { IfOk result (λ v. IsEdges v.items) }
{
    let old = Edges::of_list(edges.to_vec(alloc)?);
    let rest = old.without(gone)?;
    let more = Edges::of_list(counting(alloc, exe, added.as_slice())?);
    let all = more.union(&rest)?;
    all.as_slice().to_vec(alloc)
}

/// The targets of edges, in their order.
pub fn targets(alloc: Global, edges: &[(u32, u32)]) -> Result<Vec<u32>, AllocError>
    ensures { IfOk result (λ v. v.items ≡ map (λ (e : Edge). e.1) edges.now) }
{
    let mut all = Vec::new(alloc);
    for edge in edges {
        all.push(edge.1)?;
    }
    Ok(all)
}
