//! The pieces behind the fragments of a layout, and their code.
ghost use Rattle.std.specs.Prelude.{◌≡◌, ◌+◌, ◌<◌, ◌≤◌, false, IfOk, IfErr, length, vec_len};
ghost use Rattle.std.specs.List.Sorted.{IsStrictlyIncreasing};
ghost use Rattle.elf_read.specs.Elf.{IsGuest};
ghost use Rattle.flow_graph.specs.declared.error.TheConstants.{MAX_BLOCKS};
ghost use Rattle.flow_graph.specs.Graph.{AreCutsOf, starts_in};
ghost use Rattle.cold_set.specs.declared.error.TheConstants.{MAX_COLD};
ghost use Rattle.code_layout.specs.declared.place.TheConstants.{CODE_START, MAX_CODE};
ghost use Rattle.code_layout.specs.Layout.{code_length, added_length, added_places, IsWhole};
ghost use Rattle.code_layout.specs.Places.{AddressesAscend};
ghost use Rattle.cold_copy.specs.declared.error.ColdError.TheVariants.{Blocks, Cold, Code};
ghost use Rattle.cold_copy.specs.Behind.{joined};
ghost use Rattle.cold_copy.specs.Linking.{tail_pieces, linked_code, IsReady, IsTail};

use crate::behind::{Tail, copies, dispatcher, link_all, places_of, reentries};
use crate::error::ColdError;
use crate::joining::joined;
use crate::linking::Stands;
use crate::pieces::Starts;
use crate::starts::reentered;
use code_layout::{CODE_START, Layout, Places};
use elf_read::Exe;
use flow_graph::Graph;
use std::alloc::{AllocError, Global};

/// The pieces behind the fragments of a layout.
///
/// Errors: [`ColdError::Code`] where the code would be longer than [`MAX_CODE`](code_layout::MAX_CODE), and [`ColdError::Memory`] for
/// want of memory.
pub fn pieces_behind(
    alloc: Global,
    exe: &Exe,
    graph: &Graph,
    starts: &Starts,
    layout: &Layout<()>,
) -> Result<Tail, ColdError>
    requires guest { IsGuest exe.now }
    requires cuts { AreCutsOf exe.now graph.now }
    requires starts { starts.now.blocks.now ≡ starts_in graph.now.nodes }
    requires blocks { IsStrictlyIncreasing starts.now.blocks.now }
    requires cold { IsStrictlyIncreasing starts.now.cold.now }
    requires few { length starts.now.blocks.now ≤ MAX_BLOCKS }
    requires few_cold { length starts.now.cold.now ≤ MAX_COLD }
    requires fresh { layout.now.spent ≡ false }
    requires short { code_length layout.now ≤ MAX_CODE }
    ensures tail { IfOk result (IsTail exe.now starts.now.blocks.now starts.now.cold.now layout.now) }
    ensures long { IfErr result (λ e. e ≡ Code →
        MAX_CODE < code_length layout.now + added_length (tail_pieces exe.now starts.now.blocks.now starts.now.cold.now layout.now)) }
    ensures other { IfErr result (λ e. (e ≡ Blocks → ⊥) × (e ≡ Cold → ⊥)) }
{
    let outs = layout.outs(alloc)?;
    let again = reentered(alloc, exe, graph, outs.as_slice())?;
    let at = layout.len();
    let copies = copies(alloc, exe, starts, at)?;
    let reentries = reentries(alloc, again.as_slice(), copies.len)?;
    let turn = dispatcher(alloc, starts, reentries.len)?;
    Ok(Tail {
        at,
        copies,
        reentries,
        turn,
    })
}

/// Where jumps of fragments to addresses of the original lead: to copies and to re-entries. An error comes for want of memory.
fn outs_of(alloc: Global, tail: &Tail) -> Result<Places, AllocError>
    requires copies { tail.now.at + added_length tail.now.copies.pieces.items ≤ MAX_CODE }
    requires again { tail.now.copies.len + added_length tail.now.reentries.pieces.items ≤ MAX_CODE }
    requires ascend { AddressesAscend (joined (added_places (CODE_START + tail.now.at) tail.now.copies.pieces.items)
        (added_places (CODE_START + tail.now.copies.len) tail.now.reentries.pieces.items)) }
    ensures { IfOk result (λ p. p ≡ joined (added_places (CODE_START + tail.now.at) tail.now.copies.pieces.items)
        (added_places (CODE_START + tail.now.copies.len) tail.now.reentries.pieces.items)) }
{
    let copies = places_of(alloc, tail.at, tail.copies.pieces.as_slice())?;
    let again = places_of(alloc, tail.copies.len, tail.reentries.pieces.as_slice())?;
    Ok(Places::of(joined(alloc, copies.as_slice(), again.as_slice())?))
}

/// The whole code of a layout and the pieces behind it. An error comes for want of memory.
pub fn linked(
    alloc: Global,
    layout: Layout<()>,
    starts: Vec<u32>,
    tail: &Tail,
) -> Result<Vec<u8>, AllocError>
    requires whole { IsWhole layout }
    requires fresh { layout.spent ≡ false }
    requires ascend { IsStrictlyIncreasing starts.items }
    requires ready { IsReady layout tail.now }
    ensures code { IfOk result (λ v. v.items ≡ linked_code layout starts.items tail.now) }
    ensures len { IfOk result (λ v. vec_len v ≡ tail.now.turn.len) }
{
    let out = outs_of(alloc, tail)?;
    let stands = Stands {
        turn: CODE_START + tail.reentries.len,
        starts,
        blocks: layout.places(alloc)?,
        copies: Places::of(places_of(alloc, tail.at, tail.copies.pieces.as_slice())?),
    };
    let mut code = layout.code_with(&out);
    link_all(&mut code, tail.copies.pieces.as_slice(), &stands)?;
    link_all(&mut code, tail.reentries.pieces.as_slice(), &stands)?;
    link_all(&mut code, tail.turn.pieces.as_slice(), &stands)?;
    Ok(code)
}
