//! The dispatcher.
ghost use Rattle.std.specs.Prelude.{◌≡◌, ◌+◌, ◌*◌, ◌++◌, ◌<◌, ◌≤◌, ◌^◌, OnOk, OnErr, length};
ghost use Rattle.std.specs.List.Sorted.{IsStrictlyIncreasing};
ghost use Rattle.block_cut.specs.Transfers.{is_among};
ghost use Rattle.ia_encode.specs.declared.item.Dest.TheVariants as dests;
ghost use Rattle.fall_stubs.specs.Exchange.{Grew};
ghost use Rattle.cold_code.specs.Around.{named};
ghost use Rattle.cold_code.specs.Dispatcher.{merged, tree, hit, hits, missed, dispatcher_of, dispatcher_items};

use crate::insts::{JUMP_SLOT, comparison, leave, load};
use crate::joining::merged;
use crate::members::{Naming, Starts, is_member, named};
use fall_stubs::restore;
use ia_encode::{Dest, Item, Piece};
use std::alloc::{AllocError, Global};

/// The comparisons of eax with ascending addresses: the label of the first is one above `first`, those of the others follow. Where eax
/// is none of them `miss` is next. Labels from `fresh` on are free.
fn tree(p: &mut Piece, list: &[u32], first: u32, miss: u32, fresh: u32) -> Result<(), AllocError>
    requires first { first + length list.now < 2 ^ 32 }
    requires fresh { fresh + length list.now < 2 ^ 32 }
    ensures ok { OnOk result (p.new ≡ p.old ++ tree (length list.now) list.now first miss fresh) }
    ensures err { OnErr result (Grew p.old p.new (tree (length list.now) list.now first miss fresh)) }
{
    match list {
        [] => Ok(()),
        [one] => p.append(&[
            Item::Inst(comparison(*one)),
            Item::Jump {
                cond: Some(4),
                to: Dest::Label(first + 1),
            },
            Item::Jump {
                cond: None,
                to: Dest::Label(miss),
            },
        ]),
        _ => {
            let half = list.len() / 2;
            p.append(&[
                Item::Inst(comparison(list[half])),
                Item::Jump {
                    cond: Some(2),
                    to: Dest::Label(fresh),
                },
            ])?;
            let many = half as u32;
            tree(p, &list[half..], first + many, miss, fresh + many)?;
            p.label(fresh)?;
            tree(p, &list[..half], first, miss, fresh + 1)
        }
    }
}

/// What is met: the block of a start, or a copy with the state in its registers.
fn hit(p: &mut Piece, around: &Starts, address: u32, label: u32) -> Result<(), AllocError>
    requires { IsStrictlyIncreasing around.now.blocks.now }
    ensures ok { OnOk result (p.new ≡ p.old ++ hit (named around.now.naming) (is_among around.now.blocks.now address) address label) }
    ensures err { OnErr result (Grew p.old p.new (hit (named around.now.naming) (is_among around.now.blocks.now address) address label)) }
{
    if is_member(around.blocks, address) {
        p.jump(None, Dest::Block(address))
    } else {
        restore(p, label)?;
        p.jump(None, named(around.naming, address))
    }
}

/// What is met for each address, with labels from 1 on; labels from `label` on are free.
fn hits(p: &mut Piece, around: &Starts, all: &[u32], label: u32) -> Result<(), AllocError>
    requires starts { IsStrictlyIncreasing around.now.blocks.now }
    requires few { label + length all.now < 2 ^ 32 }
    ensures ok { OnOk result (p.new ≡ p.old ++ hits (named around.now.naming) (is_among around.now.blocks.now) all.now 0 label) }
    ensures err { OnErr result (Grew p.old p.new (hits (named around.now.naming) (is_among around.now.blocks.now) all.now 0 label)) }
{
    for index in 0..all.len() {
        let number = index as u32;
        p.label(number + 1)?;
        hit(p, around, all[index], label + number)?;
    }
    Ok(())
}

/// The state to its registers, and the original is next, at the address in slot 15.
fn missed(p: &mut Piece, miss: u32, label: u32) -> Result<(), AllocError>
    ensures ok { OnOk result (p.new ≡ p.old ++ missed miss label) }
    ensures err { OnErr result (Grew p.old p.new (missed miss label)) }
{
    p.label(miss)?;
    restore(p, label)?;
    p.put(&leave())
}

/// The dispatcher of addresses.
fn dispatch(p: &mut Piece, around: &Starts, all: &[u32]) -> Result<(), AllocError>
    requires starts { IsStrictlyIncreasing around.now.blocks.now }
    requires few { length all.now ≤ 131072 }
    ensures ok { OnOk result (p.new ≡ p.old ++ dispatcher_of (named around.now.naming) (is_among around.now.blocks.now) all.now) }
    ensures err { OnErr result (Grew p.old p.new (dispatcher_of (named around.now.naming) (is_among around.now.blocks.now) all.now)) }
{
    if all.is_empty() {
        return Ok(());
    }
    let count = all.len() as u32;
    p.put(&load(0, JUMP_SLOT))?;
    tree(p, all, 0, 1 + count, 2 + count)?;
    hits(p, around, all, 2 + 2 * count)?;
    missed(p, 1 + count, 2 + 3 * count)
}

/// Appends the dispatcher of the starts of blocks and of copies, two ascending lists of at most 65536 addresses each. It begins with
/// the label 0. With a captured state it leads on to the address in slot 15: to the block that starts there, to the copy, with the
/// state in its registers again, or so to the original. A jump to a copy is one to the label of its start; its own labels are from 1
/// to 524290. Without any start it is the label alone.
///
/// The addresses are compared by halves: eighteen comparisons at most.
///
/// An error comes for want of memory, and then a front part was appended.
pub fn dispatcher(
    alloc: Global,
    p: &mut Piece,
    starts: &[u32],
    cold: &[u32],
) -> Result<(), AllocError>
    requires starts { IsStrictlyIncreasing starts.now }
    requires few { length starts.now ≤ 65536 }
    requires few_cold { length cold.now ≤ 65536 }
    ensures ok { OnOk result (p.new ≡ p.old ++ dispatcher_items starts.now cold.now) }
    ensures err { OnErr result (Grew p.old p.new (dispatcher_items starts.now cold.now)) }
{
    let around = Starts {
        blocks: starts,
        copies: cold,
        naming: Naming::Labels,
    };
    let all = merged(alloc, starts, cold)?;
    p.label(0)?;
    dispatch(p, &around, all.as_slice())
}

/// Appends the dispatcher of the starts of blocks and of copies, as `dispatcher` does, for a piece of its own: it does not begin with the
/// label 0, and a jump to a copy is one to the block of its start. Without any start it is empty.
///
/// An error comes for want of memory, and then a front part was appended.
pub fn linked_dispatcher(
    alloc: Global,
    p: &mut Piece,
    starts: &[u32],
    cold: &[u32],
) -> Result<(), AllocError>
    requires starts { IsStrictlyIncreasing starts.now }
    requires few { length starts.now ≤ 65536 }
    requires few_cold { length cold.now ≤ 65536 }
    ensures ok { OnOk result (p.new ≡ p.old ++ dispatcher_of dests.Block (is_among starts.now) (merged starts.now cold.now)) }
    ensures err { OnErr result (Grew p.old p.new (dispatcher_of dests.Block (is_among starts.now) (merged starts.now cold.now))) }
{
    let around = Starts {
        blocks: starts,
        copies: cold,
        naming: Naming::Blocks,
    };
    let all = merged(alloc, starts, cold)?;
    dispatch(p, &around, all.as_slice())
}
