//! Items of copies and of dispatchers, written out by hand.
ghost use Rattle.std.specs.Prelude.{◌<◌, ◌≤◌, IfOk, length};
ghost use Rattle.elf_read.specs.Elf.{IsGuest};
ghost use Rattle.ia_encode.specs.Items.{AreValid};

use crate::insts::{comparison, leave, load, load_memory, pop, push, raise, store, store_number};
use crate::{copy, dispatcher, linked_copy, linked_dispatcher};
use elf_read::{Bytes, Exe, Perms, Segment, Segments};
use fall_stubs::{capture, restore};
use ia_encode::{Dest, Item, Piece};
use ia_inst::Addr;
use std::alloc::{AllocError, Global};
use std::test::Fail;

/// An executable with this code at 08048000.
fn with_code(alloc: Global, code: &[u8]) -> Result<Exe, AllocError>
    requires some { 0 < length code.now }
    requires few { length code.now ≤ 100 }
    ensures { IfOk result IsGuest }
{
    let mut segments = Vec::new(alloc);
    segments.push(Segment {
        start: 0x0804_8000,
        size: code.len() as u32,
        perms: Perms {
            read: true,
            write: false,
            exec: true,
        },
        bytes: Bytes::of(Vec::from_slice(alloc, code)?),
    })?;
    Ok(Exe {
        entry: 0x0804_8000,
        segments: Segments::of(segments),
        brk_start: 0x0804_9000,
    })
}

fn to(dest: Dest) -> Item {
    Item::Jump {
        cond: None,
        to: dest,
    }
}

fn where_so(cond: u8, label: u32) -> Item {
    Item::Jump {
        cond: Some(cond),
        to: Dest::Label(label),
    }
}

#[test]
fn copies_own_bytes_and_both_ways(rt: HostRuntime) -> Result<(), Fail> {
    // cld; std; int 0x80; jz 08048020, a start; behind it the start of a copy
    let exe = with_code(rt.alloc(), &[0xfc, 0xfd, 0xcd, 0x80, 0x74, 0x1a])?;
    let mut piece = Piece::new(rt.alloc());
    copy(
        &mut piece,
        &exe,
        0x0804_8000,
        &[0x0804_8020],
        &[0x0804_8000, 0x0804_8006],
    )?;
    let mut expected = Vec::new(rt.alloc());
    expected.extend_from_slice(&[
        Item::Label(0x0804_8000),
        Item::Byte(0xfc),
        Item::Inst(store_number(13, 0)),
        Item::Byte(0xfd),
        Item::Inst(store_number(13, 1)),
        Item::Byte(0xcd),
        Item::Byte(0x80),
        where_so(4, 1),
        to(Dest::Label(0x0804_8006)),
        Item::Label(1),
    ])?;
    let mut closing = Piece::new(rt.alloc());
    capture(&mut closing)?;
    expected.extend_from_slice(closing.items())?;
    expected.push(to(Dest::Block(0x0804_8020)))?;
    assert!(rt; piece.items() == expected.as_slice());
    Ok(())
}

/// The copy of code whose address has neither a block nor a copy.
fn copied(alloc: Global, code: &[u8]) -> Result<Piece, AllocError>
    requires some { 0 < length code.now }
    requires few { length code.now ≤ 100 }
{
    let exe = with_code(alloc, code)?;
    let mut piece = Piece::new(alloc);
    copy(&mut piece, &exe, 0x0804_8000, &[], &[])?;
    Ok(piece)
}

#[test]
fn ends_with_jumps_and_calls(rt: HostRuntime) -> Result<(), Fail> {
    // jmp 08048010
    let piece = copied(rt.alloc(), &[0xeb, 0x0e])?;
    let expected = [Item::Label(0x0804_8000), to(Dest::Original(0x0804_8010))];
    assert!(rt; piece.items() == expected.as_slice());
    // call 08048010
    let piece = copied(rt.alloc(), &[0xe8, 0x0b, 0, 0, 0])?;
    let expected = [
        Item::Label(0x0804_8000),
        Item::Inst(push(0x0804_8005)),
        to(Dest::Original(0x0804_8010)),
    ];
    assert!(rt; piece.items() == expected.as_slice());
    // nop; two bytes that spell nothing
    let piece = copied(rt.alloc(), &[0x90, 0x0f, 0xff])?;
    let expected = [
        Item::Label(0x0804_8000),
        Item::Byte(0x90),
        to(Dest::Original(0x0804_8001)),
    ];
    assert!(rt; piece.items() == expected.as_slice());
    Ok(())
}

/// What stands before the capture of the state and the jump to the dispatcher, and those.
fn turned(alloc: Global, front: &[Item]) -> Result<Piece, AllocError>
    requires { AreValid front.now }
{
    let mut piece = Piece::new(alloc);
    piece.label(0x0804_8000)?;
    piece.append(front)?;
    capture(&mut piece)?;
    piece.jump(None, Dest::Label(0))?;
    Ok(piece)
}

#[test]
fn ends_with_indirect_transfers(rt: HostRuntime) -> Result<(), Fail> {
    // call ecx
    let piece = copied(rt.alloc(), &[0xff, 0xd1])?;
    let expected = turned(
        rt.alloc(),
        &[Item::Inst(store(15, 1)), Item::Inst(push(0x0804_8002))],
    )?;
    assert!(rt; piece.items() == expected.items());
    // jmp [eax+0x10]
    let piece = copied(rt.alloc(), &[0xff, 0x60, 0x10])?;
    let address = Addr {
        base: Some(0),
        index: None,
        disp: 0x10,
    };
    let expected = turned(
        rt.alloc(),
        &[
            Item::Inst(store(16, 0)),
            Item::Inst(load_memory(address)),
            Item::Inst(store(15, 0)),
            Item::Inst(load(0, 16)),
        ],
    )?;
    assert!(rt; piece.items() == expected.items());
    // ret 8
    let piece = copied(rt.alloc(), &[0xc2, 8, 0])?;
    let expected = turned(rt.alloc(), &[Item::Inst(pop()), Item::Inst(raise(8))])?;
    assert!(rt; piece.items() == expected.items());
    // ret
    let piece = copied(rt.alloc(), &[0xc3])?;
    let expected = turned(rt.alloc(), &[Item::Inst(pop())])?;
    assert!(rt; piece.items() == expected.items());
    Ok(())
}

#[test]
fn goes_on_behind_64_instructions(rt: HostRuntime) -> Result<(), Fail> {
    let exe = with_code(rt.alloc(), &[0x90; 66])?;
    let mut piece = Piece::new(rt.alloc());
    copy(
        &mut piece,
        &exe,
        0x0804_8000,
        &[],
        &[0x0804_8000, 0x0804_8040],
    )?;
    let mut expected = Piece::new(rt.alloc());
    expected.label(0x0804_8000)?;
    expected.put_bytes(&[0x90; 64])?;
    expected.jump(None, Dest::Label(0x0804_8040))?;
    assert!(rt; piece.items() == expected.items());
    Ok(())
}

/// The items of RESTORE.
fn restored(alloc: Global, label: u32) -> Result<Vec<Item>, AllocError> {
    let mut piece = Piece::new(alloc);
    restore(&mut piece, label)?;
    piece.items().to_vec(alloc)
}

#[test]
fn dispatches_by_halves(rt: HostRuntime) -> Result<(), Fail> {
    let mut piece = Piece::new(rt.alloc());
    dispatcher(
        rt.alloc(),
        &mut piece,
        &[0x0804_8010],
        &[0x0804_8000, 0x0804_8020],
    )?;
    let mut expected = Vec::new(rt.alloc());
    expected.extend_from_slice(&[
        Item::Label(0),
        Item::Inst(load(0, 15)),
        Item::Inst(comparison(0x0804_8010)),
        where_so(2, 5),
        Item::Inst(comparison(0x0804_8020)),
        where_so(2, 6),
        Item::Inst(comparison(0x0804_8020)),
        where_so(4, 3),
        to(Dest::Label(4)),
        Item::Label(6),
        Item::Inst(comparison(0x0804_8010)),
        where_so(4, 2),
        to(Dest::Label(4)),
        Item::Label(5),
        Item::Inst(comparison(0x0804_8000)),
        where_so(4, 1),
        to(Dest::Label(4)),
        Item::Label(1),
    ])?;
    expected.extend_from_slice(restored(rt.alloc(), 8)?.as_slice())?;
    expected.extend_from_slice(&[
        to(Dest::Label(0x0804_8000)),
        Item::Label(2),
        to(Dest::Block(0x0804_8010)),
        Item::Label(3),
    ])?;
    expected.extend_from_slice(restored(rt.alloc(), 10)?.as_slice())?;
    expected.extend_from_slice(&[to(Dest::Label(0x0804_8020)), Item::Label(4)])?;
    expected.extend_from_slice(restored(rt.alloc(), 11)?.as_slice())?;
    expected.push(Item::Inst(leave()))?;
    assert!(rt; piece.items() == expected.as_slice());
    Ok(())
}

#[test]
fn dispatches_nothing(rt: HostRuntime) -> Result<(), Fail> {
    let mut piece = Piece::new(rt.alloc());
    dispatcher(rt.alloc(), &mut piece, &[], &[])?;
    assert!(rt; piece.items() == [Item::Label(0)].as_slice());
    Ok(())
}

/// The item with the name of a block for the label of a copy or of the dispatcher.
fn linked(item: &Item) -> Item {
    match *item {
        Item::Jump {
            cond,
            to: Dest::Label(label),
        } if label == 0 || label >= 0x0804_8000 => Item::Jump {
            cond,
            to: Dest::Block(label),
        },
        _ => *item,
    }
}

/// The items but the first, with the names of blocks.
fn linked_items(alloc: Global, items: &[Item]) -> Result<Vec<Item>, AllocError> {
    let mut all = Vec::new(alloc);
    for item in items.iter().skip(1) {
        all.push(linked(item))?;
    }
    Ok(all)
}

/// Whether the copy of code differs from the one in a piece of its own by the names alone.
fn differs_by_names(alloc: Global, code: &[u8]) -> Result<bool, AllocError>
    requires some { 0 < length code.now }
    requires few { length code.now ≤ 100 }
{
    let starts = [0x0804_8020];
    let cold = [0x0804_8000, 0x0804_8006];
    let exe = with_code(alloc, code)?;
    let mut piece = Piece::new(alloc);
    copy(&mut piece, &exe, 0x0804_8000, &starts, &cold)?;
    let mut own = Piece::new(alloc);
    linked_copy(&mut own, &exe, 0x0804_8000, &starts, &cold)?;
    Ok(own.items() == linked_items(alloc, piece.items())?.as_slice())
}

#[test]
fn names_copies_as_blocks(rt: HostRuntime) -> Result<(), Fail> {
    // cld; std; int 0x80; jz 08048020
    assert!(rt; differs_by_names(rt.alloc(), &[0xfc, 0xfd, 0xcd, 0x80, 0x74, 0x1a])?);
    // jmp 08048006
    assert!(rt; differs_by_names(rt.alloc(), &[0xeb, 0x04])?);
    // jmp ecx; call [eax+0x10]; ret
    assert!(rt; differs_by_names(rt.alloc(), &[0xff, 0xe1])?);
    assert!(rt; differs_by_names(rt.alloc(), &[0xff, 0x50, 0x10])?);
    assert!(rt; differs_by_names(rt.alloc(), &[0xc3])?);
    Ok(())
}

#[test]
fn dispatches_to_blocks(rt: HostRuntime) -> Result<(), Fail> {
    let starts = [0x0804_8010];
    let cold = [0x0804_8000, 0x0804_8020];
    let mut piece = Piece::new(rt.alloc());
    dispatcher(rt.alloc(), &mut piece, &starts, &cold)?;
    let expected = linked_items(rt.alloc(), piece.items())?;
    let mut piece = Piece::new(rt.alloc());
    linked_dispatcher(rt.alloc(), &mut piece, &starts, &cold)?;
    assert!(rt; piece.items() == expected.as_slice());
    Ok(())
}
