//! Code with open distances.
ghost use Rattle.std.specs.Prelude.{◌≡◌, ℕ, ◌+◌, ◌^◌, ◌<◌, ◌≤◌, ◌++◌, All, IsTrue, IfOk, OnOk, List, length, vec_len, slice_get, nat_eq, if◌then◌else◌};
ghost use Rattle.ia_inst.specs.Canonical.{canonical, valid_of};
ghost use Rattle.ia_encode.specs.Items.{AreValid, distance, is_label, size_of_item, size_of_items, size_of_jump};
ghost use Rattle.block_make.specs.FragmentCode.{code_of_items, fix_of};
ghost use Rattle.block_make.specs.Labels.{IsItem, IsInside, list_of, noted_or, offset_in, blank_bytes, local_of, with_word, closed};

use crate::fragment::Fix;
use ia_encode::{Dest, Item, Piece, direct_lengths, encode};
use ia_inst::Inst;
use std::alloc::{AllocError, Global};
use std::marker::Model;

/// Code that is to be linked: its bytes, where each distance to a block or to the original is 0, and where these distances stand. It
/// is seen as `OpenCode`, and shorter than 2^32 bytes.
#[derive(Drop)]
pub struct Assembled {
    bytes: Vec<u8>,
    fixes: Vec<Fix>,
    ghost short: { vec_len bytes < 2 ^ 32 },
}

impl Model for Assembled {
    ghost use Rattle.block_make.specs.FragmentCode.{OpenCode};

    ghost Value = { OpenCode };

    ghost view = { λ a. record { bytes = a.bytes.items; fixes = a.fixes.items } };
}

impl Assembled {
    /// Its bytes.
    pub fn bytes(&self) -> &[u8]
        ensures { result.now ≡ self.now.bytes }
    {
        self.bytes.as_slice()
    }

    /// How many bytes it has.
    pub fn len(&self) -> u32
        ensures { result ≡ length self.now.bytes }
    {
        self.bytes.len() as u32
    }

    /// Where distances stand that are to be filled in, in ascending order.
    pub fn fixes(&self) -> &[Fix]
        ensures { result.now ≡ self.now.fixes }
    {
        self.fixes.as_slice()
    }
}

/// How many bytes a jump has.
fn size_of_jump(cond: Option<u8>) -> u32
    ensures { result ≡ size_of_jump cond }
{
    match cond {
        None => 5,
        Some(_) => 6,
    }
}

/// The offset of a label that was found, and 0 of another.
fn offset_in(labels: &[Option<u32>], name: u32) -> u32
    ensures { result ≡ offset_in labels.now name }
{
    match labels.get(name as usize) {
        Some(Some(offset)) => *offset,
        _ => 0,
    }
}

/// Makes room for the offset of a label. An error comes for want of memory.
fn make_room(labels: &mut Vec<Option<u32>>, name: u32) -> Result<(), AllocError>
    ensures kept { OnOk result ((l other : ℕ) → noted_or other (slice_get labels.new.items l) ≡ noted_or other (slice_get labels.old.items l)) }
    ensures room { OnOk result (name < vec_len labels.new) }
{
    for _slot in labels.len()..name as usize + 1 {
        labels.push(None)?;
    }
    Ok(())
}

/// Notes the offset of a label, where it has none yet. An error comes for want of memory.
fn note(labels: &mut Vec<Option<u32>>, name: u32, offset: u32) -> Result<(), AllocError>
    ensures { OnOk result ((l other : ℕ) → noted_or other (slice_get labels.new.items l)
        ≡ noted_or (if nat_eq name l then offset else other) (slice_get labels.old.items l)) }
{
    make_room(labels, name)?;
    let index = name as usize;
    if labels[index].is_none() {
        labels[index] = Some(offset);
    }
    Ok(())
}

/// Notes the offset of an item that is a label. An error comes for want of memory.
fn note_label(labels: &mut Vec<Option<u32>>, item: &Item, offset: u32) -> Result<(), AllocError>
    ensures { OnOk result ((l other : ℕ) → noted_or other (slice_get labels.new.items l)
        ≡ noted_or (if is_label l item.now then offset else other) (slice_get labels.old.items l)) }
{
    match *item {
        Item::Label(name) => note(labels, name, offset),
        Item::Inst(_) | Item::Byte(_) | Item::Jump { .. } => Ok(()),
    }
}

/// Appends an instruction's bytes.
fn write_inst(bytes: &mut Vec<u8>, inst: &Inst) -> Result<(), AllocError>
    requires { IsTrue (valid_of inst.now) }
    ensures { OnOk result (bytes.new.items ≡ bytes.old.items ++ canonical inst.now) }
{
    let mut spelling = [0; 15];
    let length = encode(inst, &mut spelling);
    bytes.extend_from_slice(&spelling[..length as usize])
}

/// Appends the bytes of an item, where each distance is open.
fn write_open(bytes: &mut Vec<u8>, item: &Item) -> Result<(), AllocError>
    requires { IsItem item.now }
    ensures { OnOk result (bytes.new.items ≡ bytes.old.items ++ blank_bytes item.now) }
{
    match item {
        Item::Inst(inst) => write_inst(bytes, inst),
        Item::Byte(byte) => {
            bytes.push(*byte)?;
            Ok(())
        }
        Item::Jump { cond: None, .. } => bytes.extend_from_slice(&[0xe9, 0, 0, 0, 0]),
        Item::Jump {
            cond: Some(cond),
            ..
        } => bytes.extend_from_slice(&[0x0f, 0x80 + *cond, 0, 0, 0, 0]),
        Item::Label(_) => Ok(()),
    }
}

/// The fix of an item at an offset, where it has one.
fn fix_of(at: u32, item: &Item) -> Option<Fix>
    requires { at + size_of_item item.now < 2 ^ 32 }
    ensures { list_of result ≡ fix_of at item.now }
{
    match *item {
        Item::Jump {
            cond,
            to: Dest::Block(target),
        } => Some(Fix {
            at: at + size_of_jump(cond) - 4,
            target,
            known: true,
        }),
        Item::Jump {
            cond,
            to: Dest::Original(target),
        } => Some(Fix {
            at: at + size_of_jump(cond) - 4,
            target,
            known: false,
        }),
        _ => None,
    }
}

/// Appends the fix of an item at an offset, where it has one.
fn note_fix(fixes: &mut Vec<Fix>, at: u32, item: &Item) -> Result<(), AllocError>
    requires { at + size_of_item item.now < 2 ^ 32 }
    ensures { OnOk result (fixes.new.items ≡ fixes.old.items ++ fix_of at item.now) }
{
    match fix_of(at, item) {
        Some(fix) => {
            fixes.push(fix)?;
            Ok(())
        }
        None => Ok(()),
    }
}

/// The distance to a label of an item at an offset, where it is a jump to one.
fn local_of(at: u32, item: &Item) -> Option<(u32, u32)>
    requires { at + size_of_item item.now < 2 ^ 32 }
    ensures { list_of result ≡ local_of at item.now }
{
    match *item {
        Item::Jump {
            cond,
            to: Dest::Label(name),
        } => Some((at + size_of_jump(cond) - 4, name)),
        _ => None,
    }
}

/// Appends where the distance to a label stands, and the label, of an item at an offset that is a jump to one.
fn note_local(locals: &mut Vec<(u32, u32)>, at: u32, item: &Item) -> Result<(), AllocError>
    requires { at + size_of_item item.now < 2 ^ 32 }
    ensures { OnOk result (locals.new.items ≡ locals.old.items ++ local_of at item.now) }
{
    match local_of(at, item) {
        Some(local) => {
            locals.push(local)?;
            Ok(())
        }
        None => Ok(()),
    }
}

/// Puts a word over four bytes, the lowest byte first.
fn put_word(bytes: &mut [u8], at: usize, word: u32)
    requires { at + 4 ≤ length bytes.old }
    ensures { bytes.new ≡ with_word at word bytes.old }
{
    bytes[at..at + 4].copy_from_slice(&word.to_le_bytes());
}

/// The distance to a label from the end of a jump.
fn distance_to(labels: &[Option<u32>], name: u32, end: u32) -> u32
    ensures { result ≡ distance end (offset_in labels.now name) }
{
    offset_in(labels, name).wrapping_sub(end)
}

/// Fills in the distances to labels.
fn close(bytes: &mut [u8], labels: &[Option<u32>], locals: &[(u32, u32)])
    requires short { length bytes.old < 2 ^ 32 }
    requires inside { All (IsInside (length bytes.old)) locals.now }
    ensures { bytes.new ≡ closed (offset_in labels.now) locals.now bytes.old }
{
    for local in locals {
        let (at, name) = *local;
        let word = distance_to(labels, name, at + 4);
        put_word(bytes, at as usize, word);
    }
}

/// The code of a piece whose instructions have encodings, whose jumps have conditions and which has fewer than 2^32 bytes. A jump to a
/// label that the piece does not have leads to its first byte.
///
/// Memory is taken for each label from 0 to the highest. An error comes for want of memory.
pub fn assemble(alloc: Global, piece: &Piece) -> Result<Assembled, AllocError>
    requires valid { AreValid piece.now }
    requires short { size_of_items piece.now < 2 ^ 32 }
    ensures { IfOk result (λ code. code ≡ code_of_items piece.now) }
{
    direct_lengths();
    let items = piece.items();
    let mut labels = Vec::new(alloc);
    let mut bytes = Vec::new(alloc);
    let mut fixes = Vec::new(alloc);
    let mut locals = Vec::new(alloc);
    for index in 0..items.len() {
        let item = &items[index];
        let at = bytes.len() as u32;
        note_label(&mut labels, item, at)?;
        note_fix(&mut fixes, at, item)?;
        note_local(&mut locals, at, item)?;
        write_open(&mut bytes, item)?;
    }
    close(bytes.as_mut_slice(), labels.as_slice(), locals.as_slice());
    Ok(Assembled { bytes, fixes })
}
