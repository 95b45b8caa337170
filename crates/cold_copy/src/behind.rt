//! The pieces behind the fragments, one after another.
ghost use Rattle.std.specs.Prelude.{◌≡◌, ◌+◌, ◌++◌, ◌∷◌, [], ◌<◌, ◌≤◌, All, IfOk, IfErr, OnOk, map, vec_len, length};
ghost use Rattle.std.specs.List.Sorted.{IsStrictlyIncreasing};
ghost use Rattle.elf_read.specs.Elf.{IsGuest};
ghost use Rattle.ia_encode.specs.Items.{goes_to};
ghost use Rattle.code_layout.specs.declared.place.TheConstants.{CODE_START, MAX_CODE};
ghost use Rattle.code_layout.specs.Layout.{Added, added_length, added_places, filled_from};
ghost use Rattle.cold_copy.specs.declared.error.ColdError.TheVariants.{Blocks, Cold, Code, Memory};
ghost use Rattle.cold_copy.specs.ColdCode.{copies_by, reentry_at, turn_piece};
ghost use Rattle.cold_copy.specs.Behind.{IsWithin, opened};
ghost use Rattle.cold_copy.specs.Linking.{stands_to};

use crate::error::ColdError;
use crate::linking::{Stands, link};
use crate::pieces::{Starts, copy, reentry, turn};
use block_make::Assembled;
use code_layout::{CODE_START, MAX_CODE};
use elf_read::Exe;
use std::alloc::{AllocError, Global};
use std::marker::Model;

/// A piece before it is linked, by the start by which it is named. It is seen as `Added`.
#[derive(Drop)]
pub struct Laid {
    start: u32,
    code: Assembled,
}

impl Model for Laid {
    ghost use Rattle.code_layout.specs.Layout.{Added};

    ghost Value = { Added };

    ghost view = { λ l. record { start = l.start; code = l.code } };
}

/// Pieces one behind another, and the offset of the code behind them.
#[derive(Drop)]
pub struct Behind {
    /// The pieces.
    pub pieces: Vec<Laid>,
    /// The offset behind them.
    pub len: u32,
}

/// What stands behind the fragments.
#[derive(Drop)]
pub struct Tail {
    /// The offset of the copies in the code.
    pub at: u32,
    /// The copies.
    pub copies: Behind,
    /// The re-entries behind them.
    pub reentries: Behind,
    /// The dispatcher behind these.
    pub turn: Behind,
}

/// One piece more. An error comes for want of memory.
fn push(pieces: &mut Vec<Laid>, start: u32, code: Assembled) -> Result<(), AllocError>
    ensures { OnOk result (pieces.new.items ≡ pieces.old.items ++ (record { start = start; code = code } ∷ [])) }
{
    pieces.push(Laid { start, code })?;
    Ok(())
}

/// The offset behind a piece at an offset.
///
/// Errors: [`ColdError::Code`] exactly where it is above [`MAX_CODE`].
fn end_of(at: u32, code: &Assembled) -> Result<u32, ColdError>
    requires { at ≤ MAX_CODE }
    ensures len { IfOk result (λ n. n ≡ at + length code.now.bytes) }
    ensures room { IfOk result (λ n. n ≤ MAX_CODE) }
    ensures long { IfErr result (λ e. MAX_CODE < at + length code.now.bytes) }
    ensures error { IfErr result (λ e. e ≡ Code) }
{
    if code.len() > MAX_CODE - at {
        return Err(ColdError::Code);
    }
    Ok(at + code.len())
}

/// The copies of cold starts, from an offset of the code on.
///
/// Errors: [`ColdError::Code`] where the code would be longer than [`MAX_CODE`], and [`ColdError::Memory`] for want of memory.
pub fn copies(alloc: Global, exe: &Exe, starts: &Starts, at: u32) -> Result<Behind, ColdError>
    requires guest { IsGuest exe.now }
    requires blocks { IsStrictlyIncreasing starts.now.blocks.now }
    requires cold { IsStrictlyIncreasing starts.now.cold.now }
    requires room { at ≤ MAX_CODE }
    ensures pieces { IfOk result (λ b. b.pieces.items ≡ map opened (copies_by exe.now starts.now.blocks.now starts.now.cold.now)) }
    ensures len { IfOk result (λ b. b.len ≡ at + added_length b.pieces.items) }
    ensures short { IfOk result (λ b. b.len ≤ MAX_CODE) }
    ensures long { IfErr result (λ e. e ≡ Code → MAX_CODE < at + added_length (map opened (copies_by exe.now starts.now.blocks.now starts.now.cold.now))) }
    ensures other { IfErr result (λ e. (e ≡ Blocks → ⊥) × (e ≡ Cold → ⊥)) }
{
    let mut pieces = Vec::new(alloc);
    let mut len = at;
    for start in starts.cold {
        let code = copy(alloc, exe, starts, *start)?;
        len = end_of(len, &code)?;
        push(&mut pieces, *start, code)?;
    }
    Ok(Behind { pieces, len })
}

/// The re-entries of starts, from an offset of the code on.
///
/// Errors: [`ColdError::Code`] where the code would be longer than [`MAX_CODE`], and [`ColdError::Memory`] for want of memory.
pub fn reentries(alloc: Global, starts: &[u32], at: u32) -> Result<Behind, ColdError>
    requires room { at ≤ MAX_CODE }
    ensures pieces { IfOk result (λ b. b.pieces.items ≡ map opened (map reentry_at starts.now)) }
    ensures len { IfOk result (λ b. b.len ≡ at + added_length b.pieces.items) }
    ensures short { IfOk result (λ b. b.len ≤ MAX_CODE) }
    ensures long { IfErr result (λ e. e ≡ Code → MAX_CODE < at + added_length (map opened (map reentry_at starts.now))) }
    ensures other { IfErr result (λ e. (e ≡ Blocks → ⊥) × (e ≡ Cold → ⊥)) }
{
    let mut pieces = Vec::new(alloc);
    let mut len = at;
    for start in starts {
        let code = reentry(alloc, *start)?;
        len = end_of(len, &code)?;
        push(&mut pieces, *start, code)?;
    }
    Ok(Behind { pieces, len })
}

/// The dispatcher, at an offset of the code.
///
/// Errors: [`ColdError::Code`] where the code would be longer than [`MAX_CODE`], and [`ColdError::Memory`] for want of memory.
pub fn dispatcher(alloc: Global, starts: &Starts, at: u32) -> Result<Behind, ColdError>
    requires blocks { IsStrictlyIncreasing starts.now.blocks.now }
    requires cold { IsStrictlyIncreasing starts.now.cold.now }
    requires few { length starts.now.blocks.now ≤ 65536 }
    requires few_cold { length starts.now.cold.now ≤ 65536 }
    requires room { at ≤ MAX_CODE }
    ensures pieces { IfOk result (λ b. b.pieces.items ≡ opened (turn_piece starts.now.blocks.now starts.now.cold.now) ∷ []) }
    ensures len { IfOk result (λ b. b.len ≡ at + added_length b.pieces.items) }
    ensures short { IfOk result (λ b. b.len ≤ MAX_CODE) }
    ensures long { IfErr result (λ e. e ≡ Code → MAX_CODE < at + added_length (opened (turn_piece starts.now.blocks.now starts.now.cold.now) ∷ [])) }
    ensures other { IfErr result (λ e. (e ≡ Blocks → ⊥) × (e ≡ Cold → ⊥)) }
{
    let mut pieces = Vec::new(alloc);
    let code = turn(alloc, starts)?;
    let len = end_of(at, &code)?;
    push(&mut pieces, 0, code)?;
    Ok(Behind { pieces, len })
}

/// The address of each piece, by its start, where they stand from an offset of the code on. An error comes for want of memory.
pub fn places_of(alloc: Global, at: u32, pieces: &[Laid]) -> Result<Vec<(u32, u32)>, AllocError>
    requires { at + added_length pieces.now ≤ MAX_CODE }
    ensures { IfOk result (λ v. v.items ≡ added_places (CODE_START + at) pieces.now) }
{
    let mut places = Vec::new(alloc);
    let mut offset = at;
    for piece in pieces {
        places.push((piece.start, CODE_START + offset))?;
        offset += piece.code.len();
    }
    Ok(places)
}

/// Appends pieces to code, each with its distances filled in. An error comes for want of memory.
pub fn link_all(code: &mut Vec<u8>, pieces: &[Laid], stands: &Stands) -> Result<(), AllocError>
    requires within { All (λ (a : Added). IsWithin a.code) pieces.now }
    requires room { vec_len code.old + added_length pieces.now ≤ MAX_CODE }
    requires ascend { IsStrictlyIncreasing stands.now.starts.items }
    ensures code { OnOk result (code.new.items ≡ code.old.items ++ filled_from (goes_to (stands_to stands.now)) (CODE_START + vec_len code.old) pieces.now) }
    ensures len { OnOk result (vec_len code.new ≡ vec_len code.old + added_length pieces.now) }
{
    for piece in pieces {
        link(code, &piece.code, stands)?;
    }
    Ok(())
}
