//! Fragments of recovered code.
ghost use Rattle.std.specs.Prelude.{◌≡◌, ℕ, ◌+◌, ◌^◌, ◌<◌, ◌≤◌, IfOk, IsTrue, OnOk, OnErr, ◌⊎◌, length, slice_index};
ghost use Rattle.elf_read.specs.Elf.{IsGuest, is_exec};
ghost use Rattle.ia_encode.specs.Items.{AreValid, size_of_items};
ghost use Rattle.block_make.specs.FragmentCode.{coded};
ghost use Rattle.block_make.specs.FragmentItems.{items_of};
ghost use Rattle.block_make.specs.Keys.{IsKey};
ghost use Rattle.block_make.specs.Laws.{AreWords};

use crate::assembly::{Assembled, assemble};
use crate::exits::emit_exit;
use crate::lines::emit_lines;
use crate::prepared::prepare;
use br_word::Steps;
use elf_read::Exe;
use ia_decode::encoding_length;
use ia_encode::{Piece, round_trip};
use ssa_form::BlockKey;
use std::alloc::{AllocError, Global};
use std::marker::{Model, PhantomData};

/// The most known exits that a fragment has.
pub const MAX_EXITS: usize = 65536;

/// The number of the slot by which an indirect side exit goes.
pub const JUMP_SLOT: u32 = 15;

/// A distance that is filled in when the fragment is linked.
#[derive(Clone, Copy, Debug, PartialEq, Eq)]
pub struct Fix {
    /// The offset in the fragment of the four bytes of the distance.
    pub at: u32,
    /// The address of the original to which the jump leads.
    pub target: u32,
    /// Whether it leads to the fragment of the block that starts there, and else to the original itself.
    pub known: bool,
}

/// The code of one block before it is linked, seen as `OpenCode`. Only [`make`] makes one, and it cannot be cloned.
#[derive(Drop)]
pub struct Fragment<L> {
    code: Assembled,
    owner: PhantomData<L>,
}

impl<L> Model for Fragment<L> {
    ghost use Rattle.block_make.specs.FragmentCode.{OpenCode};

    ghost Value = { OpenCode };

    ghost view = { λ f. f.code };
}

impl<L> Fragment<L> {
    /// How many bytes it has.
    pub fn len(&self) -> u32
        ensures { result ≡ length self.now.bytes }
    {
        self.code.len()
    }

    /// The byte at an offset below its length.
    pub fn byte(&self, index: u32) -> u8
        requires { index < length self.now.bytes }
        ensures { result ≡ slice_index self.now.bytes index }
    {
        self.code.bytes()[index as usize]
    }

    /// Its bytes.
    pub fn bytes(&self) -> &[u8]
        ensures { result.now ≡ self.now.bytes }
    {
        self.code.bytes()
    }

    /// Where distances stand that are to be filled in, in ascending order. Until then their bytes are 0.
    pub fn fixes(&self) -> &[Fix]
        ensures { result.now ≡ self.now.fixes }
    {
        self.code.fixes()
    }
}

/// An address has 32 bits.
fn note_word(address: u32)
    ensures { address < 2 ^ 32 }
{
    let _word = address;
}

/// The addresses of exits have 32 bits.
fn note_words(exits: &[(u32, u16)])
    ensures { AreWords exits.now }
{
    for index in 0..exits.len() {
        note_word(exits[index].0);
    }
}

/// The items of a key's fragment. An error comes for want of memory.
fn items_of(alloc: Global, exe: &Exe, key: &BlockKey) -> Result<Piece, AllocError>
    requires guest { IsGuest exe.now }
    requires code { IsTrue (is_exec key.now.start exe.now.segments) }
    requires few { length key.now.exits ≤ MAX_EXITS }
    ensures items { IfOk result (λ p. p ≡ items_of exe.now key.now) }
    ensures valid { IfOk result AreValid }
    ensures short { IfOk result (λ p. size_of_items p < 2 ^ 32) }
{
    round_trip();
    encoding_length();
    note_words(key.exits.as_slice());
    let prepared = prepare(alloc, exe, key)?;
    let mut piece = Piece::new(alloc);
    emit_lines(&mut piece, &prepared, prepared.split.body.as_slice())?;
    emit_exit(alloc, &mut piece, exe, key, &prepared)?;
    Ok(piece)
}

/// The code of a key's fragment. An error comes for want of memory.
pub fn code_of(alloc: Global, exe: &Exe, key: &BlockKey) -> Result<Assembled, AllocError>
    requires guest { IsGuest exe.now }
    requires code { IsTrue (is_exec key.now.start exe.now.segments) }
    requires few { length key.now.exits ≤ MAX_EXITS }
    ensures { IfOk result (λ code. code ≡ coded exe.now key.now) }
{
    let piece = items_of(alloc, exe, key)?;
    let code = assemble(alloc, &piece)?;
    Ok(code)
}

/// Makes the fragment of a key: the code of its block's lines, the ways to its known exits, and the side exits to the original. That
/// is one step.
///
/// An error comes for want of memory, and then at most one step was counted.
pub fn make<L>(
    alloc: Global,
    exe: &Exe,
    key: &BlockKey,
    steps: &mut Steps<L>,
) -> Result<Fragment<L>, AllocError>
    requires guest { IsGuest exe.now }
    requires key { IsKey exe.now key.now }
    ensures code { IfOk result (λ f. f ≡ coded exe.now key.now) }
    ensures done { OnOk result (steps.new ≡ steps.old + 1) }
    ensures failed { OnErr result ((steps.new ≡ steps.old) ⊎ (steps.new ≡ steps.old + 1)) }
{
    let code = code_of(alloc, exe, key)?;
    steps.tick();
    Ok(Fragment {
        code,
        owner: PhantomData,
    })
}
