//! Fragments of keys, those that are kept and new ones, laid out one behind another.
ghost use Rattle.std.specs.Prelude.{◌≡◌, ◌+◌, ◌<◌, ◌≤◌, true, false, if◌then◌else◌, [], ◌∷◌, ◌++◌, All, IfOk, IfErr, OnOk, length, slice_index_or};
ghost use Rattle.std.specs.List.Sorted.{IsStrictlyIncreasing};
ghost use Rattle.elf_read.specs.Elf.{IsGuest};
ghost use Rattle.flow_graph.specs.declared.error.TheConstants.{MAX_BLOCKS};
ghost use Rattle.block_make.specs.declared.fragment.Fix.{Fix};
ghost use Rattle.block_make.specs.FragmentCode.{coded};
ghost use Rattle.block_make.specs.Keys.{IsKey};
ghost use Rattle.code_layout.specs.declared.place.TheConstants.{MAX_CODE};
ghost use Rattle.code_layout.specs.declared.built.BuildError.TheVariants.{Blocks, Code};
ghost use Rattle.code_layout.specs.Linked.{has_key};
ghost use Rattle.code_layout.specs.Layout.{Added, IsWhole, code_length, layout_of, with_added};
ghost use Rattle.session_core.specs.Session.{fresh};
ghost use Rattle.session_core.specs.Kept.{starts_of_keys, codes_of};

use crate::kept::Kept;
use crate::keys::{is_kept, place_from};
use block_make::make;
use br_word::Steps;
use code_layout::{BuildError, Layout, LayoutError, layouts_grow};
use elf_read::Exe;
use ssa_form::BlockKey;
use std::alloc::{AllocError, Global};

/// The layout of keys, their fragments, and how many of these were made.
#[derive(Drop)]
pub struct Laid<L> {
    /// The layout.
    pub layout: Layout<L>,
    /// The fragments, in the order of the keys.
    pub fragments: Vec<Kept<L>>,
    /// How many were made.
    pub made: u32,
}

/// One where a fragment is to be made.
fn one_unless(kept: bool) -> u32
    ensures value { result ≡ (if kept then 0 else 1) }
    ensures few { result ≤ 1 }
{
    if kept { 0 } else { 1 }
}

/// The fragment of a key: where it is kept the one at this place, else a new one, which is one step.
fn fragment_of<L>(
    alloc: Global,
    exe: &Exe,
    key: &BlockKey,
    kept: &[Kept<L>],
    at: usize,
    is_kept: bool,
    steps: &mut Steps<L>,
) -> Result<Kept<L>, AllocError>
    requires guest { IsGuest exe.now }
    requires key { IsKey exe.now key.now }
    requires inside { is_kept ≡ true → at < length kept.now }
    requires kept { is_kept ≡ true → slice_index_or kept.now at (coded exe.now key.now) ≡ coded exe.now key.now }
    ensures code { IfOk result (λ k. k ≡ coded exe.now key.now) }
    ensures done { OnOk result (steps.new ≡ steps.old + (if is_kept then 0 else 1)) }
    ensures few { steps.new ≤ steps.old + (if is_kept then 0 else 1) }
{
    if is_kept {
        return kept[at].share();
    }
    let fragment = make(alloc, exe, key, steps)?;
    Kept::of(alloc, fragment)
}

/// Adds a fragment to a layout. Errors as those of [`laid_out`].
fn put<L>(layout: &mut Layout<L>, start: u32, kept: &Kept<L>) -> Result<(), BuildError>
    requires fresh { layout.old.spent ≡ false }
    requires order { All (λ (a : Added). a.start < start) layout.old.added }
    requires inside { All (λ (f : Fix). f.at + 4 ≤ length kept.now.bytes) kept.now.fixes }
    ensures added { OnOk result (layout.new ≡ with_added layout.old start kept.now) }
    ensures short { OnOk result (code_length layout.new ≤ MAX_CODE) }
    ensures long { IfErr result (λ e. e ≡ Code → MAX_CODE < code_length (with_added layout.old start kept.now)) }
    ensures blocks { IfErr result (λ e. e ≡ Blocks → ⊥) }
{
    match layout.add(start, kept.fragment()) {
        Ok(()) => Ok(()),
        Err(LayoutError::TooLong) => Err(BuildError::Code),
        Err(LayoutError::Memory) => Err(BuildError::Memory),
    }
}

/// Puts a fragment last.
fn keep<L>(fragments: &mut Vec<Kept<L>>, fragment: Kept<L>) -> Result<(), AllocError>
    ensures { OnOk result (fragments.new.items ≡ fragments.old.items ++ fragment ∷ []) }
{
    fragments.push(fragment)?;
    Ok(())
}

/// The layout of the fragments of keys, which ascend by their starts and make a whole layout: of the old keys those that are kept, of
/// all other keys new ones, each in one step. `known` says whether a key starts at the entry.
///
/// Errors: [`BuildError::Code`] where the code would be longer than [`MAX_CODE`](code_layout::MAX_CODE), and
/// [`BuildError::Memory`] for want of memory.
pub fn laid_out<L>(
    alloc: Global,
    exe: &Exe,
    known: bool,
    before: &[BlockKey],
    kept: &[Kept<L>],
    keys: &[BlockKey],
    steps: &mut Steps<L>,
) -> Result<Laid<L>, BuildError>
    requires guest { IsGuest exe.now }
    requires entry { known ≡ has_key keys.now exe.now.entry }
    requires each { All (IsKey exe.now) keys.now }
    requires order { IsStrictlyIncreasing (starts_of_keys keys.now) }
    requires whole { IsWhole (layout_of exe.now keys.now) }
    requires few { length keys.now ≤ MAX_BLOCKS }
    requires before_order { IsStrictlyIncreasing (starts_of_keys before.now) }
    requires codes { kept.now ≡ codes_of exe.now before.now }
    ensures layout { IfOk result (λ l. l.layout ≡ layout_of exe.now keys.now) }
    ensures fragments { IfOk result (λ l. l.fragments.items ≡ codes_of exe.now keys.now) }
    ensures made { IfOk result (λ l. l.made ≡ fresh before.now keys.now) }
    ensures done { OnOk result (steps.new ≡ steps.old + fresh before.now keys.now) }
    ensures at_most { steps.new ≤ steps.old + fresh before.now keys.now }
    ensures short { IfOk result (λ l. code_length l.layout ≤ MAX_CODE) }
    ensures long { IfErr result (λ e. e ≡ Code → MAX_CODE < code_length (layout_of exe.now keys.now)) }
    ensures blocks { IfErr result (λ e. e ≡ Blocks → ⊥) }
{
    layouts_grow();
    let mut layout = Layout::of(alloc, exe.entry, known)?;
    let mut fragments = Vec::with_capacity(alloc, keys.len())?;
    let mut made = 0;
    let mut at = 0;
    for key in keys {
        at = place_from(before, at, key.start);
        let kept_there = is_kept(before, at, key);
        let fragment = fragment_of(alloc, exe, key, kept, at, kept_there, steps)?;
        put(&mut layout, key.start, &fragment)?;
        keep(&mut fragments, fragment)?;
        let one = one_unless(kept_there);
        made += one;
    }
    Ok(Laid {
        layout,
        fragments,
        made,
    })
}
