//! Layouts: fragments one behind another, and their code once it is whole.
use crate::emitted::Emitted;
use crate::error::LayoutError;
use crate::fixing::{fill, fixes_out};
use crate::image::written;
use crate::parts::{append, entry_piece};
use crate::place::MAX_CODE;
use crate::places::Places;
use crate::rows::{Row, places_of};
use block_make::{Fix, Fragment, assemble};
use elf_read::Exe;
use std::alloc::{AllocError, Global};
use std::marker::{Model, PhantomData};

/// The code at an entry and fragments behind it, for a ledger type. It is seen as the entry, whether a block starts there, the
/// fragments that were added, each with the start of its block, and whether the layout is spent by want of memory. It cannot be
/// cloned.
#[derive(Drop)]
pub struct Layout<L> {
    entry: u32,
    known: bool,
    // The code at the entry and all fragments, with zeros where distances are to be filled in.
    code: Vec<u8>,
    // All fixes, each by its offset in the code.
    fixes: Vec<Fix>,
    rows: Vec<Row>,
    spent: bool,
    ledger: PhantomData<L>,
}

impl<L> Model for Layout<L> {
    ghost use Rattle.std.specs.Prelude.{◌≡◌, false};
    ghost use Rattle.code_layout.specs.Layout.{LayoutView};
    ghost use Rattle.code_layout.specs.Rows.{added_in, IsKept};

    ghost Value = { LayoutView };

    ghost view = { λ l. record { entry = l.entry; known = l.known; added = added_in l.code.items l.fixes.items l.rows.items; spent = l.spent } };

    ghost invariant = { λ l. l.spent ≡ false → IsKept (record { entry = l.entry; known = l.known; added = added_in l.code.items l.fixes.items l.rows.items; spent = false }) l.code.items l.fixes.items l.rows.items };
}

impl<L> Layout<L> {
    ghost use Rattle.std.specs.Prelude.{◌≡◌, ◌+◌, ◌<◌, ◌≤◌, ◌↔◌, [], false, true, All, IfOk, IfErr, OnOk, Err, length, vec_len};
    ghost use Rattle.elf_read.specs.Elf.{IsOriginal};
    ghost use Rattle.flow_graph.specs.declared.error.TheConstants.{MAX_BLOCKS};
    ghost use Rattle.block_make.specs.declared.fragment.Fix.{Fix};
    ghost use Rattle.code_layout.specs.declared.error.LayoutError.TheVariants.{TooLong, Memory};
    ghost use Rattle.code_layout.specs.Layout.{Added, IsWhole, code_length, layout_code, layout_places, layout_outs, built_by, with_added};
    ghost use Rattle.code_layout.specs.Places.{place_in};

    /// The layout of the code at an entry, an address of the original, and no fragment yet. Where `known` is true, a block starts at
    /// the entry, and its fragment is to be added.
    ///
    /// An error comes only for want of memory.
    pub fn of(alloc: Global, entry: u32, known: bool) -> Result<Layout<L>, AllocError>
        ensures { IfOk result (λ v. v ≡ record { entry = entry; known = known; added = []; spent = false }) }
    {
        let piece = entry_piece(alloc, entry, known)?;
        let first = assemble(alloc, &piece)?;
        Ok(Layout {
            entry,
            known,
            code: Vec::from_slice(alloc, first.bytes())?,
            fixes: Vec::from_slice(alloc, first.fixes())?,
            rows: Vec::new(alloc),
            spent: false,
            ledger: PhantomData,
        })
    }

    /// Adds the fragment of a block by the block's start, which lies above the starts of those that were added before. Each of its
    /// fixes lies in the fragment. The layout is not spent.
    ///
    /// Errors: [`LayoutError::TooLong`] exactly where there would be more than [`MAX_CODE`] bytes of code, and the layout is then as
    /// before; [`LayoutError::Memory`] for want of memory, and the layout is then spent.
    pub fn add(&mut self, start: u32, fragment: &Fragment<L>) -> Result<(), LayoutError>
        requires fresh { self.old.spent ≡ false }
        requires order { All (λ (a : Added). a.start < start) self.old.added }
        requires inside { All (λ (f : Fix). f.at + 4 ≤ length fragment.now.bytes) fragment.now.fixes }
        ensures added { OnOk result (self.new ≡ with_added self.old start fragment.now) }
        ensures long { (result ≡ Err TooLong) ↔ (MAX_CODE < code_length (with_added self.old start fragment.now)) }
        ensures same { result ≡ Err TooLong → self.new ≡ self.old }
        ensures spent { result ≡ Err Memory → self.new.spent ≡ true }
    {
        if fragment.len() as usize > MAX_CODE as usize - self.code.len() {
            return Err(LayoutError::TooLong);
        }
        self.spent = true;
        match append(
            &mut self.code,
            &mut self.fixes,
            &mut self.rows,
            start,
            fragment,
        ) {
            Ok(()) => self.spent = false,
            Err(_) => return Err(LayoutError::Memory),
        }
        Ok(())
    }

    /// How many bytes of code it has. The layout is not spent.
    pub fn len(&self) -> u32
        requires fresh { self.now.spent ≡ false }
        ensures { result ≡ code_length self.now }
    {
        self.code.len() as u32
    }

    /// Where its fragments stand: the address of each, by the start of its block. The layout is not spent.
    ///
    /// An error comes only for want of memory.
    pub fn places(&self, alloc: Global) -> Result<Places, AllocError>
        requires fresh { self.now.spent ≡ false }
        ensures { IfOk result (λ p. p ≡ layout_places self.now) }
    {
        Ok(Places::of(places_of(alloc, self.rows.as_slice())?))
    }

    /// The addresses of the original to which its jumps lead, in the order of the jumps. The layout is not spent.
    ///
    /// An error comes only for want of memory.
    pub fn outs(&self, alloc: Global) -> Result<Vec<u32>, AllocError>
        requires fresh { self.now.spent ≡ false }
        ensures { IfOk result (λ v. v.items ≡ layout_outs self.now) }
    {
        fixes_out(alloc, self.fixes.as_slice())
    }

    /// The distances are filled in, and this is the code, at [`CODE_START`](crate::CODE_START). An address of the original lies where
    /// `out` says. The layout is not spent and whole: each known target was added, and the entry exactly where the layout was made with
    /// it known.
    ///
    /// Its work grows with the number of fixes times the logarithm of the number of fragments, or of places. It takes no memory.
    pub fn code_with(self, out: &Places) -> Vec<u8>
        requires whole { IsWhole self }
        requires fresh { self.spent ≡ false }
        ensures code { result.items ≡ layout_code (place_in out.now) self }
        ensures len { vec_len result ≡ code_length self }
    {
        let mut code = self.code;
        fill(&mut code, self.fixes.as_slice(), self.rows.as_slice(), out);
        code
    }

    /// The distances are filled in, and the file is written for an original with the entry of the layout. The layout is not spent
    /// and whole: each known target was added, and the entry exactly where the layout was made with it known. It has at most as many
    /// fragments as a graph has blocks.
    ///
    /// Its work grows with the length of the file, and the number of fixes times the logarithm of the number of fragments. An error
    /// comes only for want of memory.
    pub fn image(self, alloc: Global, exe: &Exe) -> Result<Emitted<L>, AllocError>
        requires original { IsOriginal exe.now }
        requires entry { exe.now.entry ≡ self.entry }
        requires whole { IsWhole self }
        requires few { length self.added ≤ MAX_BLOCKS }
        requires fresh { self.spent ≡ false }
        ensures { IfOk result (λ e. e ≡ built_by exe.now self) }
    {
        let blocks = self.rows.len() as u32;
        let code = self.code_with(&Places::none(alloc));
        Ok(Emitted::of(written(alloc, exe, code, blocks)?))
    }
}
