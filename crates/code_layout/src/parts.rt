//! The parts of a layout's code: the code at the entry, and fragments behind it.
ghost use Rattle.std.specs.Prelude.{◌≡◌, ◌+◌, ◌≤◌, [], ◌∷◌, ◌++◌, All, IfOk, OnOk, length, map, vec_len};
ghost use Rattle.block_make.specs.declared.fragment.Fix.{Fix};
ghost use Rattle.code_layout.specs.Linked.{entry_items};
ghost use Rattle.code_layout.specs.Rows.{forth, row_for};

use crate::fixing::push_fixes;
use crate::place::MAX_CODE;
use crate::rows::Row;
use block_make::{Fix, Fragment};
use fall_stubs::capture;
use ia_encode::{Dest, Piece};
use std::alloc::{AllocError, Global};

/// The code at an entry: the state is taken over and its block is next, or the original where no block starts there.
pub fn entry_piece(alloc: Global, entry: u32, known: bool) -> Result<Piece, AllocError>
    ensures { IfOk result (λ p. p ≡ entry_items entry known) }
{
    let mut piece = Piece::new(alloc);
    if known {
        capture(&mut piece)?;
        piece.jump(None, Dest::Block(entry))?;
    } else {
        piece.jump(None, Dest::Original(entry))?;
    }
    Ok(piece)
}

/// Appends a fragment to code. After want of memory a part of it may be there.
pub fn append<L>(
    code: &mut Vec<u8>,
    fixes: &mut Vec<Fix>,
    rows: &mut Vec<Row>,
    start: u32,
    fragment: &Fragment<L>,
) -> Result<(), AllocError>
    requires room { vec_len code.old + length fragment.now.bytes ≤ MAX_CODE }
    requires inside { All (λ (f : Fix). f.at + 4 ≤ length fragment.now.bytes) fragment.now.fixes }
    ensures code { OnOk result (code.new.items ≡ code.old.items ++ fragment.now.bytes) }
    ensures fixes { OnOk result (fixes.new.items ≡ fixes.old.items ++ map (forth (vec_len code.old)) fragment.now.fixes) }
    ensures rows { OnOk result (rows.new.items ≡ rows.old.items ++ (row_for start (vec_len code.old) (vec_len fixes.old) fragment.now ∷ [])) }
{
    let at = code.len() as u32;
    let row = Row {
        start,
        at,
        len: fragment.len() as usize,
        from: fixes.len(),
        count: fragment.fixes().len(),
    };
    push_fixes(fixes, at, fragment.fixes())?;
    code.extend_from_slice(fragment.bytes())?;
    rows.push(row)?;
    Ok(())
}
