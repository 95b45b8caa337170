//! The code of a block's lines.
ghost use Rattle.std.specs.Prelude.{◌≡◌, ℕ, ◌++◌, true, OnOk, length};
ghost use Rattle.block_make.specs.FragmentItems.{lines_items};
ghost use Rattle.reg_place.specs.Places.{is_in};
ghost use Rattle.block_make.specs.Prepared.{choice_in, is_done, IsPrepared};

use crate::prepared::Prepared;
use emit_ops::emit_line;
use ia_encode::Piece;
use std::alloc::AllocError;

/// Appends the code of the lines of a set. An error comes for want of memory.
pub fn emit_lines(p: &mut Piece, of: &Prepared, set: &[bool]) -> Result<(), AllocError>
    requires prepared { IsPrepared of.now }
    requires size { length set.now ≡ length of.now.block.lines }
    requires done { (i : ℕ) → is_in set.now i ≡ true → is_done of.now.split i ≡ true }
    ensures { OnOk result (p.new ≡ p.old ++ lines_items (choice_in of.now) set.now) }
{
    let places = of.places.as_slice();
    for index in 0..of.block.lines.len() {
        if set[index] {
            emit_line(p, &of.block.lines.line(index), index as u32, places)?;
        }
    }
    Ok(())
}
