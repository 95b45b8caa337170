//! The distances of fixes are filled in.
ghost use Rattle.std.specs.Prelude.{◌≡◌, ◌+◌, ◌++◌, ◌<◌, ◌≤◌, ◌^◌, All, IfOk, OnOk, map, length, true};
ghost use Rattle.std.specs.List.Sorted.{IsStrictlyIncreasing};
ghost use Rattle.block_make.specs.declared.fragment.Fix.{Fix};
ghost use Rattle.block_cut.specs.Transfers.{is_among};
ghost use Rattle.ia_encode.specs.Items.{distance};
ghost use Rattle.code_layout.specs.Linked.{goes_out};
ghost use Rattle.code_layout.specs.Layout.{with_word, dest_of_fix, filled, fixes_out};
ghost use Rattle.code_layout.specs.Places.{place_in};
ghost use Rattle.code_layout.specs.Rows.{row_starts, row_address, forth, IsFillable};

use crate::place::CODE_START;
use crate::places::Places;
use crate::rows::{Row, address_of};
use block_make::Fix;
use std::alloc::{AllocError, Global};

/// Appends fixes of code that stands at an offset.
pub fn push_fixes(out: &mut Vec<Fix>, at: u32, fixes: &[Fix]) -> Result<(), AllocError>
    requires { All (λ (f : Fix). at + f.at < 2 ^ 32) fixes.now }
    ensures { OnOk result (out.new.items ≡ out.old.items ++ map (forth at) fixes.now) }
{
    for fix in fixes {
        out.push(Fix {
            at: at + fix.at,
            target: fix.target,
            known: fix.known,
        })?;
    }
    Ok(())
}

/// The targets of the fixes that lead to the original, in their order. An error comes for want of memory.
pub fn fixes_out(alloc: Global, fixes: &[Fix]) -> Result<Vec<u32>, AllocError>
    ensures { IfOk result (λ v. v.items ≡ fixes_out fixes.now) }
{
    let mut outs = Vec::new(alloc);
    for fix in fixes {
        if !fix.known {
            outs.push(fix.target)?;
        }
    }
    Ok(outs)
}

/// Puts a word over four bytes, the lowest byte first.
pub fn put_word(code: &mut [u8], at: usize, word: u32)
    requires { at + 4 ≤ length code.old }
    ensures { code.new ≡ with_word at word code.old }
{
    code[at..at + 4].copy_from_slice(&word.to_le_bytes());
}

/// The distance of a fix of code that stands at [`CODE_START`].
fn distance_of(rows: &[Row], out: &Places, fix: &Fix) -> u32
    requires order { IsStrictlyIncreasing (row_starts rows.now) }
    requires low { All (λ (r : Row). CODE_START + r.at < 2 ^ 32) rows.now }
    requires inside { CODE_START + fix.now.at + 4 < 2 ^ 32 }
    requires there { fix.now.known ≡ true → is_among (row_starts rows.now) fix.now.target ≡ true }
    ensures { result ≡ distance (CODE_START + fix.now.at + 4) (goes_out (row_address rows.now) (place_in out.now) (dest_of_fix fix.now)) }
{
    let to = if fix.known {
        address_of(rows, fix.target)
    } else {
        out.place_of(fix.target)
    };
    to.wrapping_sub(CODE_START + fix.at + 4)
}

/// Fills in the distances of fixes, in code that stands at [`CODE_START`]. The work for a fix grows with the logarithm of the number
/// of rows, or of places.
pub fn fill(code: &mut [u8], fixes: &[Fix], rows: &[Row], out: &Places)
    requires order { IsStrictlyIncreasing (row_starts rows.now) }
    requires low { All (λ (r : Row). CODE_START + r.at < 2 ^ 32) rows.now }
    requires short { CODE_START + length code.old < 2 ^ 32 }
    requires fixes { All (IsFillable rows.now (length code.old)) fixes.now }
    ensures { code.new ≡ filled (goes_out (row_address rows.now) (place_in out.now)) CODE_START fixes.now code.old }
{
    for fix in fixes {
        let word = distance_of(rows, out, fix);
        put_word(code, fix.at as usize, word);
    }
}
