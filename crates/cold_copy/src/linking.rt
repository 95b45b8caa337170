//! Pieces are linked behind the fragments.
ghost use Rattle.std.specs.Prelude.{◌≡◌, ◌+◌, ◌++◌, ◌<◌, ◌≤◌, ◌^◌, All, OnOk, length, vec_len};
ghost use Rattle.std.specs.List.Sorted.{IsStrictlyIncreasing};
ghost use Rattle.ia_encode.specs.Items.{distance, goes_to};
ghost use Rattle.code_layout.specs.declared.place.TheConstants.{CODE_START, MAX_CODE};
ghost use Rattle.code_layout.specs.Layout.{dest_of_fix, filled, filled_code};
ghost use Rattle.block_make.specs.declared.fragment.Fix.{Fix};
ghost use Rattle.cold_copy.specs.Behind.{IsWithin};
ghost use Rattle.cold_copy.specs.Linking.{stands_to};

use block_make::{Assembled, Fix};
use code_layout::{CODE_START, Places, put_word};
use std::alloc::AllocError;

/// Where the dispatcher, the fragments and the copies stand.
#[derive(Drop)]
pub struct Stands {
    /// The dispatcher.
    pub turn: u32,
    /// The starts of blocks, ascending.
    pub starts: Vec<u32>,
    /// The fragment of each of them.
    pub blocks: Places,
    /// The copy of each cold start.
    pub copies: Places,
}

impl Stands {
    /// Where a jump to a block leads: to the dispatcher by 0, to the fragment of a start, else to a copy.
    fn place_of(&self, name: u32) -> u32
        requires { IsStrictlyIncreasing self.now.starts.items }
        ensures { result ≡ stands_to self.now name }
    {
        if name == 0 {
            self.turn
        } else if self.starts.as_slice().binary_search(&name).is_ok() {
            self.blocks.place_of(name)
        } else {
            self.copies.place_of(name)
        }
    }
}

/// The distance of a fix of a piece at an address.
fn distance_of(at: u32, fix: &Fix, stands: &Stands) -> u32
    requires low { at + fix.now.at + 4 < 2 ^ 32 }
    requires ascend { IsStrictlyIncreasing stands.now.starts.items }
    ensures { result ≡ distance (at + fix.now.at + 4) (goes_to (stands_to stands.now) (dest_of_fix fix.now)) }
{
    let to = if fix.known {
        stands.place_of(fix.target)
    } else {
        fix.target
    };
    to.wrapping_sub(at + fix.at + 4)
}

/// Fills in the distances of a piece whose bytes stand at an address, last in the code.
fn fill(code: &mut [u8], at: u32, fixes: &[Fix], stands: &Stands)
    requires short { at + length code.old < 2 ^ 32 }
    requires within { All (λ (f : Fix). f.at + 4 ≤ length code.old) fixes.now }
    requires ascend { IsStrictlyIncreasing stands.now.starts.items }
    ensures { code.new ≡ filled (goes_to (stands_to stands.now)) at fixes.now code.old }
{
    for fix in fixes {
        let word = distance_of(at, fix, stands);
        put_word(code, fix.at as usize, word);
    }
}

/// Appends a piece to code, with its distances filled in. An error comes for want of memory.
pub fn link(code: &mut Vec<u8>, piece: &Assembled, stands: &Stands) -> Result<(), AllocError>
    requires within { IsWithin piece.now }
    requires room { vec_len code.old + length piece.now.bytes ≤ MAX_CODE }
    requires ascend { IsStrictlyIncreasing stands.now.starts.items }
    ensures { OnOk result (code.new.items ≡ code.old.items ++ filled_code (goes_to (stands_to stands.now)) (CODE_START + vec_len code.old) piece.now) }
{
    let from = code.len();
    code.extend_from_slice(piece.bytes())?;
    fill(
        &mut code.as_mut_slice()[from..],
        CODE_START + from as u32,
        piece.fixes(),
        stands,
    );
    Ok(())
}
