//! One list of two.
ghost use Rattle.std.specs.Prelude.{◌≡◌, IfOk};
ghost use Rattle.cold_code.specs.Dispatcher.{merged};
ghost use Rattle.cold_code.specs.Joining.{MembersOfBoth, AsManyAsBoth, MergedAscends, MergedBelow};

use std::alloc::{AllocError, Global};

/// The numbers of two lists, at each place the lower of the two that are next.
pub fn merged(alloc: Global, first: &[u32], second: &[u32]) -> Result<Vec<u32>, AllocError>
    ensures { IfOk result (λ v. v.items ≡ merged first.now second.now) }
{
    let mut all = Vec::new(alloc);
    let mut left = 0;
    let mut right = 0;
    while left < first.len() {
        if right < second.len() && second[right] < first[left] {
            all.push(second[right])?;
            right += 1;
        } else {
            all.push(first[left])?;
            left += 1;
        }
    }
    all.extend_from_slice(&second[right..])?;
    Ok(all)
}

/// Two lists that are joined have the members of both, each as often as there, and no bound of both is passed. Strictly ascending lists
/// that share no member give a strictly ascending one.
pub fn merged_lists()
    ensures members { MembersOfBoth }
    ensures length { AsManyAsBoth }
    ensures ascends { MergedAscends }
    ensures below { MergedBelow }
{}
