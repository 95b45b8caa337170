//! One list of places of two.
ghost use Rattle.std.specs.Prelude.{◌≡◌, IfOk};
ghost use Rattle.cold_copy.specs.Behind.{joined};

use std::alloc::{AllocError, Global};

/// The pairs of two lists, at each place the one with the lower address of the two that are next. An error comes for want of memory.
pub fn joined(
    alloc: Global,
    first: &[(u32, u32)],
    second: &[(u32, u32)],
) -> Result<Vec<(u32, u32)>, AllocError>
    ensures { IfOk result (λ v. v.items ≡ joined first.now second.now) }
{
    let mut all = Vec::new(alloc);
    let mut left = 0;
    let mut right = 0;
    while left < first.len() {
        if right < second.len() && second[right].0 < first[left].0 {
            all.push(second[right])?;
            right += 1;
        } else {
            all.push(first[left])?;
            left += 1;
        }
    }
    all.extend_from_slice(&second[right..])?;
    Ok(all)
}
