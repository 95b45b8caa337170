//! Names and contents as pairs, the first of a name that counts.
ghost use Rattle.std.specs.Prelude.{◌≡◌, ◌<◌, ◌≤◌, List, ℕ, length, Some, None, MatchOption, OnOk, OnErr};
ghost use Rattle.std.specs.Result.{result_map_both};
ghost use Rattle.br_outside.specs.Files.{Reads, IsFirst, found, put};

use crate::errors::ShelfError;
use std::alloc::{AllocError, Global};

/// The place of the first pair of a name.
fn place_of(files: &[(String, Vec<u8>)], name: &str) -> Option<usize>
    ensures within { MatchOption result (found files.now name.now ≡ None) (λ place. place < length files.now) }
    ensures first { MatchOption result (found files.now name.now ≡ None) (λ place. IsFirst name.now files.now place) }
{
    let mut place = 0;
    while place < files.len() {
        if files[place].0.as_str() == name {
            return Some(place);
        }
        place += 1;
    }
    None
}

/// The content of a name; `None` where there is no such name.
pub fn find<'a>(files: &'a [(String, Vec<u8>)], name: &str) -> Option<&'a [u8]>
    ensures { MatchOption result (found files.now name.now ≡ None) (λ bytes. found files.now name.now ≡ Some bytes.now) }
{
    match place_of(files, name) {
        None => None,
        Some(place) => Some(files[place].1.as_slice()),
    }
}

/// A copy of the content of a name, of at most `limit` bytes. `Failed` comes where there is no such name.
pub fn copy_of(
    alloc: Global,
    files: &[(String, Vec<u8>)],
    name: &str,
    limit: u32,
) -> Result<Vec<u8>, ShelfError>
    ensures { Reads name.now limit (found files.now) (result_map_both (λ v. v.items) (λ e. e) result) }
{
    let Some(bytes) = find(files, name) else {
        return Err(ShelfError::Failed);
    };
    if bytes.len() > limit as usize {
        return Err(ShelfError::TooLong);
    }
    Ok(bytes.to_vec(alloc)?)
}

/// Makes the bytes the content of the name: in its first pair, or in a new one at the end. Without memory all stays.
pub fn put_pair(
    alloc: Global,
    files: &mut Vec<(String, Vec<u8>)>,
    name: &str,
    bytes: &[u8],
) -> Result<(), AllocError>
    ensures ok { OnOk result (found files.new.items ≡ put name.now (Some bytes.now) (found files.old.items)) }
    ensures err { OnErr result (found files.new.items ≡ found files.old.items) }
{
    let content = bytes.to_vec(alloc)?;
    if let Some(place) = place_of(files, name) {
        files[place].1 = content;
        return Ok(());
    }
    let name = String::from_str(alloc, name)?;
    files.push((name, content))?;
    Ok(())
}
