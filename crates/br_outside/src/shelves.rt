//! Shelves in memory. Where a name stands twice in `files`, its first pair counts.
ghost use Rattle.std.specs.Prelude.{◌≡◌, ◌↔◌, ◌⊎◌, List, ℕ, Some, None, MatchOption, IsErr, OnErr, IsErrOf, string_bytes};
ghost use Rattle.std.specs.Result.{result_map_both, is_err};
ghost use Rattle.br_outside.specs.Outside.{Fetched, Stored};
ghost use Rattle.br_outside.specs.Files.{found};
ghost use Rattle.br_outside.specs.Failing.{NextFails, after_call, after_fault};
ghost use Rattle.br_outside.specs.Forms.{mem_files, calm_files, shelf_calls, mem_shelf_view, calm_shelf_view, fetch_failed, store_failed};
ghost use Rattle.br_outside.specs.declared.errors.ShelfError.TheVariants as shelf_errors;
ghost use Rattle.br_outside.specs.declared.errors.StoreError.TheVariants as store_errors;

use crate::errors::{ShelfError, StoreError};
use crate::failing::Failing;
use crate::pairs::{copy_of, find, put_pair};
use crate::traits::Shelf;
use std::alloc::Global;

/// Files in memory, with calls that fail. The calls of `fetch` and `store` are numbered together, from 1.
#[derive(Drop)]
pub struct MemShelf {
    alloc: Global,
    files: Vec<(String, Vec<u8>)>,
    failing: Failing,
}

impl MemShelf {
    /// A shelf with these files, whose calls with these numbers fail. A call past number 4294967295 is not made to
    /// fail by the list. What a store needs is taken from `alloc`.
    pub fn new(alloc: Global, files: Vec<(String, Vec<u8>)>, failing: Vec<u32>) -> MemShelf
        ensures files { mem_files result ≡ found files.items }
        ensures calls { shelf_calls result ≡ record { numbers = failing; calls = 0; faults = 0 } }
    {
        MemShelf {
            alloc,
            files,
            failing: Failing::new(failing),
        }
    }

    /// The content of a name; `None` exactly where there is no such name. This is no call that is counted.
    pub fn get(&self, name: &str) -> Option<&[u8]>
        ensures { MatchOption result (mem_files self.now name.now ≡ None) (λ bytes. mem_files self.now name.now ≡ Some bytes.now) }
    {
        find(&self.files, name)
    }
}

impl Shelf for MemShelf {
    ghost use Rattle.br_outside.specs.Forms.{mem_shelf_view};

    ghost seen = { mem_shelf_view };

    /// Fails exactly where this call's number is listed or there is no such name.
    fn fetch(&mut self, alloc: Global, name: &str, limit: u32) -> Result<Vec<u8>, ShelfError>
        ensures fetched { Fetched name.now limit (result_map_both (λ v. v.items) (λ e. e) result)
            (mem_shelf_view self.old) (mem_shelf_view self.new) }
        ensures failed { IsErrOf result shelf_errors.Failed ↔ (NextFails (shelf_calls self.old) ⊎ (mem_files self.old name.now ≡ None)) }
        ensures counted { shelf_calls self.new ≡ after_call (shelf_calls self.old) (fetch_failed result) }
    {
        if self.failing.next_fails() {
            return Err(ShelfError::Failed);
        }
        let answer = copy_of(alloc, &self.files, name, limit);
        if let Err(ShelfError::Failed) = answer {
            self.failing.count_fault();
        }
        answer
    }

    /// Fails exactly where this call's number is listed; then all names stay.
    fn store(&mut self, name: &str, bytes: &[u8]) -> Result<(), StoreError>
        ensures stored { Stored name.now bytes.now result (mem_shelf_view self.old) (mem_shelf_view self.new) }
        ensures failed { IsErrOf result store_errors.Failed ↔ NextFails (shelf_calls self.old) }
        ensures counted { shelf_calls self.new ≡ after_call (shelf_calls self.old) (store_failed result) }
        ensures stay { OnErr result (mem_files self.new ≡ mem_files self.old) }
    {
        if self.failing.next_fails() {
            return Err(StoreError::Failed);
        }
        put_pair(self.alloc, &mut self.files, name, bytes)?;
        Ok(())
    }
}

/// Files in memory, without faults of their own: only a fetch of a name that is not there fails.
#[derive(Drop)]
pub struct CalmShelf {
    alloc: Global,
    files: Vec<(String, Vec<u8>)>,
    faults: u64,
}

impl CalmShelf {
    /// A shelf with these files. What a store needs is taken from `alloc`.
    pub fn new(alloc: Global, files: Vec<(String, Vec<u8>)>) -> CalmShelf
        ensures files { calm_files result ≡ found files.items }
        ensures faults { (calm_shelf_view result).faults ≡ 0 }
    {
        CalmShelf {
            alloc,
            files,
            faults: 0,
        }
    }

    /// The content of a name; `None` exactly where there is no such name.
    pub fn get(&self, name: &str) -> Option<&[u8]>
        ensures { MatchOption result (calm_files self.now name.now ≡ None) (λ bytes. calm_files self.now name.now ≡ Some bytes.now) }
    {
        find(&self.files, name)
    }
}

impl Shelf for CalmShelf {
    ghost use Rattle.br_outside.specs.Forms.{calm_shelf_view};

    ghost seen = { calm_shelf_view };

    fn fetch(&mut self, alloc: Global, name: &str, limit: u32) -> Result<Vec<u8>, ShelfError> {
        let answer = copy_of(alloc, &self.files, name, limit);
        let failed = matches!(answer, Err(ShelfError::Failed));
        self.faults = self.faults.saturating_add(u64::from(failed));
        answer
    }

    fn store(&mut self, name: &str, bytes: &[u8]) -> Result<(), StoreError> {
        // A field that the body reads is known to be in the range of its type.
        let _faults = self.faults;
        put_pair(self.alloc, &mut self.files, name, bytes)?;
        Ok(())
    }
}

#[cfg(test)]
mod tests {
    use super::*;
    use std::alloc::AllocError;

    fn three(alloc: Global) -> Result<Vec<(String, Vec<u8>)>, AllocError> {
        let mut files = Vec::new(alloc);
        for (name, bytes) in [("a", "first"), ("a", "second"), ("empty", "")] {
            let name = String::from_str(alloc, name)?;
            files.push((name, bytes.as_bytes().to_vec(alloc)?))?;
        }
        Ok(files)
    }

    fn length_of<S: Shelf>(
        shelf: &mut S,
        alloc: Global,
        name: &str,
        limit: u32,
    ) -> Result<usize, ShelfError> {
        Ok(shelf.fetch(alloc, name, limit)?.len())
    }

    #[test]
    fn fails_at_the_listed_calls(rt: HostRuntime) -> Result<(), AllocError> {
        let alloc = rt.alloc();
        let failing = vec![in alloc; 2u32, 5, 5, 0]?;
        let mut shelf = MemShelf::new(alloc, three(alloc)?, failing);
        assert_eq!(rt; length_of(&mut shelf, alloc, "a", 5), Ok(5));
        assert_eq!(rt; shelf.store("a", b"lost"), Err(StoreError::Failed));
        assert_eq!(rt; shelf.get("a"), Some(&b"first"[..]));
        assert_eq!(rt; shelf.store("a", b"new"), Ok(()));
        assert_eq!(rt;
            length_of(&mut shelf, alloc, "a", 2),
            Err(ShelfError::TooLong)
        );
        assert_eq!(rt;
            length_of(&mut shelf, alloc, "a", 3),
            Err(ShelfError::Failed)
        );
        assert_eq!(rt; length_of(&mut shelf, alloc, "a", 3), Ok(3));
        assert_eq!(rt;
            length_of(&mut shelf, alloc, "b", 3),
            Err(ShelfError::Failed)
        );
        assert_eq!(rt; shelf.get("b"), None);
        Ok(())
    }

    #[test]
    fn keeps_what_was_stored(rt: HostRuntime) -> Result<(), AllocError> {
        let alloc = rt.alloc();
        let mut shelf = CalmShelf::new(alloc, three(alloc)?);
        assert_eq!(rt; length_of(&mut shelf, alloc, "empty", 0), Ok(0));
        assert_eq!(rt; shelf.store("new", b"n"), Ok(()));
        assert_eq!(rt; shelf.store("new", b"nn"), Ok(()));
        assert_eq!(rt; length_of(&mut shelf, alloc, "new", 9), Ok(2));
        assert_eq!(rt;
            length_of(&mut shelf, alloc, "ne", 9),
            Err(ShelfError::Failed)
        );
        assert_eq!(rt; shelf.get("a"), Some(&b"first"[..]));
        Ok(())
    }
}
