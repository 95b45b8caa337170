//! The objects of the outside.
//!
//! Each has a count of its faults, which is at most `2^64 - 1`, and stands at that value once it is there; "the count
//! rose" then means that it stands there. A call that answers `Failed` raises it, and every other call leaves it as it
//! was. An object that tells its contents tells them after every call, and one that tells that it is calm stays calm.
ghost use Rattle.std.specs.Prelude.{List, ℕ, Result};
ghost use Rattle.std.specs.Result.{result_map_both};
ghost use Rattle.br_outside.specs.Outside.{ShelfView, StreamView, Fetched, Stored, Took, Gave};

use crate::errors::{Failed, ShelfError, SinkError, StoreError};
use std::alloc::Global;

/// Files under names.
pub trait Shelf {
    ghost seen: { Self → ShelfView };

    /// The content of a name, of at most `limit` bytes. No content changes.
    ///
    /// - `Failed` comes only where the count rose: at a fault, and where there is no such name. On a calm shelf that
    ///   tells its files it comes exactly where there is no such name.
    /// - `TooLong`, on a shelf that tells its files, comes exactly where the call did not fail and the content has
    ///   more than `limit` bytes.
    /// - `Memory` comes only for a content that is there and no longer than that.
    fn fetch(&mut self, alloc: Global, name: &str, limit: u32) -> Result<Vec<u8>, ShelfError>
        ensures { Fetched name.now limit (result_map_both (λ v. v.items) (λ e. e) result) (seen self.old) (seen self.new) };

    /// Makes the bytes the content of the name, and leaves all other names.
    ///
    /// - `Failed` comes only where the count rose, and never on a calm shelf. The content of this name is then
    ///   unknown, or the name is gone, and all others stay.
    /// - `Memory`: all names stay.
    fn store(&mut self, name: &str, bytes: &[u8]) -> Result<(), StoreError>
        ensures { Stored name.now bytes.now result (seen self.old) (seen self.new) };
}

/// Bytes that come.
pub trait Source {
    ghost seen: { Self → StreamView };

    /// Fills a front part of `into` with the first bytes that are left, takes them, and answers their number. The
    /// other bytes of `into` stay. For a piece that is not empty, 0 means the end of the input, and on a source that
    /// tells its bytes it comes exactly where none is left.
    ///
    /// `Failed` comes only where the count rose, and never on a calm source. Nothing is then taken, and `into` stays.
    fn take(&mut self, into: &mut [u8]) -> Result<usize, Failed>
        ensures { Took into.old into.new result (seen self.old) (seen self.new) };
}

/// Bytes that go.
pub trait Sink {
    ghost seen: { Self → StreamView };

    /// Appends the piece to what was written.
    ///
    /// - `Failed` comes only where the count rose, and never on a calm sink. What was written then grew by a prefix
    ///   of the piece.
    /// - `Memory`: nothing was written.
    fn give(&mut self, piece: &[u8]) -> Result<(), SinkError>
        ensures { Gave piece.now result (seen self.old) (seen self.new) };
}
