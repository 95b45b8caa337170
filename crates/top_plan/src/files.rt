//! Files that are fetched and stored.
ghost use Rattle.std.specs.Prelude.{◌≤◌, IfOk, length};
ghost use Rattle.top_plan.specs.World.{World, on_shelf};
ghost use Rattle.top_plan.specs.Plan.{Plan, Fetches, Stores};
ghost use Rattle.top_plan.specs.Parts.{Goes};

use crate::ends::{Cause, Halt, Limit, Object};
use br_outside::{Shelf, ShelfError, StoreError};
use std::alloc::Global;

/// The content of a name, of at most `limit` bytes.
///
/// The error is a failure of the shelf, the limit where the content is longer, or want of memory.
pub fn fetch_file<F: Shelf>(
    alloc: Global,
    shelf: &mut F,
    name: &str,
    limit: u32,
) -> Result<Vec<u8>, Halt>
    ensures goes { (w : World) → Goes (λ v. v.items) (Fetches name.now limit)
        (on_shelf w (F.seen shelf.old)) result (on_shelf w (F.seen shelf.new)) }
    ensures short { IfOk result (λ v. length v.items ≤ limit) }
{
    match shelf.fetch(alloc, name, limit) {
        Ok(bytes) => Ok(bytes),
        Err(ShelfError::Failed) => Err(Halt::Outside(Object::Shelf)),
        Err(ShelfError::TooLong) => Err(Halt::Because(Cause::Limited(Limit::File(limit)))),
        Err(ShelfError::Memory) => Err(Halt::Memory),
    }
}

/// Makes the bytes the content of the name. The error is a failure of the shelf, after which the
/// content of the name is not known, or want of memory, after which it is as before.
pub fn store_file<F: Shelf>(shelf: &mut F, name: &str, bytes: &[u8]) -> Result<(), Halt>
    ensures { (w : World) → Goes (λ x. x) (λ next. Stores name.now bytes.now (next tt))
        (on_shelf w (F.seen shelf.old)) result (on_shelf w (F.seen shelf.new)) }
{
    match shelf.store(name, bytes) {
        Ok(()) => Ok(()),
        Err(StoreError::Failed) => Err(Halt::Outside(Object::Shelf)),
        Err(StoreError::Memory) => Err(Halt::Memory),
    }
}
