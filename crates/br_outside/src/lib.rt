//! The outside of a program: files under names, bytes that come and bytes that go.
//!
//! Each is a trait with one ghost member, `seen`: what the object tells of its contents, its count of faults, and
//! whether it is calm. Each has two forms in memory: `Mem..` fails at the calls that a list names, `Calm..` at none.
#![tactic(auto)]

pub mod errors;
pub mod failing;
mod pairs;
pub mod shelves;
pub mod sinks;
pub mod sources;
pub mod traits;

pub use errors::{Failed, ShelfError, SinkError, StoreError};
pub use shelves::{CalmShelf, MemShelf};
pub use sinks::{CalmSink, MemSink};
pub use sources::{CalmSource, MemSource};
pub use traits::{Shelf, Sink, Source};
