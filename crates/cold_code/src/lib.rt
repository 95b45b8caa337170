//! The code of cold blocks: copies of the original's instructions, and the dispatcher, which leads on by an address
//! (docs/COLD.md).
#![tactic(auto)]

mod copies;
mod dispatching;
mod ends;
mod insts;
mod joining;
mod linking;
mod members;

pub use copies::{copy, linked_copy};
pub use dispatching::{dispatcher, linked_dispatcher};
pub use joining::merged_lists;
pub use linking::copies_are_code;

#[cfg(test)]
mod tests;
