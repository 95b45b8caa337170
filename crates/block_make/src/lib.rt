//! The code of one block: its lines, the ways to known blocks, and the side exits to the original.
#![tactic(auto)]

mod assembly;
mod choices;
mod exits;
mod fragment;
mod laws;
mod lines;
mod moves;
mod prepared;
mod short;

pub use assembly::{Assembled, assemble};
pub use choices::ready;
pub use fragment::{Fix, Fragment, JUMP_SLOT, MAX_EXITS, make};
pub use laws::{fragments_valid, ready_keeps, splits_are_closed, splits_are_listed};
pub use short::codes_short;

#[cfg(test)]
mod tests;
