//! Live registers: which virtual registers a block must find in their homes. specs/Rows has the row of a block, specs/Live the live
//! sets of rows, and specs/Laws what they are worth.
#![tactic(auto)]

mod law;
mod links;
mod row;
mod sets;
#[cfg(test)]
mod tests;

pub use law::{fragment_splits, live_is_walked, sets_are_narrow};
pub use links::place_of;
pub use row::{LiveRow, Starts, row_of};
pub use sets::live;
pub use ssa_form::Block;
