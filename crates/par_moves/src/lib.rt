//! Parallel moves between the locations of recovered code: registers, and words of the private segment.
#![tactic(auto)]

mod homes;
mod laws;
mod locations;
mod operands;
mod order;

pub use homes::{RegisterHome, register_homes};
pub use laws::moves_at_once;
pub use locations::{MoveSource, Place, PlaceMove, SLOTS, SPARE};
pub use operands::{operand, source};
pub use order::sequence;

#[cfg(test)]
mod tests;
