//! Writes instructions: the canonical spelling of each.
#![tactic(auto)]

mod code;
mod encoding;
mod item;
mod laws;
mod piece;

pub use encoding::encode;
pub use item::{Dest, Item};
pub use laws::{bytes_read, direct_lengths, items_stand, round_trip};
pub use piece::Piece;

#[cfg(test)]
mod tests;
