//! Basic blocks: the instructions that run on from a start, what ends them, where their transfers lead, and
//! which control-flow edges count (docs/GRAPH.md).
#![tactic(auto)]

mod block_law;
mod blocks;
mod counted_edges;
mod ends;
mod places;
mod transfers;

pub use block_law::{following_above, one_block};
pub use blocks::{address_behind, cut, following_start, start_behind};
pub use counted_edges::counts;
pub use ends::{Cut, End, MAX_INSTRUCTIONS};
pub use places::{Spelled, instruction_at};
pub use transfers::leads;

#[cfg(test)]
mod tests;
