//! Lists blocks: the address of each, its instructions, and where it goes on (docs/LISTING.md).
#![tactic(auto)]

mod block;
mod lines;
mod numbers;
mod ways;

pub use block::{show_block, show_cut_block};
pub use numbers::bytes_text;

#[cfg(test)]
mod tests;
