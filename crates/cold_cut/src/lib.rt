//! Cold blocks: the instructions that run on from a start up to and with the first transfer, of which a copy is made where no
//! recovered block begins (docs/COLD.md).
#![tactic(auto)]

mod blocks;
mod ends;

pub use blocks::cut_cold;
pub use ends::{ColdCut, ColdEnd, MAX_COPIED};

#[cfg(test)]
mod tests;
