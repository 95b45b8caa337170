//! The exchange of state between the registers and flags of the processor and the virtual registers of recovered code.
#![tactic(auto)]

mod exchange;
mod homes;
mod insts;

pub use exchange::{capture, island, restore, spill};

#[cfg(test)]
mod tests;
