//! Pruning: the lines that nothing needs go. specs/Names has what lines name and which sets of lines are closed, specs/Needed the lines
//! that a block needs; `needed_is_least` and `prune_keeps` say what they are worth.
#![tactic(auto)]

mod law;
mod marks;
mod pruning;
mod sweep;
#[cfg(test)]
mod tests;

pub use law::{needed_is_least, prune_keeps};
pub use marks::{mark_all_outs, mark_always, mark_outs};
pub use pruning::prune;
pub use ssa_form::Block;
pub use sweep::mark_needed;
