//! The split of a block: which of its lines a fragment runs on every way out, and which only where it is left by a side exit. specs/Splits
//! has both, and specs/Serving when a split serves, which `split_serves` says it does.
#![tactic(auto)]

mod exits;
mod law;
mod parts;
#[cfg(test)]
mod tests;

pub use exits::has_fallback;
pub use law::split_serves;
pub use parts::split;
pub use ssa_form::{Block, BlockKey, Split};
