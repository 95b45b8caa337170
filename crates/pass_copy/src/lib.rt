//! Folding: a line whose value a name has already gives its place to that name. specs/Folded has the folded block, and `fold_keeps` says
//! what it keeps.
#![tactic(auto)]

mod folding;
mod law;
#[cfg(test)]
mod tests;

pub use folding::fold;
pub use law::fold_keeps;
pub use ssa_form::Block;
