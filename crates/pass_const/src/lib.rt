//! Constants: the rules that put a name in the place of a line of a block. specs/Rule has the rules, and `rules_hold` says what they keep.
#![tactic(auto)]

mod law;
mod rules;
#[cfg(test)]
mod tests;
mod values;

pub use law::rules_hold;
pub use rules::{number_of, rule_of};
pub use ssa_form::{Line, Val};
