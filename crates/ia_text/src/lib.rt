//! Prints instructions: the text of each.
#![tactic(auto)]

mod names;
mod operands;
mod text;

pub use operands::digits_text;
pub use text::print_inst;

#[cfg(test)]
mod tests;
