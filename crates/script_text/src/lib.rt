//! Reads the lines of a session's script (docs/COMMANDS.md).
#![tactic(auto)]

mod line;

pub use line::{BadLine, NUMBER_DIGIT_LIMIT, Order, read_line};

#[cfg(test)]
mod tests;
