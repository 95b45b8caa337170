//! Reads a script line by line from a source that gives pieces (docs/COMMANDS.md).
#![tactic(auto)]

mod line;
mod reader;

pub use line::{Line, LineError};
pub use reader::LineReader;

#[cfg(test)]
mod tests;
