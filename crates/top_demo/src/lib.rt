//! `demo K`: a program is generated, traced, written again with its trace, and run beside the written file.
#![tactic(auto)]

pub mod command;
mod law;
mod line;
pub mod runs;

pub use command::demo_command;
pub use law::demo_law;

#[cfg(test)]
mod tests;
