//! The demonstration: an executable that is generated.
#![tactic(auto)]

mod generate;

pub use generate::{MAX_FUNCTIONS, demo_exe};

#[cfg(test)]
mod tests;
