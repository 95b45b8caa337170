//! Traces of runs: the control-flow edges of the steps that a guest takes.
#![tactic(auto)]

mod answers;
mod recorder;
mod tracing;

pub use answers::{Traced, TracingError};
pub use tracing::trace;

#[cfg(test)]
mod tests;
