//! Numbered traces that come and go, how many of them have an edge, and their union.
#![tactic(auto)]

mod error;
mod fill;
mod flags;
mod rows;
mod set;

pub use error::{ADDITION_LIMIT, SetError, TRACE_LIMIT, Unknown};
pub use set::TraceSet;

#[cfg(test)]
mod tests;
