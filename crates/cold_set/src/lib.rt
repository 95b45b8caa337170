//! The cold starts: where copies of the original's instructions begin, beside the recovered blocks (docs/COLD.md).
#![tactic(auto)]

mod error;
mod law;
mod search;
mod ways;

pub use error::{ColdSetError, MAX_COLD};
pub use law::cold_least;
pub use search::cold_starts;

#[cfg(test)]
mod tests;
