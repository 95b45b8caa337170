//! What stands behind the fragments in a file with copies of cold code (docs/COLD.md): the copies, the re-entries of blocks, and the
//! dispatcher.
#![tactic(auto)]

mod behind;
mod error;
mod joining;
mod linking;
mod pieces;
mod starts;
mod tails;

pub use behind::{Behind, Laid, Tail};
pub use error::ColdError;
pub use pieces::Starts;
pub use tails::{linked, pieces_behind};

#[cfg(test)]
mod tests;
