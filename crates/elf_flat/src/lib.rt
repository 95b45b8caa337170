//! Flat executables: one segment, which is the whole file, headers and all.
#![tactic(auto)]

mod headers;
mod laws;

pub use headers::{FLAT_ENTRY, FLAT_START, flat_headers};
pub use laws::flat_accepted;

#[cfg(test)]
mod tests;
