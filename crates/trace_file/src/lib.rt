//! Sets of control-flow edges, and the trace files that keep them (docs/TRACES.md).
#![tactic(auto)]

mod check;
mod difference;
mod edges;
mod error;
mod field;
mod hash;
mod law;
mod limits;
mod order;
mod read;
mod unite;
mod write;

pub use edges::Edges;
pub use error::TraceError;
pub use hash::digest;
pub use law::{read_back, sets_hold};
pub use limits::{EDGE_LIMIT, FILE_EDGE_LIMIT};
pub use read::read_trace;
pub use unite::union_all;
pub use write::write_trace;

#[cfg(test)]
mod tests;
