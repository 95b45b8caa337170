//! The control-flow graph of an executable and a set of edges (docs/GRAPH.md).
#![tactic(auto)]

mod block_rows;
mod block_starts;
mod counting;
mod error;
mod graph;
mod graph_law;
mod index_search;
mod site_search;
mod start_law;

pub use error::{GraphError, MAX_BLOCKS};
pub use graph::Graph;
pub use graph_law::one_graph;
pub use start_law::least_starts;

#[cfg(test)]
mod change_tests;
#[cfg(test)]
mod tests;
