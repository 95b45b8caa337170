//! The limits of sets of edges (docs/TRACES.md).

/// The most edges of a trace file.
pub const FILE_EDGE_LIMIT: u32 = 2000000;

/// The most edges of a set, and of all sets that are joined, an edge of several counted in each.
pub const EDGE_LIMIT: u32 = 16777216;
