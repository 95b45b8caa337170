//! Originals and their traces: the files that commands fetch and read, and the traces that they store, as parts of plans.
#![tactic(auto)]

pub mod original;
pub mod traces;

pub use original::{Subject, fetch_original, fetch_subject};
pub use traces::{TRACE_FILE_LIMIT, fetch_traces, store_trace};
