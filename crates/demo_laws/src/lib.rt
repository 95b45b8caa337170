//! Laws of the demonstration: what its file is read as, what stands in its code, and what its run does.
#![tactic(auto)]

mod laws;

pub use laws::{demo_accepted, demo_graph, demo_runs, demo_sites};
