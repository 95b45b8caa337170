//! `run` and `trace`: a guest takes steps, and their edges are stored.
#![tactic(auto)]

mod law;
pub mod lines;
pub mod run;
pub mod trace;

pub use law::{run_law, trace_law};
pub use run::run_command;
pub use trace::trace_command;
