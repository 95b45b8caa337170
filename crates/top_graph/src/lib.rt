//! `merge` and `show`: the union of traces, which is stored, and the graph of an original and its traces, which is listed.
#![tactic(auto)]

mod law;
pub mod merge;
pub mod show;

pub use law::{merge_law, show_law};
pub use merge::merge_command;
pub use show::show_command;
