//! The runs of a guest as definitions: its opening, its runs, and their edges; and what its states keep.
#![tactic(auto)]

mod laws;

pub use laws::{keeps_sound, memory_of_bytes, opens_soundly, runs_split};
