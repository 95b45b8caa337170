//! `build`: the image of an original, stored under a name.
#![tactic(auto)]

pub mod build;
mod law;

pub use build::build_command;
pub use law::build_law;
