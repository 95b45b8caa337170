//! `session`: an original, and the lines of a script that add and take away traces and store files.
#![tactic(auto)]

mod follow;
mod law;
pub mod limits;
mod lines;
mod orders;
pub mod session;
mod texts;

pub use law::session_law;
pub use limits::{LINE_COUNT_LIMIT, LINE_LIMIT};
pub use session::session_command;
