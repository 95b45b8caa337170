//! Commands as plans: the calls that they make of the outside, and what a run of a plan comes to. Nothing here names a
//! command.
#![tactic(auto)]

pub mod ends;
pub mod files;
mod law;
mod line;
pub mod pieces;
pub mod print;
pub mod report;
#[cfg(test)]
mod tests;

pub use ends::{Cause, Finish, Halt, Limit, Object, Outcome};
pub use files::{fetch_file, store_file};
pub use law::plan_law;
pub use pieces::PIECE_LENGTH;
pub use print::print_text;
pub use report::{tell, tell_halt, tell_outcome, tell_usage};
