//! Reads the words of the command line (docs/COMMANDS.md).
#![tactic(auto)]

mod command;
mod law;
mod limits;
mod number;
mod parts;

pub use command::{Command, Usage, read_words};
pub use law::names_stand;
pub use limits::{
    ARGUMENT_BYTES_LIMIT, ARGUMENT_LIMIT, DEFAULT_STEPS, DEMO_LIMIT, DIGIT_LIMIT, FIRST_NAME,
    FIRST_NAME_BEHIND_STEPS, GUEST_BYTES, NAME_LIMIT, TRACE_LIMIT,
};
pub use number::read_digits;
pub use parts::first_name;

#[cfg(test)]
mod tests;
