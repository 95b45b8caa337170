//! Bounded runs of a guest.
#![tactic(auto)]

mod advance;
mod arguments;
mod guest;
mod laws;
mod opening;
mod stop;

pub use arguments::{ARGUMENT_LIMIT, WORD_LIMIT, args_fit};
pub use guest::{Guest, STEP_LIMIT};
pub use guest_sys::SysError;
pub use laws::{breaks_hold, input_is_used, runs_hold, steps_hold};
pub use stop::Stop;

#[cfg(test)]
mod tests;
