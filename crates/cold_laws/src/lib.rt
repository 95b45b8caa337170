//! Laws of copies: code that holds the original's own instructions, at another place, does what the original does there, and where a copy
//! ends the code behind it leads on to a block, to a copy or to the original. Each law is the contract of a call that does nothing, so that
//! a proof above can cite it, and speaks of every list of choices.
#![tactic(auto)]

mod direct;
mod dispatcher;
mod leave;
mod place;
mod turning;

pub use direct::direct_ends;
pub use dispatcher::dispatches;
pub use leave::ends_in_place;
pub use place::steps_in_place;
pub use turning::{beyond_lands, copies_turn};
