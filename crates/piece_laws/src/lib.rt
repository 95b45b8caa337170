//! Laws of fragments: what the code of block_make does in runs of the written file is what the simulation asks of a fragment's
//! pieces, and the exchange of state is what it asks round a native instruction. Each is the contract of a call that does nothing.
#![tactic(auto)]

mod exchange;
mod laws;

pub use exchange::{captures_joined, opens_joined};
pub use laws::{items_are_pieces, parted_serve, pieces_do, suits_hold};
