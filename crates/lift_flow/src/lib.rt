//! Basic blocks as they are lifted: the lines of a block are those of its instructions, one after another
//! (docs/LIFTED.md). What a block is, how far it goes and where it may go on stands in `block_cut`, and is
//! passed on here: a user of lifted blocks names this crate alone.
#![tactic(auto)]

mod law;
mod lift;

/// How far blocks go, where their transfers lead, and which edges count.
pub use block_cut::{
    Cut, End, MAX_INSTRUCTIONS, Spelled, address_behind, counts, cut, following_start,
    instruction_at, leads, one_block, start_behind,
};
pub use law::lines_few;
pub use lift::lift_block;
pub use ssa_form::Block;

#[cfg(test)]
mod tests;
