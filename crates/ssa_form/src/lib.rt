//! Blocks in single assignment form, and what they are worth: specs/Value has the value of numbered lines,
//! specs/Agree when numbers are those of a processor, specs/Checked when names stand for something, and
//! specs/Same when one block may stand in another's place.
#![tactic(auto)]

mod check;
mod form;
mod lines;
mod lists;
#[cfg(test)]
mod tests;

pub use br_word::Width;
pub use check::check_block;
pub use form::{BinOp, Block, BlockKey, Exit, Line, OneOp, REGISTERS, Split, Val};
pub use lines::Lines;
pub use lists::{KnownExits, Marks};
