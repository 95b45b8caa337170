//! The lines of each instruction: specs/Table has a row of steps for each, specs/Lifted what lifting makes of
//! a block, and specs/Means that the lines do what the instruction does.
#![tactic(auto)]

mod conditions;
mod flags;
mod law;
mod lift;
mod logic;
mod moves;
mod names;
mod operands;
mod row;
mod shifts;
mod stack;
mod sums;
#[cfg(test)]
mod tests;
mod transfers;

pub use ia_inst::Inst;
pub use law::lines_mean;
pub use lift::lift_inst;
pub use ssa_form::Block;
