//! The code of lines and of moves: each is a short list of instructions over the locations of its operands, which use up eax, ecx and
//! the flags.
#![tactic(auto)]

mod insts;
mod lines;
mod moves;

pub use lines::emit_line;
pub use moves::emit_move;

#[cfg(test)]
mod tests;
