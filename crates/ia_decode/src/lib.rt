//! Reads instructions: the spellings of `docs/INSTRUCTIONS.md`, from the left.
#![tactic(auto)]

mod arithmetic;
mod bytes;
mod decoded;
mod instruction;
mod moves;
mod opcode;
mod operand;
mod prefixes;
mod second;
mod shift;
mod simple;
mod stands;
mod uniqueness;

pub use decoded::{encoding_decides, encoding_length, fifteen_bytes_decide, read_is_valid};
pub use instruction::decode;
pub use stands::{found_is_spelled, one_stands, step_is_spelled};
pub use uniqueness::{one_instruction, one_spelling, prefix_free};

#[cfg(test)]
mod tests;
