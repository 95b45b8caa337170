//! The effect of instructions on the machine's words.
#![tactic(auto)]

mod arithmetic;
mod control;
mod cpu;
mod dispatch;
mod finish;
mod moves;
mod multiply;
mod operand;
mod shift;
mod stack;
mod status;
mod string;
mod wide;

pub use br_word::{Flags, GuestFault};
pub use cpu::{Cpu, Outcome};
pub use dispatch::execute;
