//! The memory of a guest: its regions with their permissions, and the accesses to them.
#![tactic(auto)]

mod area;
mod memory;

pub use area::{STACK_SIZE, STACK_START};
pub use memory::{HEAP_LIMIT, INSTRUCTION_LIMIT, Memory};
