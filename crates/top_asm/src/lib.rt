//! `asm`: a source is assembled, and the executable that it stands for is stored.
#![tactic(auto)]

mod asm;
mod law;

pub use asm::asm_command;
pub use law::asm_command_law;
