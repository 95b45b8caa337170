//! The system calls of a guest, by int 0x80: exit, read, write and brk.
#![tactic(auto)]

mod answers;
mod buffers;
mod calls;
mod taking;

pub use answers::{Called, SysError};
pub use calls::system;

#[cfg(test)]
mod tests;
