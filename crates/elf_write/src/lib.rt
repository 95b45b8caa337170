//! Writes static i386 ELF executables (docs/FILES.md; System V ABI, chapters 4 and 5).
#![tactic(auto)]

mod file;
mod law;
mod number;
mod piece;

pub use file::{write_elf, write_joined};
pub use law::read_back;

#[cfg(test)]
mod tests;
