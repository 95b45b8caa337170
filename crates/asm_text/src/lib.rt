//! Assembles a source in the notation of the listing (docs/ASSEMBLER.md).
#![tactic(auto)]

mod assembler;
mod errors;
mod labels;
mod laws;
mod limits;
mod rows;

pub use assembler::assemble;
pub use errors::AsmError;
pub use laws::asm_law;
pub use limits::SOURCE_LIMIT;

#[cfg(test)]
mod tests;
