//! Reads static i386 ELF executables (docs/FILES.md; System V ABI, chapters 4 and 5).
#![tactic(auto)]

mod check;
mod code;
mod error;
mod exe;
mod field;
mod header;
mod limits;
mod load;
mod read;
mod table;

pub use br_word::Perms;
pub use code::{exec_bytes, in_exec};
pub use error::ElfError;
pub use exe::{Bytes, Exe, Reach, Segment, Segments};
pub use limits::{
    GUEST_FILE_LIMIT, GUEST_LOWEST, GUEST_MEMORY_LIMIT, GUEST_SEGMENT_LIMIT, HIGHEST_END,
    ORIGINAL_FILE_LIMIT, ORIGINAL_LOWEST, ORIGINAL_MEMORY_LIMIT, ORIGINAL_SEGMENT_LIMIT,
};
pub use read::read_elf;

#[cfg(test)]
mod tests;
