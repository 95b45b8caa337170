//! The limit of the assembler.

/// The most bytes of a source.
pub const SOURCE_LIMIT: u32 = 16_777_216;
