//! Pieces of the input.

/// The most bytes that are taken of the input at once, and the most that a script may be taken ahead of its lines.
pub const PIECE_LENGTH: u32 = 4096;
