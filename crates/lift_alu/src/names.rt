//! The names that a row gives to its values.

/// Where the operand dst lies.
pub const AT_DST: u8 = 0;

/// Where the operand src lies.
pub const AT_SRC: u8 = 1;

/// The first operand.
pub const A: u8 = 2;

/// The second operand.
pub const B: u8 = 3;

/// The result.
pub const R: u8 = 4;

/// The sum before a carry, or what is shifted.
pub const S: u8 = 5;

/// The count of a shift, or the old carry.
pub const N: u8 = 6;

/// Whether the count is 0.
pub const Z: u8 = 7;

/// The new carry.
pub const K: u8 = 8;

/// The test or the target of a transfer.
pub const GOAL: u8 = 9;
