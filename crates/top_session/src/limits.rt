//! Limits of a script, and the numbers of its refusals.

/// The most bytes of a line, without its LF.
pub const LINE_LIMIT: u32 = 4200;

/// The most lines of a script.
pub const LINE_COUNT_LIMIT: u32 = 1048576;

/// The number of the refusal of a line that has none of the forms of an order, or is too long for one.
pub const BAD_LINE: u32 = 31;

/// The number of the refusal of a number that no live trace has.
pub const NOT_LIVE: u32 = 32;
