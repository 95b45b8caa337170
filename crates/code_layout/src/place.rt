//! Where the parts of a written file lie.

/// The address at which recovered code begins, and at which the written file begins to run.
pub const CODE_START: u32 = 0x0100_0000;

/// The address of the private segment.
pub const PRIVATE_START: u32 = 0x0700_0000;

/// How many bytes the private segment has.
pub const PRIVATE_SIZE: u32 = 65536;

/// The most bytes of recovered code: it ends at [`PRIVATE_START`] at the latest.
pub const MAX_CODE: u32 = 100663296;
