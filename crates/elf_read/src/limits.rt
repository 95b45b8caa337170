//! The limits of the files that are read (docs/FILES.md).

/// The most bytes of a file that is fetched as an original.
pub const ORIGINAL_FILE_LIMIT: u32 = 16777216;

/// The most bytes of a file that is read, and of one that is fetched as a guest.
pub const GUEST_FILE_LIMIT: u32 = 268435456;

/// The most bytes that the segments of an original have in memory, all together.
pub const ORIGINAL_MEMORY_LIMIT: u32 = 67108864;

/// The most bytes that the segments of a guest have in memory, all together.
pub const GUEST_MEMORY_LIMIT: u32 = 268435456;

/// The most segments of an original.
pub const ORIGINAL_SEGMENT_LIMIT: u32 = 64;

/// The most segments of a guest: those of an original, and two before them.
pub const GUEST_SEGMENT_LIMIT: u32 = 66;

/// The lowest address of a segment of an original.
pub const ORIGINAL_LOWEST: u32 = 0x08000000;

/// The lowest address of a segment of a guest.
pub const GUEST_LOWEST: u32 = 0x01000000;

/// The address at which the last segment ends at the latest.
pub const HIGHEST_END: u32 = 0xA0000000;
