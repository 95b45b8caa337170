//! How far a cold block goes.

/// The most instructions that a cold block has. One that has so many and no transfer ends there.
pub const MAX_COPIED: u8 = 64;

/// What ends a cold block.
#[derive(Clone, Copy, Debug, PartialEq, Eq)]
pub enum ColdEnd {
    /// Its last instruction is a transfer: a conditional jump, a jump, a call or a return.
    Transfers,
    /// No instruction stands behind it: bytes that spell none, or the end of all code.
    Unreadable,
    /// It has [`MAX_COPIED`] instructions, and none of them is a transfer.
    Full,
}

/// How far a cold block goes.
#[derive(Clone, Copy, Debug, PartialEq, Eq)]
pub struct ColdCut {
    /// How many instructions it has, 0 to [`MAX_COPIED`].
    pub count: u8,
    /// How many bytes these have together, 0 to 960: each has at most 15.
    pub len: u32,
    /// What ends it.
    pub end: ColdEnd,
    /// The address of the last instruction, or the start where there is none.
    pub last: u32,
}
