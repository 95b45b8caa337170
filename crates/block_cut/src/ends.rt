//! How far a block goes.

/// The most instructions that a block has. One that has so many and no transfer ends there.
pub const MAX_INSTRUCTIONS: u8 = 64;

/// What ends a block.
#[derive(Clone, Copy, Debug, PartialEq, Eq)]
pub enum End {
    /// Its last instruction is a transfer: a conditional jump, a jump, a call or a return.
    Transfer,
    /// It is one native instruction.
    Island,
    /// A native instruction stands behind it.
    BeforeIsland,
    /// No instruction stands behind it: bytes that spell none, or the end of all code.
    Unreadable,
    /// It has [`MAX_INSTRUCTIONS`] instructions, and none of them is a transfer.
    Full,
}

/// How far a block goes.
#[derive(Clone, Copy, Debug, PartialEq, Eq)]
pub struct Cut {
    /// How many instructions it has, 0 to [`MAX_INSTRUCTIONS`].
    pub count: u8,
    /// How many bytes these have together, 0 to 960: each has at most 15.
    pub len: u32,
    /// What ends it.
    pub end: End,
    /// The address of the last instruction, or the start where there is none.
    pub last: u32,
}
