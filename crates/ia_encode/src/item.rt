//! What code is made of: instructions, bytes, jumps and labels.
use ia_inst::Inst;

/// Where a jump leads.
#[derive(Clone, Copy, Debug, PartialEq, Eq)]
pub enum Dest {
    /// To the code of the block with this start, an address of the original.
    Block(u32),
    /// To this address of the original.
    Original(u32),
    /// To the label with this name in the same piece.
    Label(u32),
}

/// An item of a piece of code.
#[derive(Clone, Copy, Debug, PartialEq, Eq)]
pub enum Item {
    /// An instruction, in its canonical encoding.
    Inst(Inst),
    /// A byte of an instruction that is copied.
    Byte(u8),
    /// A jump with a distance of 32 bits (SDM volume 2, JMP and Jcc), which is filled in when its destination is known.
    Jump {
        /// The condition, below 16, or none (SDM volume 1, appendix B).
        cond: Option<u8>,
        /// The destination.
        to: Dest,
    },
    /// A name for the address of what follows; it has no bytes.
    Label(u32),
}
