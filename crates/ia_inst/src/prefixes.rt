//! What may stand before an opcode, as a reader from left to right sees it (SDM volume 2, 2.1.1).

/// A byte that may stand before an opcode.
#[derive(Clone, Copy, Debug, PartialEq, Eq)]
pub enum Prefix {
    /// 66, the operand-size prefix.
    Size,
    /// F3, REP.
    Repeat,
    /// 2E, the cs segment prefix, which compilers use as padding.
    Code,
    /// 3E, the notrack prefix of indirect transfers.
    Branch,
}

/// What stands before an opcode.
#[derive(Clone, Copy, Debug, PartialEq, Eq)]
pub enum Prefixes {
    /// Nothing.
    Bare,
    /// One 66.
    Size,
    /// One F3.
    Repeat,
    /// One 66 and one F3, in either order.
    SizeRepeat,
    /// One 3E.
    Branch,
    /// Any other list of 66 and 2E.
    Padding {
        /// There is a 66.
        wide: bool,
    },
    /// What stands before no opcode.
    Other,
}
