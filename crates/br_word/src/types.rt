//! The types that memory, state and instructions share.

/// The size of an operand (SDM volume 1, 3.6.1 and 4.1).
#[derive(Clone, Copy, Debug, PartialEq, Eq)]
pub enum Width {
    /// A byte: 8 bits, numbers below 2^8.
    B8,
    /// A word: 16 bits, numbers below 2^16.
    B16,
    /// A doubleword: 32 bits, numbers below 2^32.
    B32,
}

/// The shifts (SDM volume 2, SAL/SAR/SHL/SHR).
#[derive(Clone, Copy, Debug, PartialEq, Eq)]
pub enum ShiftOp {
    /// To the left, zeros coming in below: SHL, and SAL, which is the same.
    Shl,
    /// To the right, zeros coming in above: SHR.
    Shr,
    /// To the right, copies of the sign bit coming in above: SAR.
    Sar,
}

/// The status flags that are modelled (SDM volume 1, 3.4.3.1). The same type holds one mark for each
/// flag, which says whether it is defined.
#[derive(Clone, Copy, Debug, PartialEq, Eq)]
pub struct Flags {
    /// The carry flag, bit 0 of EFLAGS: a carry or a borrow out of the highest bit.
    pub cf: bool,
    /// The parity flag, bit 2: the low byte of the result has an even number of ones.
    pub pf: bool,
    /// The zero flag, bit 6: the result is 0.
    pub zf: bool,
    /// The sign flag, bit 7: the highest bit of the result.
    pub sf: bool,
    /// The overflow flag, bit 11: the signed result does not fit the width.
    pub of: bool,
}

/// The permissions of a segment or a region of memory (ELF, program header, p_flags).
#[derive(Clone, Copy, Debug, PartialEq, Eq)]
pub struct Perms {
    /// It may be read: PF_R.
    pub read: bool,
    /// It may be written: PF_W.
    pub write: bool,
    /// It may be executed: PF_X.
    pub exec: bool,
}

/// Why a step of the guest stops it.
#[derive(Clone, Copy, Debug, PartialEq, Eq)]
pub enum GuestFault {
    /// An access that memory does not allow, with its first address (SDM volume 3, page-fault exception).
    Access(u32),
    /// Bytes that spell no instruction, with their address (SDM volume 3, invalid opcode exception).
    Illegal(u32),
    /// A division by zero or with too large a quotient, with the address of the instruction
    /// (SDM volume 3, divide error exception).
    Divide(u32),
}
