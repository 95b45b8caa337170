//! Blocks in single assignment form: names of values, operators, lines and exits.

use crate::lines::Lines;
use crate::lists::{KnownExits, Marks};
use br_word::Width;

/// How many virtual registers a block has: 0 to 7 are eax, ecx, edx, ebx, esp, ebp, esi and edi, then come
/// CF, PF, ZF, SF, OF and DF.
pub const REGISTERS: usize = 14;

/// The name of a number of 32 bits.
#[derive(Clone, Copy)]
pub enum Val {
    /// What the virtual register with this number, below `REGISTERS`, holds before the block.
    Param(u8),
    /// The result of the line with this index.
    Line(u32),
    /// The number itself.
    Num(u32),
}

/// An operator of two numbers of 32 bits.
#[derive(Clone, Copy)]
pub enum BinOp {
    /// The sum modulo 2^32.
    Add,
    /// The difference modulo 2^32.
    Sub,
    /// The bits that both have.
    And,
    /// The bits that one has.
    Or,
    /// The bits in which the two differ.
    Xor,
    /// The product modulo 2^32.
    Mul,
    /// 1 where the product of the two as signed numbers does not fit 32 bits, else 0.
    MulOver,
    /// The first shifted left by the second modulo 32.
    Shl,
    /// The first shifted right by the second modulo 32, zeros coming in.
    Shr,
    /// The first as a signed number, shifted right by the second modulo 32.
    Sar,
    /// 1 where the two are equal, else 0.
    Eq,
    /// 1 where the first is below the second as unsigned numbers, else 0.
    Ult,
}

/// An operator of one number of 32 bits.
#[derive(Clone, Copy)]
pub enum OneOp {
    /// 1 where the low byte has an even number of ones, else 0 (SDM volume 1, 3.4.3.1).
    Parity,
    /// The low byte, sign extended.
    Sext8,
    /// The low two bytes, sign extended.
    Sext16,
}

/// A line of a block. All but `Store` and `Gone` have a result.
#[derive(Clone, Copy)]
pub enum Line {
    /// An operator of two.
    Bin {
        /// The operator.
        op: BinOp,
        /// The first number.
        a: Val,
        /// The second number.
        b: Val,
    },
    /// An operator of one.
    One {
        /// The operator.
        op: OneOp,
        /// The number.
        a: Val,
    },
    /// A choice of two.
    Select {
        /// The test.
        c: Val,
        /// The result where the test is not 0.
        a: Val,
        /// The result where the test is 0.
        b: Val,
    },
    /// What memory holds, extended with zeros.
    Load {
        /// How many bits are read.
        w: Width,
        /// The address of the lowest byte.
        at: Val,
    },
    /// Memory gets the low bits of a number.
    Store {
        /// How many bits are written.
        w: Width,
        /// The address of the lowest byte.
        at: Val,
        /// The number.
        a: Val,
    },
    /// Nothing: what stands for a line that was taken away.
    Gone,
}

/// Where a block goes on.
#[derive(Clone, Copy)]
pub enum Exit {
    /// To an address.
    Jump(u32),
    /// To one of two addresses.
    Cond {
        /// The test.
        test: Val,
        /// The address where the test is not 0.
        taken: u32,
        /// The address where the test is 0.
        next: u32,
    },
    /// To the address that the number is.
    Way(Val),
    /// The block is one native instruction.
    Island {
        /// How many bytes it has, at most 15.
        len: u8,
    },
}

/// A block: what it does from its start on, as lines over what the virtual registers hold before it.
#[derive(Drop)]
pub struct Block {
    /// Its address in the original program.
    pub start: u32,
    /// Its lines, in the order in which they are done.
    pub lines: Lines,
    /// What each virtual register holds after the lines.
    pub outs: [Val; REGISTERS],
    /// Where it goes on.
    pub exit: Exit,
}

/// What a fragment of recovered code depends on, besides the original program.
#[derive(Drop)]
pub struct BlockKey {
    /// The start of its block.
    pub start: u32,
    /// The known exits in ascending order, each with the set of virtual registers that are live there: bit v
    /// of it is virtual register v.
    pub exits: KnownExits,
}

/// The two parts of a block's lines, each as one truth value for each line.
#[derive(Drop)]
pub struct Split {
    /// The lines that are done on every way out.
    pub body: Marks,
    /// The lines that are done only where the block is left by a side exit.
    pub sunk: Marks,
}
