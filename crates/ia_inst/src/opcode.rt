//! What an opcode has follow, as a reader from left to right sees it (SDM volume 2, appendix A).
//!
//! `byte` says of an opcode that comes in a pair that it is the first, of 8 bits; the second is of 32
//! bits, and of 16 behind the prefix 66.

use crate::inst::Inst;

/// An instruction over the operand and the register of a ModRM byte.
#[derive(Clone, Copy, Debug)]
pub enum Binary {
    /// The ALU instruction of this number, 0 to 7, from the register to the operand.
    AluTo(u8),
    /// The ALU instruction of this number, 0 to 7, from the operand to the register.
    AluFrom(u8),
    /// TEST of the operand and the register.
    Test,
    /// MOV from the register to the operand.
    MovTo,
    /// MOV from the operand to the register.
    MovFrom,
    /// XCHG of the operand and the register.
    Xchg,
}

/// An instruction over a register and an immediate.
#[derive(Clone, Copy, Debug)]
pub enum Constant {
    /// The ALU instruction of this number, 0 to 7, to register 0.
    Alu(u8),
    /// TEST of register 0.
    Test,
    /// MOV to this register, below 8.
    Mov(u8),
}

/// An opcode before which no prefix may stand.
#[derive(Clone, Copy, Debug)]
pub enum Simple {
    /// The opcode is the whole instruction.
    Whole(Inst),
    /// 6A: PUSH of a sign extended byte.
    PushByte,
    /// 68: PUSH of four bytes.
    PushWord,
    /// 8F: POP of an operand.
    PopOperand,
    /// 69 and 6B: IMUL by an immediate.
    Multiply {
        /// 6B, by a sign extended byte.
        byte: bool,
    },
    /// 80: an ALU instruction of an operand of 8 bits and an immediate.
    AluByte,
    /// 70 to 7F: Jcc of this condition, below 16, with a byte for the distance.
    ShortJcc(u8),
    /// E9: JMP with four bytes for the distance.
    Jmp,
    /// EB: JMP with a byte for the distance.
    ShortJmp,
    /// E8: CALL with four bytes for the distance.
    Call,
    /// C2: RET that pops the two bytes' number of bytes more.
    RetPop,
    /// CD: INT, of 80 alone.
    Interrupt,
}

/// How far a shift or a rotation goes.
#[derive(Clone, Copy, Debug)]
pub enum By {
    /// D0 and D1: by 1.
    One,
    /// C0 and C1: by the byte behind the operand.
    Byte,
    /// D2 and D3: by cl.
    Cl,
}

/// A first byte of an opcode. `byte` says that it is the first of its pair.
#[derive(Clone, Copy, Debug)]
pub enum Opcode {
    /// One before which no prefix may stand.
    Simple(Simple),
    /// One with the operand and the register of a ModRM byte.
    Binary {
        /// What it does.
        op: Binary,
        /// It is the first of its pair.
        byte: bool,
    },
    /// One with a register and an immediate.
    Constant {
        /// What it does.
        op: Constant,
        /// It is the first of its pair.
        byte: bool,
    },
    /// An ALU instruction with an immediate, which is a sign extended byte or whole.
    AluConstant {
        /// 83, with a sign extended byte; else 81.
        extended: bool,
    },
    /// C6 and C7: MOV of an immediate to an operand.
    MovConstant {
        /// It is C6.
        byte: bool,
    },
    /// A0 to A3: MOV between register 0 and an address of four bytes.
    Absolute {
        /// It goes to the address.
        store: bool,
        /// It is the first of its pair.
        byte: bool,
    },
    /// 8D: LEA.
    Lea,
    /// 91 to 97: XCHG of this register, 1 to 7, and register 0.
    Exchange(u8),
    /// 40 to 47: INC of this register, below 8.
    Inc(u8),
    /// 48 to 4F: DEC of this register, below 8.
    Dec(u8),
    /// F6 and F7: TEST, NOT, NEG, MUL, IMUL, DIV and IDIV, by the reg field.
    Unary {
        /// It is F6.
        byte: bool,
    },
    /// FE and FF: INC, DEC, CALL, JMP and PUSH, by the reg field.
    Step {
        /// It is FE.
        byte: bool,
    },
    /// C0, C1 and D0 to D3: shifts and rotations, by the reg field.
    Shift {
        /// How far.
        by: By,
        /// It is the first of its pair.
        byte: bool,
    },
    /// C3: RET.
    Ret,
    /// A4 and A5: MOVS.
    Movs {
        /// It is A4.
        byte: bool,
    },
    /// AA and AB: STOS.
    Stos {
        /// It is AA.
        byte: bool,
    },
    /// 90: NOP.
    Nop,
    /// 0F, before the second byte of an opcode.
    Escape,
}

/// A second byte of an opcode, behind 0F.
#[derive(Clone, Copy, Debug)]
pub enum Second {
    /// 40 to 4F: CMOVcc of this condition, below 16.
    Cmov(u8),
    /// 80 to 8F: Jcc of this condition, below 16, with four bytes for the distance.
    Jcc(u8),
    /// 90 to 9F: SETcc of this condition, below 16.
    Setcc(u8),
    /// AF: IMUL of a register by an operand.
    Imul,
    /// B6 and BE: MOVZX and MOVSX from 8 bits.
    ExtendByte {
        /// It is BE.
        signed: bool,
    },
    /// B7 and BF: MOVZX and MOVSX from 16 bits.
    ExtendWord {
        /// It is BF.
        signed: bool,
    },
    /// 1F: NOP with an operand.
    Hint,
    /// 1E, of ENDBR32 alone, which is F3 0F 1E FB.
    EndBranch,
}
