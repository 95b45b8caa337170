//! Instructions of the guest: the subset of the SDM, volume 2, that is modelled.
//!
//! Registers are numbers from 0 to 7. At 32 and 16 bits they are eax, ecx, edx, ebx, esp, ebp, esi and
//! edi or their low halves; at 8 bits al, cl, dl, bl, ah, ch, dh and bh (SDM volume 2, 2.1.5).
//! `valid` says which values of the fields have an encoding.

use br_word::{ShiftOp, Width};

/// An address: the sum of a register, a register times a scale, and a number, modulo 2^32
/// (SDM volume 1, 3.7.5).
#[derive(Clone, Copy, Debug, PartialEq, Eq)]
pub struct Addr {
    /// The base register, below 8.
    pub base: Option<u8>,
    /// The index register, below 8 and not 4, and its scale: 1, 2, 4 or 8.
    pub index: Option<(u8, u8)>,
    /// The displacement modulo 2^32, sign extended where its encoding is a byte.
    pub disp: u32,
}

/// A register or a location in memory, as a ModRM byte gives it (SDM volume 2, 2.1.5).
#[derive(Clone, Copy, Debug, PartialEq, Eq)]
pub enum Rm {
    /// A register of the operand's width, below 8.
    Reg(u8),
    /// The bytes at an address, as many as the operand's width has.
    Mem(Addr),
}

/// What an instruction reads.
#[derive(Clone, Copy, Debug, PartialEq, Eq)]
pub enum Src {
    /// A register or a location in memory.
    Rm(Rm),
    /// An immediate, below 2 to the operand's width; sign extended where its encoding is a byte.
    Imm(u32),
}

/// By how much a shift or a rotation goes, modulo 32 (SDM volume 2, SAL/SAR/SHL/SHR).
#[derive(Clone, Copy, Debug, PartialEq, Eq)]
pub enum Count {
    /// A number from 0 to 255.
    Imm(u8),
    /// The number in cl.
    Cl,
}

/// An instruction. `w` is the width of its operands, `dst` what it writes (and reads, but for moves),
/// `src` what it reads; conditions are numbered 0 to 15 (SDM volume 1, appendix B); `rel` is counted
/// from the end of the instruction, modulo 2^32.
#[derive(Clone, Copy, Debug, PartialEq, Eq)]
pub enum Inst {
    /// ADD, OR, ADC, SBB, AND, SUB, XOR, CMP (SDM volume 2, at these names).
    Alu {
        /// 0 to 7, in the order above.
        op: u8,
        /// The width of both operands.
        w: Width,
        /// The first operand, which CMP does not write.
        dst: Rm,
        /// The second operand, not in memory where the first is.
        src: Src,
    },
    /// TEST: AND without the result.
    Test {
        /// The width of both operands.
        w: Width,
        /// The first operand.
        dst: Rm,
        /// The second operand, a register or an immediate.
        src: Src,
    },
    /// MOV.
    Mov {
        /// The width of both operands.
        w: Width,
        /// What is written.
        dst: Rm,
        /// What is read, not in memory where `dst` is.
        src: Src,
    },
    /// LEA.
    Lea {
        /// 16 or 32 bits.
        w: Width,
        /// The register that is written, below 8.
        dst: u8,
        /// The address, whose low bits are the result.
        addr: Addr,
    },
    /// XCHG.
    Xchg {
        /// The width of both operands.
        w: Width,
        /// A register or a location in memory.
        dst: Rm,
        /// The register that it is exchanged with, below 8.
        reg: u8,
    },
    /// INC, which keeps CF.
    Inc {
        /// The width of the operand.
        w: Width,
        /// The operand.
        dst: Rm,
    },
    /// DEC, which keeps CF.
    Dec {
        /// The width of the operand.
        w: Width,
        /// The operand.
        dst: Rm,
    },
    /// NOT.
    Not {
        /// The width of the operand.
        w: Width,
        /// The operand.
        dst: Rm,
    },
    /// NEG.
    Neg {
        /// The width of the operand.
        w: Width,
        /// The operand.
        dst: Rm,
    },
    /// PUSH, of 32 bits.
    Push {
        /// What is pushed.
        src: Src,
    },
    /// POP, of 32 bits.
    Pop {
        /// What is written, its address computed with the new esp.
        dst: Rm,
    },
    /// MUL, IMUL, DIV, IDIV with edx:eax, of 32 bits. A native instruction.
    MulDiv {
        /// 4 to 7, in the order above.
        op: u8,
        /// The factor or the divisor.
        src: Rm,
    },
    /// IMUL with two or three operands, of 32 bits.
    Imul {
        /// The register that is written, below 8.
        dst: u8,
        /// A factor.
        src: Rm,
        /// The other factor modulo 2^32; without it, `dst` itself.
        by: Option<u32>,
    },
    /// SHL, SHR, SAR.
    Shift {
        /// Which of them.
        op: ShiftOp,
        /// The width of the operand.
        w: Width,
        /// The operand.
        dst: Rm,
        /// By how many bits.
        count: Count,
    },
    /// ROL, ROR, of 32 bits (SDM volume 2, RCL/RCR/ROL/ROR). A native instruction.
    Rotate {
        /// ROR where it is set.
        right: bool,
        /// The operand.
        dst: Rm,
        /// By how many bits.
        count: Count,
    },
    /// CWDE: ax, sign extended to eax.
    Cwde,
    /// CDQ: the sign of eax in all bits of edx.
    Cdq,
    /// MOVZX, MOVSX.
    Extend {
        /// MOVSX where it is set.
        signed: bool,
        /// The width that is read: 8 or 16 bits.
        from: Width,
        /// The width that is written, the greater one: 16 or 32 bits.
        to: Width,
        /// The register that is written, below 8.
        dst: u8,
        /// What is read.
        src: Rm,
    },
    /// SETcc, of 8 bits.
    Setcc {
        /// The condition, below 16.
        cond: u8,
        /// What becomes 1 where it holds, and 0 elsewhere.
        dst: Rm,
    },
    /// CMOVcc, of 32 bits.
    Cmov {
        /// The condition, below 16.
        cond: u8,
        /// The register that is written where it holds, below 8.
        dst: u8,
        /// What is read in either case.
        src: Rm,
    },
    /// Jcc. A transfer, like the five that follow.
    Jcc {
        /// The condition, below 16.
        cond: u8,
        /// The distance to the target.
        rel: u32,
    },
    /// JMP to a target that stands in the instruction.
    Jmp {
        /// The distance to the target.
        rel: u32,
    },
    /// JMP to a target that is read.
    JmpRm {
        /// What holds the target.
        target: Rm,
    },
    /// CALL of a target that stands in the instruction.
    Call {
        /// The distance to the target.
        rel: u32,
    },
    /// CALL of a target that is read.
    CallRm {
        /// What holds the target.
        target: Rm,
    },
    /// RET.
    Ret {
        /// How many bytes above the return address are popped too.
        pop: u16,
    },
    /// LEAVE.
    Leave,
    /// MOVSB, MOVSW, MOVSD. A native instruction.
    Movs {
        /// How much is moved at once.
        w: Width,
        /// Whether REP repeats it.
        rep: bool,
    },
    /// STOSB, STOSW, STOSD. A native instruction.
    Stos {
        /// How much is stored at once.
        w: Width,
        /// Whether REP repeats it.
        rep: bool,
    },
    /// CLD.
    Cld,
    /// STD.
    Std,
    /// SAHF. A native instruction.
    Sahf,
    /// INT 80h, the system call of the System V ABI's i386 programs. A native instruction.
    Int80,
    /// NOP in each of its forms, PAUSE and ENDBR32.
    Nop,
}

/// How an instruction goes on into the written program.
#[derive(Clone, Copy, Debug, PartialEq, Eq)]
pub enum Kind {
    /// It is lifted, and goes on to the next instruction.
    Plain,
    /// A native instruction: it is run as it stands.
    Island,
    /// It decides what comes next: Jcc, JMP, CALL and RET.
    Transfer,
}
