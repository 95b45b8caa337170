//! First and second bytes of opcodes (SDM volume 2, appendix A).

ghost use Rattle.std.specs.Prelude.{◌≡◌};
ghost use Rattle.ia_inst.specs.Opcodes.{alu_of, low_single_of, high_single_of, single_of, opcode_of, second_of};

use ia_inst::{Binary, By, Constant, Inst, Opcode, Rm, Second, Simple, Src};

fn whole(inst: Inst) -> Option<Opcode>
    ensures { result ≡ Some (Opcode.Simple (Simple.Whole inst)) }
{
    Some(Opcode::Simple(Simple::Whole(inst)))
}

fn binary(op: Binary, byte: bool) -> Option<Opcode>
    ensures { result ≡ Some (Opcode.Binary op byte) }
{
    Some(Opcode::Binary { op, byte })
}

fn constant(op: Constant, byte: bool) -> Option<Opcode>
    ensures { result ≡ Some (Opcode.Constant op byte) }
{
    Some(Opcode::Constant { op, byte })
}

fn shift(by: By, byte: bool) -> Option<Opcode>
    ensures { result ≡ Some (Opcode.Shift by byte) }
{
    Some(Opcode::Shift { by, byte })
}

fn absolute(store: bool, byte: bool) -> Option<Opcode>
    ensures { result ≡ Some (Opcode.Absolute store byte) }
{
    Some(Opcode::Absolute { store, byte })
}

/// The low three bits of an ALU opcode with an operand or an immediate.
fn alu(op: u8, low: u8) -> Option<Opcode>
    ensures { result ≡ alu_of op low }
{
    match low {
        0 => binary(Binary::AluTo(op), true),
        1 => binary(Binary::AluTo(op), false),
        2 => binary(Binary::AluFrom(op), true),
        3 => binary(Binary::AluFrom(op), false),
        4 => constant(Constant::Alu(op), true),
        5 => constant(Constant::Alu(op), false),
        _ => None,
    }
}

/// The opcodes below A0 that hold no register.
fn low_single(byte: u8) -> Option<Opcode>
    ensures { result ≡ low_single_of byte }
{
    match byte {
        0x68 => Some(Opcode::Simple(Simple::PushWord)),
        0x69 => Some(Opcode::Simple(Simple::Multiply { byte: false })),
        0x6a => Some(Opcode::Simple(Simple::PushByte)),
        0x6b => Some(Opcode::Simple(Simple::Multiply { byte: true })),
        0x80 => Some(Opcode::Simple(Simple::AluByte)),
        0x81 => Some(Opcode::AluConstant { extended: false }),
        0x83 => Some(Opcode::AluConstant { extended: true }),
        0x84 => binary(Binary::Test, true),
        0x85 => binary(Binary::Test, false),
        0x86 => binary(Binary::Xchg, true),
        0x87 => binary(Binary::Xchg, false),
        0x88 => binary(Binary::MovTo, true),
        0x89 => binary(Binary::MovTo, false),
        0x8a => binary(Binary::MovFrom, true),
        0x8b => binary(Binary::MovFrom, false),
        0x8d => Some(Opcode::Lea),
        0x8f => Some(Opcode::Simple(Simple::PopOperand)),
        0x98 => whole(Inst::Cwde),
        0x99 => whole(Inst::Cdq),
        0x9e => whole(Inst::Sahf),
        _ => None,
    }
}

/// The opcodes from A0 on that hold no register.
fn high_single(byte: u8) -> Option<Opcode>
    ensures { result ≡ high_single_of byte }
{
    match byte {
        0xa0 => absolute(false, true),
        0xa1 => absolute(false, false),
        0xa2 => absolute(true, true),
        0xa3 => absolute(true, false),
        0xa4 => Some(Opcode::Movs { byte: true }),
        0xa5 => Some(Opcode::Movs { byte: false }),
        0xa8 => constant(Constant::Test, true),
        0xa9 => constant(Constant::Test, false),
        0xaa => Some(Opcode::Stos { byte: true }),
        0xab => Some(Opcode::Stos { byte: false }),
        0xc0 => shift(By::Byte, true),
        0xc1 => shift(By::Byte, false),
        0xc2 => Some(Opcode::Simple(Simple::RetPop)),
        0xc3 => Some(Opcode::Ret),
        0xc6 => Some(Opcode::MovConstant { byte: true }),
        0xc7 => Some(Opcode::MovConstant { byte: false }),
        0xc9 => whole(Inst::Leave),
        0xcd => Some(Opcode::Simple(Simple::Interrupt)),
        0xd0 => shift(By::One, true),
        0xd1 => shift(By::One, false),
        0xd2 => shift(By::Cl, true),
        0xd3 => shift(By::Cl, false),
        0xe8 => Some(Opcode::Simple(Simple::Call)),
        0xe9 => Some(Opcode::Simple(Simple::Jmp)),
        0xeb => Some(Opcode::Simple(Simple::ShortJmp)),
        0xf6 => Some(Opcode::Unary { byte: true }),
        0xf7 => Some(Opcode::Unary { byte: false }),
        0xfc => whole(Inst::Cld),
        0xfd => whole(Inst::Std),
        0xfe => Some(Opcode::Step { byte: true }),
        0xff => Some(Opcode::Step { byte: false }),
        _ => None,
    }
}

/// The opcodes that hold no register.
fn single(byte: u8) -> Option<Opcode>
    ensures { result ≡ single_of byte }
{
    if byte < 0xa0 {
        low_single(byte)
    } else {
        high_single(byte)
    }
}

/// The opcode that a byte is.
pub fn opcode_from(byte: u8) -> Option<Opcode>
    ensures { result ≡ opcode_of byte }
{
    let low = byte % 8;
    match byte / 8 {
        1 if low == 7 => Some(Opcode::Escape),
        0..=7 => alu(byte / 8, low),
        8 => Some(Opcode::Inc(low)),
        9 => Some(Opcode::Dec(low)),
        10 => Some(Opcode::Simple(Simple::Whole(Inst::Push {
            src: Src::Rm(Rm::Reg(low)),
        }))),
        11 => Some(Opcode::Simple(Simple::Whole(Inst::Pop { dst: Rm::Reg(low) }))),
        14 | 15 => Some(Opcode::Simple(Simple::ShortJcc(byte % 16))),
        18 => {
            if low == 0 {
                Some(Opcode::Nop)
            } else {
                Some(Opcode::Exchange(low))
            }
        }
        22 => constant(Constant::Mov(low), true),
        23 => constant(Constant::Mov(low), false),
        _ => single(byte),
    }
}

/// What the byte behind 0F is.
pub fn second_from(byte: u8) -> Option<Second>
    ensures { result ≡ second_of byte }
{
    match byte / 16 {
        4 => return Some(Second::Cmov(byte % 16)),
        8 => return Some(Second::Jcc(byte % 16)),
        9 => return Some(Second::Setcc(byte % 16)),
        _ => {}
    }
    match byte {
        0x1e => Some(Second::EndBranch),
        0x1f => Some(Second::Hint),
        0xaf => Some(Second::Imul),
        0xb6 => Some(Second::ExtendByte { signed: false }),
        0xb7 => Some(Second::ExtendWord { signed: false }),
        0xbe => Some(Second::ExtendByte { signed: true }),
        0xbf => Some(Second::ExtendWord { signed: true }),
        _ => None,
    }
}
