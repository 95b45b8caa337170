//! Spellings of instructions, one row after another.

ghost use Rattle.std.specs.Prelude.{◌≡◌, ℕ, ◌+◌, ◌<◌, ◌≤◌, List, [], ◌∷◌, ◌++◌, length, take, IsTrue};
ghost use Rattle.ia_encode.specs.Written.{written};
ghost use Rattle.ia_inst.specs.Spells.{size, Spells};
ghost use Rattle.ia_inst.specs.Instructions.{decode_of};
ghost use Rattle.ia_inst.specs.Canonical.{rm_valid, address_valid, imm_valid, move_valid, test_valid, is_long, source_valid, count_valid, by_valid, widens, valid_of, fits_extended, operand_bytes, alu_bytes, test_bytes, mov_bytes, step_bytes, push_bytes, pop_bytes, imul_bytes, shift_reg, shift_bytes, rotate_reg, rotate_bytes, extend_bytes, string_bytes, canonical};

use crate::code::{Code, fits_signed_byte};
use ia_inst::{Addr, Count, Inst, Rm, ShiftOp, Src, Width, canonical_spelling};

/// Whether an immediate of 16 or 32 bits is a sign extended byte.
fn fits_sign_extended(w: Width, n: u32) -> bool
    ensures { result ≡ fits_extended w n }
{
    match w {
        Width::B8 => false,
        Width::B16 => n < 0x80 || 0xff7f < n,
        Width::B32 => fits_signed_byte(n),
    }
}

#[inline(never)]
fn alu_constant(op: u8, w: Width, dst: &Rm, n: u32, into: &mut Code)
    requires empty { written into.old ≡ [] }
    requires start { into.old.length ≡ 0 }
    requires op { op < 8 }
    requires dst { IsTrue (rm_valid dst.now) }
    requires fits { IsTrue (imm_valid w n) }
    ensures written { written into.new ≡ alu_bytes op w dst.now (Src.Imm n) }
    ensures short { into.new.length ≤ 15 }
{
    match w {
        Width::B8 => {
            into.byte(0x80);
            into.operand(op, dst);
            into.immediate(w, n);
        }
        Width::B16 | Width::B32 => {
            into.size(w);
            if fits_sign_extended(w, n) {
                into.byte(0x83);
                into.operand(op, dst);
                into.byte((n % 256) as u8);
            } else {
                into.byte(0x81);
                into.operand(op, dst);
                into.immediate(w, n);
            }
        }
    }
}

#[inline(never)]
fn alu(op: u8, w: Width, dst: &Rm, src: &Src, into: &mut Code)
    requires empty { written into.old ≡ [] }
    requires start { into.old.length ≡ 0 }
    requires op { op < 8 }
    requires valid { IsTrue (move_valid w dst.now src.now) }
    ensures written { written into.new ≡ alu_bytes op w dst.now src.now }
    ensures short { into.new.length ≤ 15 }
{
    match (dst, src) {
        (_, Src::Imm(n)) => alu_constant(op, w, dst, *n, into),
        (_, Src::Rm(Rm::Reg(reg))) => {
            into.pair(w, 8 * op);
            into.operand(*reg, dst);
        }
        (Rm::Reg(reg), Src::Rm(memory)) => {
            into.pair(w, 8 * op + 2);
            into.operand(*reg, memory);
        }
        (Rm::Mem(_), Src::Rm(Rm::Mem(_))) => {}
    }
}

#[inline(never)]
fn test(w: Width, dst: &Rm, src: &Src, into: &mut Code)
    requires empty { written into.old ≡ [] }
    requires start { into.old.length ≡ 0 }
    requires valid { IsTrue (test_valid w dst.now src.now) }
    ensures written { written into.new ≡ test_bytes w dst.now src.now }
    ensures short { into.new.length ≤ 15 }
{
    match src {
        Src::Rm(Rm::Reg(reg)) => {
            into.pair(w, 0x84);
            into.operand(*reg, dst);
        }
        Src::Rm(Rm::Mem(_)) => {}
        Src::Imm(n) => {
            into.pair(w, 0xf6);
            into.operand(0, dst);
            into.immediate(w, *n);
        }
    }
}

#[inline(never)]
fn mov(w: Width, dst: &Rm, src: &Src, into: &mut Code)
    requires empty { written into.old ≡ [] }
    requires start { into.old.length ≡ 0 }
    requires valid { IsTrue (move_valid w dst.now src.now) }
    ensures written { written into.new ≡ mov_bytes w dst.now src.now }
    ensures short { into.new.length ≤ 15 }
{
    match (dst, src) {
        (_, Src::Rm(Rm::Reg(reg))) => {
            into.pair(w, 0x88);
            into.operand(*reg, dst);
        }
        (Rm::Reg(reg), Src::Rm(memory)) => {
            into.pair(w, 0x8a);
            into.operand(*reg, memory);
        }
        (Rm::Mem(_), Src::Rm(Rm::Mem(_))) => {}
        (Rm::Reg(reg), Src::Imm(n)) => match w {
            Width::B8 => {
                into.byte(0xb0 + *reg);
                into.immediate(w, *n);
            }
            Width::B16 | Width::B32 => {
                into.size(w);
                into.byte(0xb8 + *reg);
                into.immediate(w, *n);
            }
        },
        (Rm::Mem(_), Src::Imm(n)) => {
            into.pair(w, 0xc6);
            into.operand(0, dst);
            into.immediate(w, *n);
        }
    }
}

/// Rows of one byte with a register, and behind FE and FF.
#[inline(never)]
fn step(first: u8, reg: u8, w: Width, dst: &Rm, into: &mut Code)
    requires empty { written into.old ≡ [] }
    requires start { into.old.length ≡ 0 }
    requires first { first < 128 }
    requires reg { reg < 8 }
    requires valid { IsTrue (rm_valid dst.now) }
    ensures written { written into.new ≡ step_bytes first reg w dst.now }
    ensures short { into.new.length ≤ 15 }
{
    match (w, dst) {
        (Width::B16 | Width::B32, Rm::Reg(register)) => {
            into.size(w);
            into.byte(first + *register);
        }
        _ => {
            into.pair(w, 0xfe);
            into.operand(reg, dst);
        }
    }
}

#[inline(never)]
fn push(src: &Src, into: &mut Code)
    requires empty { written into.old ≡ [] }
    requires start { into.old.length ≡ 0 }
    requires valid { IsTrue (source_valid src.now) }
    ensures written { written into.new ≡ push_bytes src.now }
    ensures short { into.new.length ≤ 15 }
{
    match src {
        Src::Rm(Rm::Reg(reg)) => {
            into.byte(0x50 + *reg);
        }
        Src::Rm(memory) => {
            into.byte(0xff);
            into.operand(6, memory);
        }
        Src::Imm(n) => {
            if fits_signed_byte(*n) {
                into.byte(0x6a);
                into.byte((*n % 256) as u8);
            } else {
                into.byte(0x68);
                into.four(*n);
            }
        }
    }
}

#[inline(never)]
fn pop(dst: &Rm, into: &mut Code)
    requires empty { written into.old ≡ [] }
    requires start { into.old.length ≡ 0 }
    requires valid { IsTrue (rm_valid dst.now) }
    ensures written { written into.new ≡ pop_bytes dst.now }
    ensures short { into.new.length ≤ 15 }
{
    match dst {
        Rm::Reg(reg) => {
            into.byte(0x58 + *reg);
        }
        Rm::Mem(_) => {
            into.byte(0x8f);
            into.operand(0, dst);
        }
    }
}

#[inline(never)]
fn imul(dst: u8, src: &Rm, by: Option<u32>, into: &mut Code)
    requires empty { written into.old ≡ [] }
    requires start { into.old.length ≡ 0 }
    requires dst { dst < 8 }
    requires src { IsTrue (rm_valid src.now) }
    ensures written { written into.new ≡ imul_bytes dst src.now by }
    ensures short { into.new.length ≤ 15 }
{
    match by {
        None => {
            into.byte(0x0f);
            into.byte(0xaf);
            into.operand(dst, src);
        }
        Some(n) => {
            if fits_signed_byte(n) {
                into.byte(0x6b);
                into.operand(dst, src);
                into.byte((n % 256) as u8);
            } else {
                into.byte(0x69);
                into.operand(dst, src);
                into.four(n);
            }
        }
    }
}

fn shift_field(op: ShiftOp) -> u8
    ensures field { result ≡ shift_reg op }
    ensures low { result < 8 }
{
    match op {
        ShiftOp::Shl => 4,
        ShiftOp::Shr => 5,
        ShiftOp::Sar => 7,
    }
}

#[inline(never)]
fn shift(op: ShiftOp, w: Width, dst: &Rm, count: Count, into: &mut Code)
    requires empty { written into.old ≡ [] }
    requires start { into.old.length ≡ 0 }
    requires valid { IsTrue (rm_valid dst.now) }
    ensures written { written into.new ≡ shift_bytes op w dst.now count }
    ensures short { into.new.length ≤ 15 }
{
    let field = shift_field(op);
    match count {
        Count::Imm(n) => {
            if n == 1 {
                into.pair(w, 0xd0);
                into.operand(field, dst);
            } else {
                into.pair(w, 0xc0);
                into.operand(field, dst);
                into.byte(n);
            }
        }
        Count::Cl => {
            into.pair(w, 0xd2);
            into.operand(field, dst);
        }
    }
}

fn rotate_field(right: bool) -> u8
    ensures field { result ≡ rotate_reg right }
    ensures low { result < 8 }
{
    if right { 1 } else { 0 }
}

#[inline(never)]
fn rotate(right: bool, dst: &Rm, count: Count, into: &mut Code)
    requires empty { written into.old ≡ [] }
    requires start { into.old.length ≡ 0 }
    requires valid { IsTrue (rm_valid dst.now) }
    ensures written { written into.new ≡ rotate_bytes right dst.now count }
    ensures short { into.new.length ≤ 15 }
{
    let field = rotate_field(right);
    match count {
        Count::Imm(n) => {
            if n == 1 {
                into.byte(0xd1);
                into.operand(field, dst);
            } else {
                into.byte(0xc1);
                into.operand(field, dst);
                into.byte(n);
            }
        }
        Count::Cl => {
            into.byte(0xd3);
            into.operand(field, dst);
        }
    }
}

#[inline(never)]
fn extend(signed: bool, from: Width, to: Width, dst: u8, src: &Rm, into: &mut Code)
    requires empty { written into.old ≡ [] }
    requires start { into.old.length ≡ 0 }
    requires dst { dst < 8 }
    requires src { IsTrue (rm_valid src.now) }
    ensures written { written into.new ≡ extend_bytes signed from to dst src.now }
    ensures short { into.new.length ≤ 15 }
{
    match (signed, from) {
        (false, Width::B8) => {
            into.size(to);
            into.byte(0x0f);
            into.byte(0xb6);
            into.operand(dst, src);
        }
        (true, Width::B8) => {
            into.size(to);
            into.byte(0x0f);
            into.byte(0xbe);
            into.operand(dst, src);
        }
        (false, _) => {
            into.byte(0x0f);
            into.byte(0xb7);
            into.operand(dst, src);
        }
        (true, _) => {
            into.byte(0x0f);
            into.byte(0xbf);
            into.operand(dst, src);
        }
    }
}

#[inline(never)]
fn string(first: u8, w: Width, rep: bool, into: &mut Code)
    requires empty { written into.old ≡ [] }
    requires start { into.old.length ≡ 0 }
    requires valid { first < 255 }
    ensures written { written into.new ≡ string_bytes first w rep }
    ensures short { into.new.length ≤ 15 }
{
    match (w, rep) {
        (Width::B8, false) => {
            into.byte(first);
        }
        (Width::B16, false) => {
            into.byte(0x66);
            into.byte(first + 1);
        }
        (Width::B32, false) => {
            into.byte(first + 1);
        }
        (Width::B8, true) => {
            into.byte(0xf3);
            into.byte(first);
        }
        (Width::B16, true) => {
            into.byte(0x66);
            into.byte(0xf3);
            into.byte(first + 1);
        }
        (Width::B32, true) => {
            into.byte(0xf3);
            into.byte(first + 1);
        }
    }
}

#[inline(never)]
fn lea(w: Width, dst: u8, addr: &Addr, into: &mut Code)
    requires empty { written into.old ≡ [] }
    requires start { into.old.length ≡ 0 }
    requires dst { dst < 8 }
    requires addr { IsTrue (address_valid addr.now) }
    ensures written { written into.new ≡ size w ++ 0x8D ∷ operand_bytes dst (Rm.Mem addr.now) }
    ensures short { into.new.length ≤ 15 }
{
    let memory = Rm::Mem(*addr);
    into.size(w);
    into.byte(0x8d);
    into.operand(dst, &memory);
}

#[inline(never)]
fn cmov(cond: u8, dst: u8, src: &Rm, into: &mut Code)
    requires empty { written into.old ≡ [] }
    requires start { into.old.length ≡ 0 }
    requires cond { cond < 16 }
    requires dst { dst < 8 }
    requires src { IsTrue (rm_valid src.now) }
    ensures written { written into.new ≡ 0x0F ∷ (0x40 + cond) ∷ operand_bytes dst src.now }
    ensures short { into.new.length ≤ 15 }
{
    into.byte(0x0f);
    into.byte(0x40 + cond);
    into.operand(dst, src);
}

#[inline(never)]
fn ret(pop: u16, into: &mut Code)
    requires empty { written into.old ≡ [] }
    requires start { into.old.length ≡ 0 }
    ensures written { written into.new ≡ canonical (Inst.Ret pop) }
    ensures short { into.new.length ≤ 15 }
{
    if pop == 0 {
        into.byte(0xc3);
    } else {
        into.byte(0xc2);
        into.two(pop);
    }
}

#[inline(never)]
fn code(i: &Inst, into: &mut Code)
    requires empty { written into.old ≡ [] }
    requires start { into.old.length ≡ 0 }
    requires valid { IsTrue (valid_of i.now) }
    ensures written { written into.new ≡ canonical i.now }
    ensures short { into.new.length ≤ 15 }
{
    match i {
        Inst::Alu { op, w, dst, src } => alu(*op, *w, dst, src, into),
        Inst::Test { w, dst, src } => test(*w, dst, src, into),
        Inst::Mov { w, dst, src } => mov(*w, dst, src, into),
        Inst::Lea { w, dst, addr } => lea(*w, *dst, addr, into),
        Inst::Xchg { w, dst, reg } => {
            into.pair(*w, 0x86);
            into.operand(*reg, dst);
        }
        Inst::Inc { w, dst } => step(0x40, 0, *w, dst, into),
        Inst::Dec { w, dst } => step(0x48, 1, *w, dst, into),
        Inst::Not { w, dst } => {
            into.pair(*w, 0xf6);
            into.operand(2, dst);
        }
        Inst::Neg { w, dst } => {
            into.pair(*w, 0xf6);
            into.operand(3, dst);
        }
        Inst::Push { src } => push(src, into),
        Inst::Pop { dst } => pop(dst, into),
        Inst::MulDiv { op, src } => {
            into.byte(0xf7);
            into.operand(*op, src);
        }
        Inst::Imul { dst, src, by } => imul(*dst, src, *by, into),
        Inst::Shift { op, w, dst, count } => shift(*op, *w, dst, *count, into),
        Inst::Rotate { right, dst, count } => rotate(*right, dst, *count, into),
        Inst::Cwde => {
            into.byte(0x98);
        }
        Inst::Cdq => {
            into.byte(0x99);
        }
        Inst::Extend {
            signed,
            from,
            to,
            dst,
            src,
        } => extend(*signed, *from, *to, *dst, src, into),
        Inst::Setcc { cond, dst } => {
            into.byte(0x0f);
            into.byte(0x90 + *cond);
            into.operand(0, dst);
        }
        Inst::Cmov { cond, dst, src } => cmov(*cond, *dst, src, into),
        Inst::Jcc { cond, rel } => {
            into.byte(0x0f);
            into.byte(0x80 + *cond);
            into.four(*rel);
        }
        Inst::Jmp { rel } => {
            into.byte(0xe9);
            into.four(*rel);
        }
        Inst::JmpRm { target } => {
            into.byte(0xff);
            into.operand(4, target);
        }
        Inst::Call { rel } => {
            into.byte(0xe8);
            into.four(*rel);
        }
        Inst::CallRm { target } => {
            into.byte(0xff);
            into.operand(2, target);
        }
        Inst::Ret { pop } => ret(*pop, into),
        Inst::Leave => {
            into.byte(0xc9);
        }
        Inst::Movs { w, rep } => string(0xa4, *w, *rep, into),
        Inst::Stos { w, rep } => string(0xaa, *w, *rep, into),
        Inst::Cld => {
            into.byte(0xfc);
        }
        Inst::Std => {
            into.byte(0xfd);
        }
        Inst::Sahf => {
            into.byte(0x9e);
        }
        Inst::Int80 => {
            into.byte(0xcd);
            into.byte(0x80);
        }
        Inst::Nop => {
            into.byte(0x90);
        }
    }
}

/// Writes the canonical spelling of a valid instruction, and answers its length, 1 to 15.
///
/// The canonical spelling is that of `docs/INSTRUCTIONS.md`. What stands in `out` behind it is left open.
pub fn encode(i: &Inst, out: &mut [u8; 15]) -> u8
    requires { IsTrue (valid_of i.now) }
    ensures length { result ≡ length (canonical i.now) }
    ensures short { result ≤ 15 }
    ensures written { take result out.new ≡ canonical i.now }
    ensures spelled { Spells (take result out.new) i.now }

    // It is read as the instruction, whatever bytes follow.
    ensures read_back { (rest : List ℕ) → decode_of (take result out.new ++ rest) ≡ Some (i.now, result) }
{
    canonical_spelling();
    let mut made = Code::new();
    code(i, &mut made);
    made.give(out)
}
