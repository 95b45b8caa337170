//! The texts of instructions.

ghost use Rattle.std.specs.Prelude.{◌≡◌, ◌+◌, ◌%◌, ◌^◌, ◌++◌, IfOk, OnOk, OnErr, string_bytes, codes};
ghost use Rattle.br_word.specs.declared.types.Width.TheVariants.{B8, B16, B32};
ghost use Rattle.ia_text.specs.Names.{register_name, rotate_name, extend_name, condition_name};
ghost use Rattle.ia_text.specs.Operands.{number_text, address_text, place_text, source_text, count_text};
ghost use Rattle.ia_text.specs.Text.{one_operand, two_operands, imul_text, return_text, target_text, string_text, text_of};

use crate::names::{
    alu_name, condition_name, extend_name, multiply_name, register_name, rotate_name, shift_name,
    size_letter,
};
use crate::operands::{address_text, count_text, number_text, place_text, source_text};
use ia_inst::{Addr, Count, Inst, Rm, Src, Width};
use std::alloc::{AllocError, Global};

/// A mnemonic with a condition.
fn conditional(alloc: Global, name: &str, cond: u8) -> Result<String, AllocError>
    ensures { IfOk result (λ text. string_bytes text ≡ name.now ++ condition_name cond) }
{
    let condition = condition_name(cond);
    format!(in alloc; "{name}{condition}")
}

/// One operand, a register or a place in memory.
fn unary(alloc: Global, name: &str, w: Width, dst: &Rm) -> Result<String, AllocError>
    ensures { IfOk result (λ text. string_bytes text ≡ one_operand name.now (place_text w dst.now)) }
{
    let place = place_text(alloc, w, dst)?;
    format!(in alloc; "{name} {place}")
}

/// A destination and a source.
fn binary(alloc: Global, name: &str, w: Width, dst: &Rm, src: &Src) -> Result<String, AllocError>
    ensures { IfOk result (λ text. string_bytes text ≡ two_operands name.now (place_text w dst.now) (source_text w src.now)) }
{
    let place = place_text(alloc, w, dst)?;
    let source = source_text(alloc, w, src)?;
    format!(in alloc; "{name} {place}, {source}")
}

/// A destination and a count.
fn counted(
    alloc: Global,
    name: &str,
    w: Width,
    dst: &Rm,
    count: Count,
) -> Result<String, AllocError>
    ensures { IfOk result (λ text. string_bytes text ≡ two_operands name.now (place_text w dst.now) (count_text count)) }
{
    let place = place_text(alloc, w, dst)?;
    let count = count_text(alloc, count)?;
    format!(in alloc; "{name} {place}, {count}")
}

/// A register as destination, and a source of its own width.
fn widened(
    alloc: Global,
    name: &str,
    register: &str,
    from: Width,
    src: &Rm,
) -> Result<String, AllocError>
    ensures { IfOk result (λ text. string_bytes text ≡ two_operands name.now register.now (place_text from src.now)) }
{
    let place = place_text(alloc, from, src)?;
    format!(in alloc; "{name} {register}, {place}")
}

fn lea(alloc: Global, register: &str, addr: &Addr) -> Result<String, AllocError>
    ensures { IfOk result (λ text. string_bytes text ≡ two_operands (codes "lea") register.now (address_text addr.now)) }
{
    let address = address_text(alloc, addr)?;
    format!(in alloc; "lea {register}, {address}")
}

fn push(alloc: Global, src: &Src) -> Result<String, AllocError>
    ensures { IfOk result (λ text. string_bytes text ≡ one_operand (codes "push") (source_text B32 src.now)) }
{
    let source = source_text(alloc, Width::B32, src)?;
    format!(in alloc; "push {source}")
}

fn imul(alloc: Global, dst: u8, src: &Rm, by: Option<u32>) -> Result<String, AllocError>
    ensures { IfOk result (λ text. string_bytes text ≡ imul_text dst src.now by) }
{
    let register = register_name(Width::B32, dst);
    let text = widened(alloc, "imul", register, Width::B32, src)?;
    match by {
        None => Ok(text),
        Some(n) => {
            let factor = number_text(alloc, Width::B32, n)?;
            format!(in alloc; "{text}, {factor}")
        }
    }
}

fn rotate(alloc: Global, right: bool, dst: &Rm, count: Count) -> Result<String, AllocError>
    ensures { IfOk result (λ text. string_bytes text ≡ two_operands (rotate_name right) (place_text B32 dst.now) (count_text count)) }
{
    counted(alloc, rotate_name(right), Width::B32, dst, count)
}

fn extend(
    alloc: Global,
    signed: bool,
    from: Width,
    to: Width,
    dst: u8,
    src: &Rm,
) -> Result<String, AllocError>
    ensures { IfOk result (λ text. string_bytes text ≡ text_of (Inst.Extend signed from to dst src.now) 0 0) }
{
    widened(
        alloc,
        extend_name(signed),
        register_name(to, dst),
        from,
        src,
    )
}

fn setcc(alloc: Global, cond: u8, dst: &Rm) -> Result<String, AllocError>
    ensures { IfOk result (λ text. string_bytes text ≡ one_operand (codes "set" ++ condition_name cond) (place_text B8 dst.now)) }
{
    let name = conditional(alloc, "set", cond)?;
    unary(alloc, &name, Width::B8, dst)
}

fn cmov(alloc: Global, cond: u8, dst: u8, src: &Rm) -> Result<String, AllocError>
    ensures { IfOk result (λ text. string_bytes text ≡ text_of (Inst.Cmov cond dst src.now) 0 0) }
{
    let name = conditional(alloc, "cmov", cond)?;
    let register = register_name(Width::B32, dst);
    widened(alloc, &name, register, Width::B32, src)
}

/// Where the distance leads from behind an instruction of `len` bytes at `at`.
fn target(at: u32, len: u8, rel: u32) -> u32
    ensures { result ≡ (at + len + rel) % 2 ^ 32 }
{
    at.wrapping_add(u32::from(len)).wrapping_add(rel)
}

/// A direct transfer.
fn direct(alloc: Global, name: &str, target: u32) -> Result<String, AllocError>
    ensures { IfOk result (λ text. string_bytes text ≡ one_operand name.now (number_text B32 target)) }
{
    let target = number_text(alloc, Width::B32, target)?;
    format!(in alloc; "{name} {target}")
}

fn jcc(alloc: Global, cond: u8, target: u32) -> Result<String, AllocError>
    ensures { IfOk result (λ text. string_bytes text ≡ one_operand (codes "j" ++ condition_name cond) (number_text B32 target)) }
{
    let name = conditional(alloc, "j", cond)?;
    direct(alloc, &name, target)
}

fn ret(alloc: Global, pop: u16) -> Result<String, AllocError>
    ensures { IfOk result (λ text. string_bytes text ≡ return_text pop) }
{
    if pop == 0 {
        return String::from_str(alloc, "ret");
    }
    let number = number_text(alloc, Width::B16, u32::from(pop))?;
    format!(in alloc; "ret {number}")
}

/// A string instruction.
fn string(alloc: Global, name: &str, w: Width, rep: bool) -> Result<String, AllocError>
    ensures { IfOk result (λ text. string_bytes text ≡ string_text name.now w rep) }
{
    let prefix = if rep { "rep " } else { "" };
    let letter = size_letter(w);
    format!(in alloc; "{prefix}{name}{letter}")
}

fn inst_text(alloc: Global, i: &Inst, at: u32, len: u8) -> Result<String, AllocError>
    ensures { IfOk result (λ text. string_bytes text ≡ text_of i.now at len) }
{
    match i {
        Inst::Alu { op, w, dst, src } => binary(alloc, alu_name(*op), *w, dst, src),
        Inst::Test { w, dst, src } => binary(alloc, "test", *w, dst, src),
        Inst::Mov { w, dst, src } => binary(alloc, "mov", *w, dst, src),
        Inst::Lea { w, dst, addr } => lea(alloc, register_name(*w, *dst), addr),
        Inst::Xchg { w, dst, reg } => binary(alloc, "xchg", *w, dst, &Src::Rm(Rm::Reg(*reg))),
        Inst::Inc { w, dst } => unary(alloc, "inc", *w, dst),
        Inst::Dec { w, dst } => unary(alloc, "dec", *w, dst),
        Inst::Not { w, dst } => unary(alloc, "not", *w, dst),
        Inst::Neg { w, dst } => unary(alloc, "neg", *w, dst),
        Inst::Push { src } => push(alloc, src),
        Inst::Pop { dst } => unary(alloc, "pop", Width::B32, dst),
        Inst::MulDiv { op, src } => unary(alloc, multiply_name(*op), Width::B32, src),
        Inst::Imul { dst, src, by } => imul(alloc, *dst, src, *by),
        Inst::Shift { op, w, dst, count } => counted(alloc, shift_name(*op), *w, dst, *count),
        Inst::Rotate { right, dst, count } => rotate(alloc, *right, dst, *count),
        Inst::Cwde => String::from_str(alloc, "cwde"),
        Inst::Cdq => String::from_str(alloc, "cdq"),
        Inst::Extend {
            signed,
            from,
            to,
            dst,
            src,
        } => extend(alloc, *signed, *from, *to, *dst, src),
        Inst::Setcc { cond, dst } => setcc(alloc, *cond, dst),
        Inst::Cmov { cond, dst, src } => cmov(alloc, *cond, *dst, src),
        Inst::Jcc { cond, rel } => jcc(alloc, *cond, target(at, len, *rel)),
        Inst::Jmp { rel } => direct(alloc, "jmp", target(at, len, *rel)),
        Inst::JmpRm { target } => unary(alloc, "jmp", Width::B32, target),
        Inst::Call { rel } => direct(alloc, "call", target(at, len, *rel)),
        Inst::CallRm { target } => unary(alloc, "call", Width::B32, target),
        Inst::Ret { pop } => ret(alloc, *pop),
        Inst::Leave => String::from_str(alloc, "leave"),
        Inst::Movs { w, rep } => string(alloc, "movs", *w, *rep),
        Inst::Stos { w, rep } => string(alloc, "stos", *w, *rep),
        Inst::Cld => String::from_str(alloc, "cld"),
        Inst::Std => String::from_str(alloc, "std"),
        Inst::Sahf => String::from_str(alloc, "sahf"),
        Inst::Int80 => String::from_str(alloc, "int 0x80"),
        Inst::Nop => String::from_str(alloc, "nop"),
    }
}

/// Appends the text of an instruction that stands at `at` with a spelling of `len` bytes.
///
/// The text is that of `docs/INSTRUCTIONS.md`. The only error is want of memory, and `out` is then as it was.
pub fn print_inst(
    alloc: Global,
    i: &Inst,
    at: u32,
    len: u8,
    out: &mut String,
) -> Result<(), AllocError>
    ensures ok { OnOk result (string_bytes out.new ≡ string_bytes out.old ++ text_of i.now at len) }
    ensures err { OnErr result (string_bytes out.new ≡ string_bytes out.old) }
{
    let text = inst_text(alloc, i, at, len)?;
    out.push_str(&text)
}
