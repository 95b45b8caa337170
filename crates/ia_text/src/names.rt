//! The words that a text is made of.

ghost use Rattle.std.specs.Prelude.{◌≡◌};
ghost use Rattle.ia_text.specs.Names.{byte_register, word_register, long_register, register_name, size_word, size_letter, alu_name, multiply_name, shift_name, rotate_name, extend_name, condition_name};

use ia_inst::{ShiftOp, Width};

fn byte_register(r: u8) -> &'static str
    ensures { result.now ≡ byte_register r }
{
    match r {
        0 => "al",
        1 => "cl",
        2 => "dl",
        3 => "bl",
        4 => "ah",
        5 => "ch",
        6 => "dh",
        _ => "bh",
    }
}

fn word_register(r: u8) -> &'static str
    ensures { result.now ≡ word_register r }
{
    match r {
        0 => "ax",
        1 => "cx",
        2 => "dx",
        3 => "bx",
        4 => "sp",
        5 => "bp",
        6 => "si",
        _ => "di",
    }
}

fn long_register(r: u8) -> &'static str
    ensures { result.now ≡ long_register r }
{
    match r {
        0 => "eax",
        1 => "ecx",
        2 => "edx",
        3 => "ebx",
        4 => "esp",
        5 => "ebp",
        6 => "esi",
        _ => "edi",
    }
}

/// A register, by its number.
pub fn register_name(w: Width, r: u8) -> &'static str
    ensures { result.now ≡ register_name w r }
{
    match w {
        Width::B8 => byte_register(r),
        Width::B16 => word_register(r),
        Width::B32 => long_register(r),
    }
}

/// What stands before a place in memory.
pub fn size_word(w: Width) -> &'static str
    ensures { result.now ≡ size_word w }
{
    match w {
        Width::B8 => "byte",
        Width::B16 => "word",
        Width::B32 => "dword",
    }
}

/// What stands behind the mnemonic of a string instruction.
pub fn size_letter(w: Width) -> &'static str
    ensures { result.now ≡ size_letter w }
{
    match w {
        Width::B8 => "b",
        Width::B16 => "w",
        Width::B32 => "d",
    }
}

/// The ALU operations.
pub fn alu_name(op: u8) -> &'static str
    ensures { result.now ≡ alu_name op }
{
    match op {
        0 => "add",
        1 => "or",
        2 => "adc",
        3 => "sbb",
        4 => "and",
        5 => "sub",
        6 => "xor",
        _ => "cmp",
    }
}

/// The operations of F7 on edx and eax.
pub fn multiply_name(op: u8) -> &'static str
    ensures { result.now ≡ multiply_name op }
{
    match op {
        4 => "mul",
        5 => "imul",
        6 => "div",
        _ => "idiv",
    }
}

/// The shifts.
pub fn shift_name(op: ShiftOp) -> &'static str
    ensures { result.now ≡ shift_name op }
{
    match op {
        ShiftOp::Shl => "shl",
        ShiftOp::Shr => "shr",
        ShiftOp::Sar => "sar",
    }
}

/// The rotations, to the right or to the left.
pub fn rotate_name(right: bool) -> &'static str
    ensures { result.now ≡ rotate_name right }
{
    if right { "ror" } else { "rol" }
}

/// The extensions, signed or not.
pub fn extend_name(signed: bool) -> &'static str
    ensures { result.now ≡ extend_name signed }
{
    if signed { "movsx" } else { "movzx" }
}

/// A condition, by its number.
pub fn condition_name(cond: u8) -> &'static str
    ensures { result.now ≡ condition_name cond }
{
    match cond {
        0 => "o",
        1 => "no",
        2 => "b",
        3 => "ae",
        4 => "z",
        5 => "nz",
        6 => "be",
        7 => "a",
        8 => "s",
        9 => "ns",
        10 => "p",
        11 => "np",
        12 => "l",
        13 => "ge",
        14 => "le",
        _ => "g",
    }
}
