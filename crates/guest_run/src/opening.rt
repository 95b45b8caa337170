//! The stack with which a guest begins (System V ABI, i386 supplement, process initialization).
ghost use Rattle.std.specs.Prelude.{◌≡◌, ◌+◌, ◌<◌, ◌^◌, ◌++◌, length, map, string_bytes, IfOk, OnOk};
ghost use Rattle.br_word.specs.Memory.{bytes_of, zeros};
ghost use Rattle.run_model.specs.Opening.{FitArguments, arguments, texts, text_places, first_text, stack_pointer, stack_top};

use std::alloc::{AllocError, Global};

/// The end of the stack.
const STACK_END: u32 = 0xC000_0000;

/// The bytes of the first argument, with its zero byte.
const OWN_TEXT: [u8; 6] = [0x67, 0x75, 0x65, 0x73, 0x74, 0];

/// The words besides the addresses of the texts: the count, the end of the addresses, no environment,
/// and the two words that end the auxiliary vector.
const OTHER_WORDS: u32 = 5;

#[tactic(auto, unfolding(br_word::specs::Memory::bytes_of))]
fn push_word(out: &mut Vec<u8>, value: u32) -> Result<(), AllocError>
    ensures { OnOk result (out.new.items ≡ out.old.items ++ bytes_of 4 value) }
{
    out.extend_from_slice(&value.to_le_bytes())
}

#[tactic(auto, unfolding(br_word::specs::Memory::zeros))]
fn push_zeros(out: &mut Vec<u8>, count: u32) -> Result<(), AllocError>
    ensures { OnOk result (out.new.items ≡ out.old.items ++ zeros count) }
{
    out.resize(out.len() + count as usize, 0)?;
    Ok(())
}

/// The addresses of texts, the first at `start` and each behind the zero byte of the one before.
fn push_places(out: &mut Vec<u8>, start: u32, args: &[String]) -> Result<(), AllocError>
    requires { start + length (texts (map string_bytes args.now)) < 2 ^ 32 }
    ensures { OnOk result (out.new.items ≡ out.old.items ++ text_places start (map string_bytes args.now)) }
{
    let mut at = start;
    for arg in args {
        push_word(out, at)?;
        at += arg.len() as u32 + 1;
    }
    Ok(())
}

/// The texts, each with a zero byte.
fn push_texts(out: &mut Vec<u8>, args: &[String]) -> Result<(), AllocError>
    ensures { OnOk result (out.new.items ≡ out.old.items ++ texts (map string_bytes args.now)) }
{
    for arg in args {
        out.extend_from_slice(arg.as_bytes())?;
        out.push(0)?;
    }
    Ok(())
}

/// The address of the first text.
fn first_text(args: &[String]) -> u32
    requires { FitArguments (map string_bytes args.now) }
    ensures { result ≡ first_text (arguments (map string_bytes args.now)) }
{
    let mut at = STACK_END - OWN_TEXT.len() as u32;
    for arg in args {
        at -= arg.len() as u32 + 1;
    }
    at
}

/// The stack pointer of a guest that is given these words.
pub fn stack_pointer(args: &[String]) -> u32
    requires { FitArguments (map string_bytes args.now) }
    ensures { result ≡ stack_pointer (arguments (map string_bytes args.now)) }
{
    (first_text(args) - 4 * (args.len() as u32 + 1 + OTHER_WORDS)) / 16 * 16
}

/// What stands from the stack pointer to the end of the stack of a guest that is given these words.
/// The only error is for want of memory.
pub fn stack_top(alloc: Global, args: &[String]) -> Result<Vec<u8>, AllocError>
    requires { FitArguments (map string_bytes args.now) }
    ensures { IfOk result (λ top. top.items ≡ stack_top (arguments (map string_bytes args.now))) }
{
    let count = args.len() as u32 + 1;
    let first = first_text(args);
    let gap = first - (stack_pointer(args) + 4 * (count + OTHER_WORDS));
    let mut out = Vec::new(alloc);
    push_word(&mut out, count)?;
    push_word(&mut out, first)?;
    push_places(&mut out, first + OWN_TEXT.len() as u32, args)?;
    push_zeros(&mut out, 16)?;
    push_zeros(&mut out, gap)?;
    out.extend_from_slice(&OWN_TEXT)?;
    push_texts(&mut out, args)?;
    Ok(out)
}
