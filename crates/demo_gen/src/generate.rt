//! Generates the demonstration.
ghost use Rattle.std.specs.Prelude.{◌≡◌, ℕ, suc, ◌+◌, ◌*◌, ◌<◌, ◌≤◌, ◌++◌, IfOk, OnOk};
ghost use Rattle.elf_write.specs.File.{word};
ghost use Rattle.demo_gen.specs.Demonstration.{next_number, call_code, calls_code, write_code, exit_code, function_code, functions_code, demo_code, demo_file};

use byteorder::{ByteOrder, LittleEndian};
use elf_flat::flat_headers;
use std::alloc::{AllocError, Global};

/// The most functions that a demonstration has.
pub const MAX_FUNCTIONS: u32 = 1000;

/// Appends a 32-bit number, the lowest byte first.
#[tactic(auto, unfolding(br_word::specs::Memory::bytes_of))]
fn push_word(out: &mut Vec<u8>, value: u32) -> Result<(), AllocError>
    ensures { OnOk result (out.new.items ≡ out.old.items ++ word value) }
{
    let mut bytes = [0; 4];
    LittleEndian::write_u32(&mut bytes, value);
    out.extend_from_slice(&bytes)
}

/// The calls of so many functions.
fn push_calls(out: &mut Vec<u8>, count: u32) -> Result<(), AllocError>
    requires { count ≤ 1000 }
    ensures { OnOk result (out.new.items ≡ out.old.items ++ calls_code count 0 count) }
{
    for index in 0..count {
        out.push(0xE8)?;
        push_word(out, 27 + 5 * count + 6 * index)?;
    }
    Ok(())
}

/// The system calls that write eax and end.
fn push_end(out: &mut Vec<u8>) -> Result<(), AllocError>
    ensures { OnOk result (out.new.items ≡ out.old.items ++ (write_code ++ exit_code)) }
{
    out.extend_from_slice(&[
        0x50, 0xB8, 4, 0, 0, 0, 0xBB, 1, 0, 0, 0, 0x89, 0xE1, 0xBA, 4, 0, 0, 0, 0xCD, 0x80, 0xB8,
        1, 0, 0, 0, 0xBB, 0, 0, 0, 0, 0xCD, 0x80,
    ])
}

/// A function that adds a number to eax.
fn push_function(out: &mut Vec<u8>, number: u32) -> Result<(), AllocError>
    ensures { OnOk result (out.new.items ≡ out.old.items ++ function_code number) }
{
    out.extend_from_slice(&[0x81, 0xC0])?;
    push_word(out, number)?;
    out.extend_from_slice(&[0x78, 0x02, 0xF7, 0xD0, 0xC3])
}

/// So many functions, each with its own number.
fn push_functions(out: &mut Vec<u8>, count: u32) -> Result<(), AllocError>
    ensures { OnOk result (out.new.items ≡ out.old.items ++ functions_code count count) }
{
    let mut number = count;
    for _function in 0..count {
        number = number.wrapping_mul(1103515245).wrapping_add(12345);
        push_function(out, number)?;
    }
    Ok(())
}

/// The demonstration with so many functions, 1 to [`MAX_FUNCTIONS`]: the bytes of an executable of 121 bytes and 16 for each function
/// (System V ABI, chapters 4 and 5). It sets eax to their number, calls each, writes the four bytes of eax to descriptor 1, the lowest
/// first, and exits with 0. Function i adds a number to eax, and inverts all bits of the sum where that is not negative.
///
/// An error comes for want of memory alone.
pub fn demo_exe(alloc: Global, count: u32) -> Result<Vec<u8>, AllocError>
    requires some { 1 ≤ count }
    requires few { count ≤ 1000 }
    ensures { IfOk result (λ file. file.items ≡ demo_file count) }
{
    let length = 121 + 16 * count;
    let mut out = Vec::with_capacity(alloc, length as usize)?;
    out.extend_from_slice(&flat_headers(length))?;
    out.push(0xB8)?;
    push_word(&mut out, count)?;
    push_calls(&mut out, count)?;
    push_end(&mut out)?;
    push_functions(&mut out, count)?;
    Ok(out)
}
