//! The lines of instructions.
ghost use Rattle.std.specs.Prelude.{◌≡◌, ◌≤◌, IfOk, string_bytes, length, take};
ghost use Rattle.elf_read.specs.Elf.{IsGuest};
ghost use Rattle.block_cut.specs.Blocks.{block_of};
ghost use Rattle.show_text.specs.Listing.{spelled_line, lines_of};

use crate::numbers::{address_text, bytes_text};
use block_cut::{Spelled, instruction_at, one_block};
use elf_read::Exe;
use ia_text::print_inst;
use std::alloc::{AllocError, Global};

/// The line of an instruction that stands at an address.
fn line_text(alloc: Global, at: u32, spelled: &Spelled) -> Result<String, AllocError>
    requires { spelled.now.len ≤ 15 }
    ensures { IfOk result (λ text. string_bytes text ≡ spelled_line at spelled.now.inst spelled.now.len spelled.now.bytes) }
{
    let address = address_text(alloc, at)?;
    let bytes = bytes_text(alloc, &spelled.bytes[..spelled.len as usize])?;
    let mut text = String::new(alloc);
    print_inst(alloc, &spelled.inst, at, spelled.len, &mut text)?;
    format!(in alloc; "  {address} {bytes} {text}\n")
}

/// The lines of the instructions of the block of a start, which are so many.
pub fn lines_text(alloc: Global, exe: &Exe, start: u32, count: u8) -> Result<String, AllocError>
    requires guest { IsGuest exe.now }
    requires count { count ≡ length (block_of exe.now start).insts }
    ensures { IfOk result (λ text. string_bytes text ≡ lines_of exe.now (block_of exe.now start).insts) }
{
    one_block();
    let mut lines = String::new(alloc);
    let mut at = start;
    for _ in 0..count {
        let Some(here) = instruction_at(exe, at) else {
            unreachable!();
        };
        lines.push_str(&line_text(alloc, at, &here)?)?;
        at += u32::from(here.len);
    }
    Ok(lines)
}
