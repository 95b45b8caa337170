//! Numbers and zeros at the end of a file, the lowest byte first (ELF, e_ident[EI_DATA] = ELFDATA2LSB).
ghost use Rattle.std.specs.Prelude.{◌≡◌, ◌++◌, OnOk};
ghost use Rattle.br_word.specs.Memory.{bytes_of, zeros};

use byteorder::{ByteOrder, LittleEndian};
use std::alloc::AllocError;

/// Appends a 32-bit number.
#[tactic(auto, unfolding(br_word::specs::Memory::bytes_of))]
pub fn push_word(out: &mut Vec<u8>, value: u32) -> Result<(), AllocError>
    ensures { OnOk result (out.new.items ≡ out.old.items ++ bytes_of 4 value) }
{
    let mut bytes = [0; 4];
    LittleEndian::write_u32(&mut bytes, value);
    out.extend_from_slice(&bytes)
}

/// Appends a 16-bit number.
#[tactic(auto, unfolding(br_word::specs::Memory::bytes_of))]
pub fn push_half(out: &mut Vec<u8>, value: u16) -> Result<(), AllocError>
    ensures { OnOk result (out.new.items ≡ out.old.items ++ bytes_of 2 value) }
{
    let mut bytes = [0; 2];
    LittleEndian::write_u16(&mut bytes, value);
    out.extend_from_slice(&bytes)
}

/// Appends so many zeros.
#[tactic(auto, unfolding(br_word::specs::Memory::zeros))]
pub fn push_zeros(out: &mut Vec<u8>, count: u32) -> Result<(), AllocError>
    ensures { OnOk result (out.new.items ≡ out.old.items ++ zeros count) }
{
    out.resize(out.len() + count as usize, 0)?;
    Ok(())
}
