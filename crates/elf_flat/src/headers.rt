//! The headers of a flat file.
ghost use Rattle.std.specs.Prelude.{◌≡◌, []};
ghost use Rattle.elf_flat.specs.Flat.{headed};

use byteorder::{ByteOrder, LittleEndian};

/// Where a flat file lies in memory (p_vaddr).
pub const FLAT_START: u32 = 0x0804_8000;

/// Where its code begins, and where it begins to run (e_entry): behind its headers.
pub const FLAT_ENTRY: u32 = 0x0804_8054;

/// The headers of a flat file without its length: ELFCLASS32, ELFDATA2LSB, ET_EXEC, EM_386, the entry, one program header, and that:
/// PT_LOAD, from offset 0 to [`FLAT_START`], PF_R and PF_X, pages of 4096.
const HEADERS: [u8; 84] = [
    0x7F, 0x45, 0x4C, 0x46, 1, 1, 1, 0, 0, 0, 0, 0, 0, 0, 0, 0, 2, 0, 3, 0, 1, 0, 0, 0, 0x54, 0x80,
    0x04, 0x08, 52, 0, 0, 0, 0, 0, 0, 0, 0, 0, 0, 0, 52, 0, 32, 0, 1, 0, 0, 0, 0, 0, 0, 0, 1, 0, 0,
    0, 0, 0, 0, 0, 0, 0x80, 0x04, 0x08, 0, 0x80, 0x04, 0x08, 0, 0, 0, 0, 0, 0, 0, 0, 5, 0, 0, 0, 0,
    0x10, 0, 0,
];

/// The headers of a flat file of this length in bytes, its code included (System V ABI, chapters 4 and 5): the ELF header, and a
/// program header of one segment that is the whole file, read and executed, with p_filesz and p_memsz its length.
#[tactic(auto, unfolding(br_word::specs::Memory::bytes_of))]
pub fn flat_headers(length: u32) -> [u8; 84]
    ensures { result ≡ headed length [] }
{
    let mut headers = HEADERS;
    LittleEndian::write_u32(&mut headers[68..], length);
    LittleEndian::write_u32(&mut headers[72..], length);
    headers
}
