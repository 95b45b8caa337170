//! Program headers (ELF, program header).
ghost use Rattle.std.specs.Prelude.{◌≡◌, ◌+◌, ◌≤◌, length, drop};
ghost use Rattle.elf_read.specs.Elf.{header_at, perms_of, is_loaded};

use crate::field::word_at;
use br_word::Perms;

/// A program header, as far as it is read, and its place in the file.
#[derive(Drop)]
pub struct Header {
    /// The offset of the header in the file.
    pub place: u32,
    /// p_type: 1 is PT_LOAD.
    pub kind: u32,
    /// p_offset: where its bytes begin in the file.
    pub offset: u32,
    /// p_vaddr: its lowest address.
    pub vaddr: u32,
    /// p_filesz: how many bytes it has in the file.
    pub filesz: u32,
    /// p_memsz: how many it has in memory.
    pub memsz: u32,
    /// p_flags: the permissions.
    pub flags: u32,
}

/// Where the program headers of a file lie (ELF header, e_phoff and e_phnum).
#[derive(Clone, Copy)]
pub struct Table {
    /// The offset of the first.
    pub start: u32,
    /// How many there are, 32 bytes each.
    pub count: u32,
}

/// The program header at a place.
pub fn read_header(bytes: &[u8], place: u32) -> Header
    requires { place + 32 ≤ length bytes.now }
    ensures { result ≡ header_at place (drop place bytes.now) }
{
    let at = place as usize;
    Header {
        place,
        kind: word_at(bytes, at),
        offset: word_at(bytes, at + 4),
        vaddr: word_at(bytes, at + 8),
        filesz: word_at(bytes, at + 16),
        memsz: word_at(bytes, at + 20),
        flags: word_at(bytes, at + 24),
    }
}

/// Permissions from p_flags: PF_X is 1, PF_W 2 and PF_R 4.
pub fn permissions(flags: u32) -> Perms
    ensures { result ≡ perms_of flags }
{
    Perms {
        read: flags / 4 % 2 == 1,
        write: flags / 2 % 2 == 1,
        exec: flags % 2 == 1,
    }
}

/// Whether the header is of type PT_LOAD and has memory.
pub fn has_memory(header: &Header) -> bool
    ensures { result ≡ is_loaded header.now }
{
    header.kind == 1 && 0 < header.memsz
}
