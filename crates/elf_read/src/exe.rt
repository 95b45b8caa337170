//! What a file says.
use br_word::Perms;
use std::marker::Model;

/// The bytes of a segment, as a list.
#[derive(Drop)]
pub struct Bytes {
    items: Vec<u8>,
}

impl Model for Bytes {
    ghost use Rattle.std.specs.Prelude.{ℕ, List};

    ghost Value = { List ℕ };

    ghost view = { λ b. b.items.items };
}

impl Bytes {
    ghost use Rattle.std.specs.Prelude.{◌≡◌, length};

    /// These bytes. It takes no memory.
    pub fn of(items: Vec<u8>) -> Self
        ensures { result ≡ items.items }
    {
        Bytes { items }
    }

    /// The bytes.
    pub fn as_slice(&self) -> &[u8]
        ensures { result.now ≡ self.now }
    {
        self.items.as_slice()
    }

    /// How many bytes there are.
    pub fn len(&self) -> usize
        ensures { result ≡ length self.now }
    {
        self.items.len()
    }

    /// The bytes as a vector. It takes no memory.
    pub fn into_vec(self) -> Vec<u8>
        ensures { result.items ≡ self }
    {
        self.items
    }
}

/// A loaded segment (ELF, program header of type PT_LOAD).
#[derive(Drop)]
pub struct Segment {
    /// Its lowest address (p_vaddr), from [`GUEST_LOWEST`](crate::GUEST_LOWEST) up.
    pub start: u32,
    /// How many bytes it has in memory (p_memsz), at least one. It ends at
    /// [`HIGHEST_END`](crate::HIGHEST_END) at the latest.
    pub size: u32,
    /// Which accesses are allowed (p_flags): never writing and executing both.
    pub perms: Perms,
    /// The bytes of the file (p_filesz of them, from p_offset on), at most `size`: those after them are zero
    /// in memory.
    pub bytes: Bytes,
}

/// The segments of a file, as a list, in the order of their headers.
#[derive(Drop)]
pub struct Segments {
    items: Vec<Segment>,
}

impl Model for Segments {
    ghost use Rattle.std.specs.Prelude.{List};
    ghost use Rattle.elf_read.specs.declared.exe.Segment.{Segment};

    ghost Value = { List Segment };

    ghost view = { λ s. s.items.items };
}

impl Segments {
    ghost use Rattle.std.specs.Prelude.{◌≡◌, length};

    /// These segments. It takes no memory.
    pub fn of(items: Vec<Segment>) -> Self
        ensures { result ≡ items.items }
    {
        Segments { items }
    }

    /// The segments, in the order of their headers.
    pub fn as_slice(&self) -> &[Segment]
        ensures { result.now ≡ self.now }
    {
        self.items.as_slice()
    }

    /// How many segments there are, at most [`GUEST_SEGMENT_LIMIT`](crate::GUEST_SEGMENT_LIMIT) in what is read.
    pub fn len(&self) -> usize
        ensures { result ≡ length self.now }
    {
        self.items.len()
    }

    /// The segments as a vector. It takes no memory.
    pub fn into_vec(self) -> Vec<Segment>
        ensures { result.items ≡ self }
    {
        self.items
    }
}

/// An executable that a file holds (ELF, ELF header).
#[derive(Drop)]
pub struct Exe {
    /// Where it begins to run (e_entry): an address in an executable segment.
    pub entry: u32,
    /// Its loaded segments: each starts at or above the end of the one before it.
    pub segments: Segments,
    /// The end of the last segment, rounded up to a multiple of 4096: where the heap begins, at most
    /// [`HIGHEST_END`](crate::HIGHEST_END).
    pub brk_start: u32,
}

/// Which executables are accepted.
#[derive(Clone, Copy, Debug, PartialEq, Eq, Drop)]
pub enum Reach {
    /// One that is to be recompiled: from [`ORIGINAL_LOWEST`](crate::ORIGINAL_LOWEST) up, at most
    /// [`ORIGINAL_SEGMENT_LIMIT`](crate::ORIGINAL_SEGMENT_LIMIT) segments and
    /// [`ORIGINAL_MEMORY_LIMIT`](crate::ORIGINAL_MEMORY_LIMIT) bytes in memory.
    Original,
    /// One that is only run: from [`GUEST_LOWEST`](crate::GUEST_LOWEST) up, at most
    /// [`GUEST_SEGMENT_LIMIT`](crate::GUEST_SEGMENT_LIMIT) segments and
    /// [`GUEST_MEMORY_LIMIT`](crate::GUEST_MEMORY_LIMIT) bytes in memory.
    Guest,
}
