//! The law of flat files.
ghost use Rattle.elf_flat.specs.Flat.{FlatAccepted};

/// The flat file of some code, at least one byte and with its headers at most [`ORIGINAL_MEMORY_LIMIT`](elf_read::ORIGINAL_MEMORY_LIMIT),
/// is a file of bytes that is accepted as an original and as a guest: one segment, which is the whole file, with the code from
/// [`FLAT_ENTRY`](crate::FLAT_ENTRY) on.
pub fn flat_accepted()
    ensures { FlatAccepted }
{}
