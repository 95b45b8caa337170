//! The law of written files.
ghost use Rattle.elf_write.specs.File.{ReadsBack};

/// Each file that is written of segments and an entry reads, as a guest, as those segments and entry.
pub fn read_back()
    ensures { ReadsBack }
{}
