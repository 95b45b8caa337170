//! The law of names.
ghost use Rattle.word_reader.specs.Words.{NamesStand};

/// The names of `run` and `trace` stand where [`first_name`](crate::first_name) says.
pub fn names_stand()
    ensures { NamesStand }
{}
