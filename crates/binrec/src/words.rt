//! The command that the words of the command line ask for.
ghost use Rattle.std.specs.Prelude.{IfOk, map, string_bytes};
ghost use Rattle.word_reader.specs.Words.{command};
ghost use Rattle.word_reader.specs.Reads.{asked_of};
ghost use Rattle.binrec.specs.Words.{Reads, IsFitting};

use word_reader::{Command, read_words};

/// Reads the words after the program's name as a command, whose names and numbers fit what it does.
///
/// The error is the position, from 0, of the first word that is wrong, or the number of words where one is missing.
pub fn read_command(words: &[String]) -> Result<Command<'_>, u32>
    ensures reads { Reads result (command (map string_bytes words.now)) }
    ensures fitting { IfOk result (λ command. IsFitting (asked_of command)) }
{
    match read_words(words) {
        Ok(command) => Ok(command),
        Err(usage) => Err(usage.at),
    }
}
