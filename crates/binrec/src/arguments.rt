//! The words of the command line, as the system holds them.
ghost use Rattle.std.specs.Prelude.{Some, map, string_bytes};
ghost use Rattle.top_plan.specs.Texts.{usage_text};
ghost use Rattle.top_plan.specs.Happened.{TellsLine};
ghost use Rattle.word_reader.specs.Words.{command};
ghost use Rattle.binrec.specs.Words.{first_wrong};

use crate::top::Status;
use crate::words::read_command;
use br_outside::Sink;
use std::alloc::{AllocError, Global};
use std::env::{Env, FillError};
use top_plan::tell_usage;

/// The words behind the program's name.
#[derive(Debug, Drop)]
pub struct Arguments {
    /// The words before the first that is not UTF-8, or all of them.
    pub texts: Vec<String>,
    /// The position of the first word that is not UTF-8, from 0, if there is one.
    pub broken: Option<u32>,
}

/// The bytes of the word at an index, where 0 is the program's name, or none where there are fewer words.
/// The error is want of memory.
fn word_at<E: Env>(alloc: Global, env: &E, index: u32) -> Result<Option<Vec<u8>>, AllocError> {
    let mut room: usize = 256;
    for _doubling in 0..32 {
        let mut bytes = vec![in alloc; 0u8; room]?;
        match env.arg(index as usize, bytes.as_mut_slice()) {
            Ok(length) => {
                bytes.truncate(length);
                return Ok(Some(bytes));
            }
            Err(FillError::NotPresent) => return Ok(None),
            Err(FillError::TooLong) => room = room.saturating_mul(2),
        }
    }
    Err(AllocError)
}

/// The words behind the program's name, up to the first that is not UTF-8. The error is want of memory.
pub fn read_arguments<E: Env>(alloc: Global, env: &E) -> Result<Arguments, AllocError> {
    let mut texts = Vec::new(alloc);
    for position in 0..u32::MAX {
        let Some(bytes) = word_at(alloc, env, position + 1)? else {
            return Ok(Arguments {
                texts,
                broken: None,
            });
        };
        let Ok(text) = String::from_utf8(bytes) else {
            return Ok(Arguments {
                texts,
                broken: Some(position),
            });
        };
        texts.push(text)?;
    }
    Err(AllocError)
}

/// Reports that words are no command, since the one at a position is not UTF-8, and answers the status: the line has the
/// position of the first that is wrong of the `words` before it, or else its own.
pub fn tell_broken<R: Sink>(report: &mut R, words: &[String], position: u32) -> Status
    ensures { TellsLine (Some (usage_text (first_wrong (command (map string_bytes words.now)) position))) 1
        (R.seen report.old) result.0 (R.seen report.new) }
{
    match read_command(words) {
        Ok(_) => Status(tell_usage(report, position)),
        Err(at) => Status(tell_usage(report, at.min(position))),
    }
}
