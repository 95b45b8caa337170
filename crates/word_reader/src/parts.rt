//! Parts of a command's words.
ghost use Rattle.std.specs.Prelude.{◌≡◌, ◌<◌, ◌^◌, map, string_bytes};
ghost use Rattle.word_reader.specs.Words.{is_name, first_no_trace, first_no_argument, own_bytes, is_steps, first_name};
ghost use Rattle.word_reader.specs.Reads.{ReadsName, ReadsSteps, ReadsBehind, Finds};

use crate::command::Usage;
use crate::limits::{
    ARGUMENT_BYTES_LIMIT, ARGUMENT_LIMIT, DEFAULT_STEPS, DIGIT_LIMIT, FIRST_NAME,
    FIRST_NAME_BEHIND_STEPS, GUEST_BYTES, NAME_LIMIT, TRACE_LIMIT,
};
use crate::number::read_number;

/// Whether a word is a name, by its length.
fn has_name_length(word: &String) -> bool
    ensures { result ≡ is_name (string_bytes word.now) }
{
    1 <= word.len() && word.len() <= NAME_LIMIT
}

/// The next word, a name, and the words behind it; `at` is its position.
pub fn name(words: &[String], at: u32) -> Result<(&str, &[String]), Usage>
    ensures { ReadsName at result (map string_bytes words.now) }
{
    match words {
        [] => Err(Usage { at }),
        [word, rest @ ..] => {
            if has_name_length(word) {
                Ok((word.as_str(), rest))
            } else {
                Err(Usage { at })
            }
        }
    }
}

/// Whether all words are traces: names, and not too many; `at` is the position of the first.
pub fn check_traces(words: &[String], at: u32) -> Result<(), Usage>
    requires { at < 2 ^ 16 }
    ensures { Finds at (first_no_trace 0 (map string_bytes words.now)) result }
{
    let mut k: u32 = 0;
    for word in words {
        if k as usize >= TRACE_LIMIT || !has_name_length(word) {
            return Err(Usage { at: at + k });
        }
        k += 1;
    }
    Ok(())
}

/// Whether a guest can be given these words; `at` is the position of the first.
pub fn check_arguments(words: &[String], at: u32) -> Result<(), Usage>
    requires { at < 2 ^ 16 }
    ensures { Finds at (first_no_argument 0 own_bytes (map string_bytes words.now)) result }
{
    let mut k: u32 = 0;
    let mut left: usize = ARGUMENT_BYTES_LIMIT - GUEST_BYTES;
    for word in words {
        if k as usize >= ARGUMENT_LIMIT || word.len() >= left {
            return Err(Usage { at: at + k });
        }
        left -= word.len() + 1;
        k += 1;
    }
    Ok(())
}

/// Whether a word says that a number of steps follows.
fn is_steps(word: &str) -> bool
    ensures { result ≡ is_steps word.now }
{
    word == "--steps"
}

/// The position of the first name of `trace` and `run` among all words: behind `--steps` and its number, where
/// they are given. For `run` that is the executable, for `trace` the trace, behind which the original stands.
pub fn first_name(words: &[String]) -> u32
    ensures { result ≡ first_name (map string_bytes words.now) }
{
    match words {
        [_, second, ..] if is_steps(second.as_str()) => FIRST_NAME_BEHIND_STEPS,
        _ => FIRST_NAME,
    }
}

/// The number of steps, where `--steps` and a number stand before the other words, the position of the
/// next word, and the words from there.
pub fn steps(words: &[String]) -> Result<(u64, u32, &[String]), Usage>
    ensures { ReadsSteps result (map string_bytes words.now) }
{
    match words {
        [] => Ok((DEFAULT_STEPS, FIRST_NAME, words)),
        [word, rest @ ..] => {
            if is_steps(word.as_str()) {
                steps_behind(rest)
            } else {
                Ok((DEFAULT_STEPS, FIRST_NAME, words))
            }
        }
    }
}

/// The number behind `--steps`.
fn steps_behind(words: &[String]) -> Result<(u64, u32, &[String]), Usage>
    ensures { ReadsBehind result (map string_bytes words.now) }
{
    match words {
        [] => Err(Usage { at: 2 }),
        [word, rest @ ..] => match read_number(word.as_str(), DIGIT_LIMIT) {
            None => Err(Usage { at: 2 }),
            Some(number) => Ok((number, FIRST_NAME_BEHIND_STEPS, rest)),
        },
    }
}
