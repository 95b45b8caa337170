//! Commands.
ghost use Rattle.std.specs.Prelude.{◌≡◌, map, string_bytes};
ghost use Rattle.word_reader.specs.Words.{build_words, trace_words, run_words, merge_words, show_words, session_words, demo_words, asm_words, command};
ghost use Rattle.word_reader.specs.Reads.{Reads};

use crate::limits::{DEMO_LIMIT, DIGIT_LIMIT};
use crate::number::read_number;
use crate::parts::{check_arguments, check_traces, name, steps};

/// A command with its words.
#[derive(Clone, Copy, Debug, PartialEq, Eq)]
pub enum Command<'a> {
    /// `build N E T..`: write a new executable.
    Build {
        /// The name of the new executable, 1 to [`NAME_LIMIT`](crate::NAME_LIMIT) bytes.
        n: &'a str,
        /// The name of the original, 1 to [`NAME_LIMIT`](crate::NAME_LIMIT) bytes.
        e: &'a str,
        /// Names of traces, at most [`TRACE_LIMIT`](crate::TRACE_LIMIT), each of 1 to
        /// [`NAME_LIMIT`](crate::NAME_LIMIT) bytes.
        traces: &'a [String],
    },
    /// `trace T E WORD..`: run an original and store its edges.
    Trace {
        /// The most steps, of 1 to [`DIGIT_LIMIT`](crate::DIGIT_LIMIT) digits, so below 10^18.
        steps: u64,
        /// The name of the trace, 1 to [`NAME_LIMIT`](crate::NAME_LIMIT) bytes.
        t: &'a str,
        /// The name of the original, 1 to [`NAME_LIMIT`](crate::NAME_LIMIT) bytes.
        e: &'a str,
        /// The guest's words, at most [`ARGUMENT_LIMIT`](crate::ARGUMENT_LIMIT), which fit in
        /// [`ARGUMENT_BYTES_LIMIT`](crate::ARGUMENT_BYTES_LIMIT).
        args: &'a [String],
    },
    /// `run E WORD..`: run an executable.
    Run {
        /// The most steps, of 1 to [`DIGIT_LIMIT`](crate::DIGIT_LIMIT) digits, so below 10^18.
        steps: u64,
        /// The name of the executable, 1 to [`NAME_LIMIT`](crate::NAME_LIMIT) bytes.
        e: &'a str,
        /// The guest's words, at most [`ARGUMENT_LIMIT`](crate::ARGUMENT_LIMIT), which fit in
        /// [`ARGUMENT_BYTES_LIMIT`](crate::ARGUMENT_BYTES_LIMIT).
        args: &'a [String],
    },
    /// `merge T E T..`: store the union of traces.
    Merge {
        /// The name of the union, 1 to [`NAME_LIMIT`](crate::NAME_LIMIT) bytes.
        t: &'a str,
        /// The name of the original, 1 to [`NAME_LIMIT`](crate::NAME_LIMIT) bytes.
        e: &'a str,
        /// Names of traces, at most [`TRACE_LIMIT`](crate::TRACE_LIMIT), each of 1 to
        /// [`NAME_LIMIT`](crate::NAME_LIMIT) bytes.
        traces: &'a [String],
    },
    /// `show E T..`: list the blocks that traces have seen.
    Show {
        /// The name of the original, 1 to [`NAME_LIMIT`](crate::NAME_LIMIT) bytes.
        e: &'a str,
        /// Names of traces, at most [`TRACE_LIMIT`](crate::TRACE_LIMIT), each of 1 to
        /// [`NAME_LIMIT`](crate::NAME_LIMIT) bytes.
        traces: &'a [String],
    },
    /// `session E`: work on an original by the lines of the input.
    Session {
        /// The name of the original, 1 to [`NAME_LIMIT`](crate::NAME_LIMIT) bytes.
        e: &'a str,
    },
    /// `demo K`: show a recovery of a made program.
    Demo {
        /// From 1 to [`DEMO_LIMIT`](crate::DEMO_LIMIT).
        count: u32,
    },
    /// `asm N TEXT`: assemble a source.
    Asm {
        /// The name of the new executable, 1 to [`NAME_LIMIT`](crate::NAME_LIMIT) bytes.
        n: &'a str,
        /// The name of the source, 1 to [`NAME_LIMIT`](crate::NAME_LIMIT) bytes.
        text: &'a str,
    },
}

/// The words are no command.
#[derive(Clone, Copy, Debug, PartialEq, Eq)]
pub struct Usage {
    /// The position of the first word that is wrong, from 0, or the number of words where one is missing.
    pub at: u32,
}

fn build_words(words: &[String]) -> Result<Command<'_>, Usage>
    ensures { Reads result (build_words (map string_bytes words.now)) }
{
    let (n, words) = name(words, 1)?;
    let (e, traces) = name(words, 2)?;
    check_traces(traces, 3)?;
    Ok(Command::Build { n, e, traces })
}

fn trace_words(words: &[String]) -> Result<Command<'_>, Usage>
    ensures { Reads result (trace_words (map string_bytes words.now)) }
{
    let (steps, at, words) = steps(words)?;
    let (t, words) = name(words, at)?;
    let (e, args) = name(words, at + 1)?;
    check_arguments(args, at + 2)?;
    Ok(Command::Trace { steps, t, e, args })
}

fn run_words(words: &[String]) -> Result<Command<'_>, Usage>
    ensures { Reads result (run_words (map string_bytes words.now)) }
{
    let (steps, at, words) = steps(words)?;
    let (e, args) = name(words, at)?;
    check_arguments(args, at + 1)?;
    Ok(Command::Run { steps, e, args })
}

fn merge_words(words: &[String]) -> Result<Command<'_>, Usage>
    ensures { Reads result (merge_words (map string_bytes words.now)) }
{
    let (t, words) = name(words, 1)?;
    let (e, traces) = name(words, 2)?;
    check_traces(traces, 3)?;
    Ok(Command::Merge { t, e, traces })
}

fn show_words(words: &[String]) -> Result<Command<'_>, Usage>
    ensures { Reads result (show_words (map string_bytes words.now)) }
{
    let (e, traces) = name(words, 1)?;
    check_traces(traces, 2)?;
    Ok(Command::Show { e, traces })
}

fn session_words(words: &[String]) -> Result<Command<'_>, Usage>
    ensures { Reads result (session_words (map string_bytes words.now)) }
{
    let (e, words) = name(words, 1)?;
    if !words.is_empty() {
        return Err(Usage { at: 2 });
    }
    Ok(Command::Session { e })
}

fn demo_words(words: &[String]) -> Result<Command<'_>, Usage>
    ensures { Reads result (demo_words (map string_bytes words.now)) }
{
    let [word, rest @ ..] = words else {
        return Err(Usage { at: 1 });
    };
    let Some(count) = read_number(word.as_str(), DIGIT_LIMIT) else {
        return Err(Usage { at: 1 });
    };
    if count < 1 || count > DEMO_LIMIT {
        return Err(Usage { at: 1 });
    }
    if !rest.is_empty() {
        return Err(Usage { at: 2 });
    }
    Ok(Command::Demo {
        count: count as u32,
    })
}

fn asm_words(words: &[String]) -> Result<Command<'_>, Usage>
    ensures { Reads result (asm_words (map string_bytes words.now)) }
{
    let (n, words) = name(words, 1)?;
    let (text, more) = name(words, 2)?;
    if !more.is_empty() {
        return Err(Usage { at: 3 });
    }
    Ok(Command::Asm { n, text })
}

/// Reads the words after the program's name, from left to right. It takes no memory.
///
/// Word 0 is one of `build`, `trace`, `run`, `merge`, `show`, `session`, `demo`, `asm`. `--steps` and a number of 1 to
/// [`DIGIT_LIMIT`](crate::DIGIT_LIMIT) digits may stand at words 1 and 2 of `trace` and `run`, whose default
/// is [`DEFAULT_STEPS`](crate::DEFAULT_STEPS) steps. A name has 1 to [`NAME_LIMIT`](crate::NAME_LIMIT) bytes.
/// At most [`TRACE_LIMIT`](crate::TRACE_LIMIT) trace words are fetched. A guest is given at most
/// [`ARGUMENT_LIMIT`](crate::ARGUMENT_LIMIT) words, and with `guest` before them and a zero byte behind each at
/// most [`ARGUMENT_BYTES_LIMIT`](crate::ARGUMENT_BYTES_LIMIT) bytes. `session` has one further word, and so has
/// `demo`, a number from 1 to [`DEMO_LIMIT`](crate::DEMO_LIMIT); `asm` has two, both names.
///
/// Errors: [`Usage`] exactly where the words are no command, with the position of the first word that is
/// wrong, from 0, or the number of words where one is missing.
#[tactic(auto, unfolding(crate::specs::Words::command))]
pub fn read_words(words: &[String]) -> Result<Command<'_>, Usage>
    ensures { Reads result (command (map string_bytes words.now)) }
{
    let [first, rest @ ..] = words else {
        return Err(Usage { at: 0 });
    };
    match first.as_str() {
        "build" => build_words(rest),
        "trace" => trace_words(rest),
        "run" => run_words(rest),
        "merge" => merge_words(rest),
        "show" => show_words(rest),
        "session" => session_words(rest),
        "demo" => demo_words(rest),
        "asm" => asm_words(rest),
        _ => Err(Usage { at: 0 }),
    }
}
