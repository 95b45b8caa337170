//! The report line and the status.
ghost use Rattle.std.specs.Prelude.{◌≡◌, Some, string_bytes};
ghost use Rattle.std.specs.Option.{option_map};
ghost use Rattle.top_plan.specs.Texts.{object_text, cause_text, halt_text, usage_text, finish_status, cause_status, halt_status};
ghost use Rattle.top_plan.specs.Happened.{Tells, TellsLine};

use crate::ends::{Cause, Finish, Halt, Object, Outcome};
use crate::line::{LINE_ROOM, write_usage};
use br_outside::{Sink, SinkError};

impl Object {
    /// The report line where a call of this object failed.
    pub fn line(self) -> &'static str
        ensures { result.now ≡ object_text self }
    {
        match self {
            Object::Shelf => "outside shelf\n",
            Object::Input => "outside input\n",
            Object::Output => "outside output\n",
            Object::Report => "outside report\n",
        }
    }
}

impl Finish {
    /// The status of work that is done: 0, 5 where a guest faulted, or 6 where it took all its steps.
    pub fn status(self) -> u8
        ensures { result ≡ finish_status self }
    {
        match self {
            Finish::Done => 0,
            Finish::Fault => 5,
            Finish::Budget => 6,
        }
    }
}

impl Cause {
    /// The status of a cause: 2 where a file or a line is refused, 7 where a limit is passed.
    pub fn status(self) -> u8
        ensures { result ≡ cause_status self }
    {
        match self {
            Cause::RefusedWord { .. } | Cause::RefusedLine { .. } => 2,
            Cause::Limited(_) => 7,
        }
    }
}

/// Gives a report line, and answers the status: 3 where the report failed, after which a front part of the line was
/// written, and 4 where it had no memory, after which nothing was.
pub fn tell<R: Sink>(report: &mut R, line: &[u8], status: u8) -> u8
    ensures { Tells line.now status (R.seen report.old) result (R.seen report.new) }
{
    match report.give(line) {
        Ok(()) => status,
        Err(SinkError::Failed) => 3,
        Err(SinkError::Memory) => 4,
    }
}

/// Gives the report line of a cause, and answers the status. It takes no memory of its own.
fn tell_cause<R: Sink>(report: &mut R, cause: Cause) -> u8
    ensures { Tells (cause_text cause) (cause_status cause) (R.seen report.old) result (R.seen report.new) }
{
    let mut line = [0u8; LINE_ROOM];
    let start = cause.write(&mut line);
    tell(report, &line[start..], cause.status())
}

/// Gives the report line of work that is not done, and answers the status: that of the cause, 3 where a call of an object
/// failed, 4 where memory was wanting. It takes no memory of its own.
pub fn tell_halt<R: Sink>(report: &mut R, halt: Halt) -> u8
    ensures { Tells (halt_text halt) (halt_status halt) (R.seen report.old) result (R.seen report.new) }
{
    match halt {
        Halt::Because(cause) => tell_cause(report, cause),
        Halt::Outside(object) => tell(report, object.line().as_bytes(), 3),
        Halt::Memory => tell(report, b"memory\n", 4),
    }
}

/// Gives the report line of work that is done, and answers the status. Where there is no line, the report is not called.
pub fn tell_outcome<R: Sink>(report: &mut R, outcome: &Outcome) -> u8
    ensures { TellsLine (option_map string_bytes outcome.now.line) (finish_status outcome.now.finish)
        (R.seen report.old) result (R.seen report.new) }
{
    match &outcome.line {
        Some(line) => tell(report, line.as_bytes(), outcome.finish.status()),
        None => outcome.finish.status(),
    }
}

/// Gives the report line of words that are no command, and answers the status, 1. `word` is the position of the first word
/// that is wrong, from 0, or their number where one is missing. It takes no memory of its own.
pub fn tell_usage<R: Sink>(report: &mut R, word: u32) -> u8
    ensures { TellsLine (Some (usage_text word)) 1 (R.seen report.old) result (R.seen report.new) }
{
    let mut line = [0u8; LINE_ROOM];
    let start = write_usage(word, &mut line);
    tell(report, &line[start..], 1)
}
