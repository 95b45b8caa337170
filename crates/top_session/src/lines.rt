//! The next line of a script, and its end.
ghost use Rattle.std.specs.Prelude.{◌≡◌, true, false};
ghost use Rattle.line_reader.specs.Lines.{Nothing};
ghost use Rattle.line_reader.specs.Reads.{next_of, unread};
ghost use Rattle.top_plan.specs.World.{World, on_input};
ghost use Rattle.top_plan.specs.Parts.{Goes};
ghost use Rattle.top_session.specs.declared.limits.TheConstants.{LINE_COUNT_LIMIT};
ghost use Rattle.top_session.specs.Lines.{line_part};
ghost use Rattle.top_session.specs.SessionPlan.{past_last};

use crate::limits::LINE_COUNT_LIMIT;
use br_outside::Source;
use line_reader::{Line, LineError, LineReader};
use std::alloc::Global;
use top_plan::{Cause, Halt, Limit, Object};

/// The next line of a script, of at most `limit` bytes. The error is a failure of the input, or want of memory.
pub fn next_line<I: Source>(
    alloc: Global,
    input: &mut I,
    reader: &mut LineReader,
    limit: u32,
) -> Result<Line, Halt>
    ensures { (w : World) → Goes next_of (line_part limit)
        (on_input w (unread reader.old (I.seen input.old))) result (on_input w (unread reader.new (I.seen input.new))) }
{
    match reader.next_line(alloc, input, limit) {
        Ok(line) => Ok(line),
        Err(LineError::Failed) => Err(Halt::Outside(Object::Input)),
        Err(LineError::Memory) => Err(Halt::Memory),
    }
}

/// Whether there is no line.
fn is_end(line: &Line) -> bool
    ensures end { result ≡ true → next_of line.now ≡ Nothing }
    ensures more { result ≡ false → next_of line.now ≡ Nothing → ⊥ }
{
    matches!(line, Line::End)
}

/// The end of a script with as many lines as it may have, and how many they are. The error is the limit on lines where a further
/// one begins, a failure of the input, or want of memory.
pub fn end_lines<I: Source>(
    alloc: Global,
    input: &mut I,
    reader: &mut LineReader,
) -> Result<u32, Halt>
    ensures { (w : World) → Goes (λ count. count) (λ last. line_part 0 (past_last LINE_COUNT_LIMIT last))
        (on_input w (unread reader.old (I.seen input.old))) result (on_input w (unread reader.new (I.seen input.new))) }
{
    let line = next_line(alloc, input, reader, 0)?;
    if is_end(&line) {
        return Ok(LINE_COUNT_LIMIT);
    }
    Err(Halt::Because(Cause::Limited(Limit::Lines(LINE_COUNT_LIMIT))))
}
