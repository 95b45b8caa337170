//! The lines of a script, one after another.
ghost use Rattle.std.specs.Prelude.{◌≡◌, ◌≤◌, ◌+◌, []};
ghost use Rattle.script_text.specs.Lines.{order_of};
ghost use Rattle.line_reader.specs.Reads.{unread};
ghost use Rattle.top_plan.specs.World.{World};
ghost use Rattle.top_plan.specs.Parts.{Goes};
ghost use Rattle.top_session.specs.declared.limits.TheConstants.{LINE_COUNT_LIMIT};
ghost use Rattle.top_session.specs.SessionPlan.{order_part, lines_part};
ghost use Rattle.top_session.specs.Parts.{on_two, on_three};

use crate::limits::{BAD_LINE, LINE_COUNT_LIMIT, LINE_LIMIT};
use crate::lines::{end_lines, next_line};
use crate::orders::{add_trace, emit_named, remove_trace};
use br_outside::{Shelf, Sink, Source};
use line_reader::{Line, LineReader};
use script_text::{BadLine, Order, read_line};
use session_core::Session;
use std::alloc::Global;
use top_plan::{Cause, Halt};

/// Does what the line with this number asks. The error is its refusal, or that of what it asks.
fn do_line<F: Shelf, O: Sink>(
    alloc: Global,
    shelf: &mut F,
    out: &mut O,
    digest: &[u8; 32],
    session: &mut Session<()>,
    text: &[u8],
    line: u32,
) -> Result<(), Halt>
    requires few { session.old.next ≤ line }
    requires number { line ≤ LINE_COUNT_LIMIT }
    ensures goes { (w : World) → Goes (λ done. session.new) (order_part digest.now line session.old (order_of text.now))
        (on_two w (F.seen shelf.old) (O.seen out.old)) result (on_two w (F.seen shelf.new) (O.seen out.new)) }
    ensures few { session.new.next ≤ line + 1 }
{
    match read_line(text) {
        Ok(Order::Nothing) => Ok(()),
        Ok(Order::Add(name)) => add_trace(alloc, shelf, out, digest, session, name, line),
        Ok(Order::Remove(number)) => remove_trace(alloc, out, session, number, line),
        Ok(Order::Emit(name)) => emit_named(alloc, shelf, out, session, name),
        Err(BadLine) => Err(Halt::Because(Cause::RefusedLine {
            line,
            number: BAD_LINE,
            place: 0,
        })),
    }
}

/// Does what the lines ask, one after another, and answers how many there are.
///
/// The error is that of the first line that has one: the limit on lines before all else of a line, then its refusal, then what it
/// asks; or a failure of the input, or want of memory.
pub fn do_lines<F: Shelf, I: Source, O: Sink>(
    alloc: Global,
    shelf: &mut F,
    input: &mut I,
    out: &mut O,
    reader: &mut LineReader,
    digest: &[u8; 32],
    session: &mut Session<()>,
) -> Result<u32, Halt>
    requires { session.old.next ≡ 1 }
    ensures { (w : World) → Goes (λ count. count) (lines_part digest.now LINE_COUNT_LIMIT 0 session.old)
        (on_three w (F.seen shelf.old) (unread reader.old (I.seen input.old)) (O.seen out.old)) result
        (on_three w (F.seen shelf.new) (unread reader.new (I.seen input.new)) (O.seen out.new)) }
{
    for done in 0..LINE_COUNT_LIMIT {
        match next_line(alloc, input, reader, LINE_LIMIT)? {
            Line::End => return Ok(done),
            Line::Long => {
                return Err(Halt::Because(Cause::RefusedLine {
                    line: done + 1,
                    number: BAD_LINE,
                    place: 0,
                }));
            }
            Line::Whole(text) => {
                do_line(
                    alloc,
                    shelf,
                    out,
                    digest,
                    session,
                    text.as_slice(),
                    done + 1,
                )?;
            }
        }
    }
    end_lines(alloc, input, reader)
}
