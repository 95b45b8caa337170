//! `session E`: the lines of the input, which add traces of an original and take them away, and store its files.
ghost use Rattle.std.specs.Prelude.{◌≡◌, []};
ghost use Rattle.elf_read.specs.Elf.{IsOriginal};
ghost use Rattle.session_core.specs.Session.{new_session};
ghost use Rattle.line_reader.specs.Reads.{unread};
ghost use Rattle.top_plan.specs.World.{World};
ghost use Rattle.top_plan.specs.Plan.{Script, Went};
ghost use Rattle.top_plan.specs.Texts.{end_of};
ghost use Rattle.top_session.specs.declared.limits.TheConstants.{LINE_COUNT_LIMIT};
ghost use Rattle.top_session.specs.Lines.{lines_end};
ghost use Rattle.top_session.specs.SessionPlan.{lines_part, session_plan};
ghost use Rattle.top_session.specs.Parts.{on_three};

use crate::follow::do_lines;
use crate::texts::lines_text;
use br_outside::{Shelf, Sink, Source};
use line_reader::LineReader;
use session_core::Session;
use std::alloc::Global;
use top_files::{Subject, fetch_subject};
use top_plan::{Finish, Halt, Outcome};

/// The session of a script whose bytes come from the reader, and the report line. The error is as that of [`do_lines`].
fn read_script<F: Shelf, I: Source, O: Sink>(
    alloc: Global,
    shelf: &mut F,
    input: &mut I,
    out: &mut O,
    reader: &mut LineReader,
    subject: Subject,
) -> Result<Outcome, Halt>
    requires { IsOriginal subject.exe }
    ensures { (w : World)
        → Went (lines_part subject.digest LINE_COUNT_LIMIT 0 (new_session subject.exe) lines_end)
        (on_three w (F.seen shelf.old) (unread reader.old (I.seen input.old)) (O.seen out.old)) (end_of result)
        (on_three w (F.seen shelf.new) (unread reader.new (I.seen input.new)) (O.seen out.new)) }
{
    let Subject { exe, digest } = subject;
    let mut session = Session::of(alloc, exe)?;
    let count = do_lines(alloc, shelf, input, out, reader, &digest, &mut session)?;
    let line = lines_text(alloc, count)?;
    Ok(Outcome {
        finish: Finish::Done,
        line: Some(line),
    })
}

/// Follows a script, which is the input. What was taken ahead of its lines is lost.
fn follow_script<F: Shelf, I: Source, O: Sink>(
    alloc: Global,
    shelf: &mut F,
    input: &mut I,
    out: &mut O,
    subject: Subject,
) -> Result<Outcome, Halt>
    requires { IsOriginal subject.exe }
    ensures { (w : World)
        → Went (Script (lines_part subject.digest LINE_COUNT_LIMIT 0 (new_session subject.exe) lines_end))
        (on_three w (F.seen shelf.old) (I.seen input.old) (O.seen out.old)) (end_of result)
        (on_three w (F.seen shelf.new) (I.seen input.new) (O.seen out.new)) }
{
    let mut reader = LineReader::new();
    let end = read_script(alloc, shelf, input, out, &mut reader, subject);
    let _ahead = reader.ahead();
    end
}

/// `session E`: does what the lines of the input ask, one after another, for the original E, and answers the report line.
///
/// `add NAME` adds a trace of E, `remove K` takes the trace with the number K away, `emit NAME` stores the executable for the live
/// traces; each prints a line once it is done.
///
/// The error is the first cause in the order of the work: a failure of the shelf at E, its limit or its refusal; then that of the
/// first line that has one; a failure of the input or the output; or want of memory. Up to a piece of the input may be taken
/// beyond the lines that were done.
pub fn session_command<F: Shelf, I: Source, O: Sink>(
    alloc: Global,
    shelf: &mut F,
    input: &mut I,
    out: &mut O,
    original: &str,
) -> Result<Outcome, Halt>
    ensures { (w : World) → Went (session_plan original.now)
        (on_three w (F.seen shelf.old) (I.seen input.old) (O.seen out.old)) (end_of result)
        (on_three w (F.seen shelf.new) (I.seen input.new) (O.seen out.new)) }
{
    let subject = fetch_subject(alloc, shelf, original, 1)?;
    follow_script(alloc, shelf, input, out, subject)
}
