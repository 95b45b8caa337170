//! Lines of a source.
ghost use Rattle.std.specs.Prelude.{◌≡◌, ◌≤◌, nat_eq, if◌then◌else◌, [], length, drop};
ghost use Rattle.std.specs.Result.{result_map_both};
ghost use Rattle.top_plan.specs.declared.pieces.TheConstants.{PIECE_LENGTH};
ghost use Rattle.line_reader.specs.Lines.{line_length, Nothing, Text};
ghost use Rattle.line_reader.specs.Reads.{next_of, unread, AsksLine, HoldsLine, Gathers, Refills};

use crate::line::{Line, LineError};
use br_outside::{Failed, Source};
use std::alloc::Global;
use std::marker::Model;
use top_plan::PIECE_LENGTH;

/// A reader of lines, which takes its source piece by piece.
///
/// It is seen as the bytes that it has taken and that no line has used yet.
#[derive(Drop)]
pub struct LineReader {
    /// The last piece.
    piece: [u8; PIECE_LENGTH as usize],
    /// Where the bytes begin that no line has used.
    start: usize,
    /// Where the bytes end that were taken.
    end: usize,
}

impl Model for LineReader {
    ghost use Rattle.std.specs.Prelude.{◌≤◌, ℕ, List, slice_range};
    ghost use Rattle.top_plan.specs.declared.pieces.TheConstants.{PIECE_LENGTH};

    ghost Value = { List ℕ };

    ghost view = { λ r. slice_range r.piece r.start r.end };

    ghost invariant = { λ r. (r.start ≤ r.end) × (r.end ≤ PIECE_LENGTH) };
}

/// How far a line has come in what is held.
#[derive(Clone, Copy, Debug, PartialEq, Eq)]
enum Found {
    /// It has more bytes than it may have.
    Long,
    /// Its LF is there.
    Whole,
    /// It goes on behind it.
    Part,
}

/// How many bytes stand before the first LF, or in all where there is none.
fn line_length(bytes: &[u8]) -> usize
    ensures value { result ≡ line_length bytes.now }
    ensures few { result ≤ length bytes.now }
{
    for at in 0..bytes.len() {
        if bytes[at] == b'\n' {
            return at;
        }
    }
    bytes.len()
}

/// The line at the end of a source, or its end.
fn last_line(line: Vec<u8>) -> Line
    ensures { next_of result ≡ (if nat_eq (length line.items) 0 then Nothing else Text line.items) }
{
    if line.is_empty() {
        Line::End
    } else {
        Line::Whole(line)
    }
}

impl LineReader {
    /// A reader that has taken nothing.
    pub fn new() -> LineReader
        ensures { result ≡ [] }
    {
        LineReader {
            piece: [0; PIECE_LENGTH as usize],
            start: 0,
            end: 0,
        }
    }

    /// How many bytes were taken and not used, at most [`PIECE_LENGTH`](top_plan::PIECE_LENGTH).
    pub fn ahead(&self) -> usize
        ensures count { result ≡ length self.now }
        ensures few { result ≤ PIECE_LENGTH }
    {
        self.end - self.start
    }

    /// The bytes that no line has used.
    fn held(&self) -> &[u8]
        ensures { result.now ≡ self.now }
    {
        &self.piece[self.start..self.end]
    }

    /// Uses the first of the bytes that are held.
    fn pass(&mut self, count: usize)
        requires { count ≤ length self.old }
        ensures { self.new ≡ drop count self.old }
    {
        self.start += count;
    }

    /// Goes on with a line in what is held. After an error nothing more is used.
    fn gather(&mut self, line: &mut Vec<u8>, limit: u32) -> Result<Found, LineError>
        requires { length line.old.items ≤ limit }
        ensures { Gathers limit result line.old.items line.new.items self.old self.new }
    {
        let length = line_length(self.held());
        let ahead = self.ahead();
        let before = line.len();
        let most = limit as usize;
        if before + length > most {
            self.pass(most + 1 - before);
            return Ok(Found::Long);
        }
        line.extend_from_slice(&self.held()[..length])?;
        if length < ahead {
            self.pass(length + 1);
            return Ok(Found::Whole);
        }
        self.pass(length);
        Ok(Found::Part)
    }

    /// Takes a piece of the source, and answers whether there was one.
    fn refill<I: Source>(&mut self, input: &mut I) -> Result<bool, LineError>
        requires { self.old ≡ [] }
        ensures { Refills result self.new (I.seen input.old) (I.seen input.new) }
    {
        self.start = 0;
        self.end = 0;
        match input.take(&mut self.piece) {
            Err(Failed) => Err(LineError::Failed),
            Ok(count) => {
                self.end = count;
                Ok(count > 0)
            }
        }
    }

    /// Reads the next line, of at most `limit` bytes and without its LF.
    ///
    /// A line ends with LF or with the end of the source; where the source ends with LF, no line comes after it. A line of more
    /// bytes is answered as soon as `limit + 1` of them are there, and these are used. A piece of at most
    /// [`PIECE_LENGTH`](top_plan::PIECE_LENGTH) bytes is taken only where what is held has no LF and is no longer than `limit`.
    ///
    /// Errors: [`LineError::Failed`] where the source fails, and [`LineError::Memory`]. After them the bytes of this line that were
    /// taken are lost, and less of them than a line uses.
    pub fn next_line<I: Source>(
        &mut self,
        alloc: Global,
        input: &mut I,
        limit: u32,
    ) -> Result<Line, LineError>
        ensures line { AsksLine limit (result_map_both next_of (λ e. e) result)
            (unread self.old (I.seen input.old)) (unread self.new (I.seen input.new)) }
        ensures idle { HoldsLine limit self.old → I.seen input.new ≡ I.seen input.old }
    {
        let mut line = Vec::new(alloc);
        loop {
            match self.gather(&mut line, limit)? {
                Found::Long => return Ok(Line::Long),
                Found::Whole => return Ok(Line::Whole(line)),
                Found::Part => {}
            }
            if !self.refill(input)? {
                return Ok(last_line(line));
            }
        }
    }
}
