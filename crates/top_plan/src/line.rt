//! Report lines that take no memory: they are written into a piece of bytes from its end, so that each part stands before
//! what is there already.
ghost use Rattle.std.specs.Prelude.{◌≡◌, ◌≤◌, ◌+◌, ◌++◌, length, drop, codes};
ghost use Rattle.std.specs.Fmt.{decimal};
ghost use Rattle.top_plan.specs.Texts.{limit_name, limit_number, limit_text, refused_text, cause_text, usage_text};

use crate::ends::{Cause, Limit};

/// How many bytes there are for such a line: more than three numbers of ten digits and their words take.
pub const LINE_ROOM: usize = 64;

/// Writes a text so that it ends at `end`, and answers where it begins.
fn text_before(text: &[u8], line: &mut [u8], end: usize) -> usize
    requires { (length text.now ≤ end) × (end ≤ length line.old) }
    ensures start { result + length text.now ≡ end }
    ensures written { drop result line.new ≡ text.now ++ drop end line.old }
    ensures room { length line.new ≡ length line.old }
{
    let start = end - text.len();
    line[start..end].copy_from_slice(text);
    start
}

/// Writes the digits of a number so that they end at `end`, and answers where they begin.
fn number_before(number: u32, line: &mut [u8], end: usize) -> usize
    requires { (10 ≤ end) × (end ≤ length line.old) }
    ensures start { result + length (decimal number) ≡ end }
    ensures short { end ≤ result + 10 }
    ensures written { drop result line.new ≡ decimal number ++ drop end line.old }
    ensures room { length line.new ≡ length line.old }
{
    let mut left = number;
    let mut at = end;
    while left >= 10 {
        at -= 1;
        line[at] = b'0' + (left % 10) as u8;
        left /= 10;
    }
    at -= 1;
    line[at] = b'0' + left as u8;
    at
}

/// Writes a number and LF at the end of the line.
fn last_number(number: u32, line: &mut [u8]) -> usize
    requires { length line.old ≡ LINE_ROOM }
    ensures start { (53 ≤ result) × (result ≤ LINE_ROOM) }
    ensures written { drop result line.new ≡ decimal number ++ codes "\n" }
    ensures room { length line.new ≡ LINE_ROOM }
{
    let end = text_before(b"\n", line, LINE_ROOM);
    number_before(number, line, end)
}

/// Writes where a refusal stands, its number and its place at the end of the line.
fn refusal(at: u32, number: u32, place: u32, line: &mut [u8]) -> usize
    requires { length line.old ≡ LINE_ROOM }
    ensures start { (31 ≤ result) × (result ≤ LINE_ROOM) }
    ensures written { drop result line.new ≡ refused_text at number place }
    ensures room { length line.new ≡ LINE_ROOM }
{
    let end = last_number(place, line);
    let end = text_before(b" ", line, end);
    let end = number_before(number, line, end);
    let end = text_before(b" ", line, end);
    number_before(at, line, end)
}

impl Limit {
    /// The number of the limit.
    fn number(self) -> u32
        ensures { result ≡ limit_number self }
    {
        match self {
            Limit::File(number)
            | Limit::Edges(number)
            | Limit::Union(number)
            | Limit::Blocks(number)
            | Limit::Code(number)
            | Limit::Traces(number)
            | Limit::Lines(number) => number,
        }
    }

    /// What stands before the number in the report line.
    fn name(self) -> &'static str
        ensures { result.now ≡ limit_name self }
    {
        match self {
            Limit::File(_) => "limit file ",
            Limit::Edges(_) => "limit edges ",
            Limit::Union(_) => "limit union ",
            Limit::Blocks(_) => "limit blocks ",
            Limit::Code(_) => "limit code ",
            Limit::Traces(_) => "limit traces ",
            Limit::Lines(_) => "limit lines ",
        }
    }

    /// Writes the report line at the end of a piece, where the limit is passed, and answers where it begins.
    fn write(self, line: &mut [u8]) -> usize
        requires { length line.old ≡ LINE_ROOM }
        ensures start { result ≤ LINE_ROOM }
        ensures written { drop result line.new ≡ limit_text self }
        ensures room { length line.new ≡ LINE_ROOM }
    {
        let end = last_number(self.number(), line);
        text_before(self.name().as_bytes(), line, end)
    }
}

impl Cause {
    /// Writes the report line of a cause at the end of a piece, and answers where it begins.
    pub fn write(self, line: &mut [u8]) -> usize
        requires { length line.old ≡ LINE_ROOM }
        ensures start { result ≤ LINE_ROOM }
        ensures written { drop result line.new ≡ cause_text self }
        ensures room { length line.new ≡ LINE_ROOM }
    {
        match self {
            Cause::RefusedWord {
                word,
                number,
                place,
            } => {
                let end = refusal(word, number, place, line);
                text_before(b"refused word ", line, end)
            }
            Cause::RefusedLine {
                line: at,
                number,
                place,
            } => {
                let end = refusal(at, number, place, line);
                text_before(b"refused line ", line, end)
            }
            Cause::Limited(limit) => limit.write(line),
        }
    }
}

/// Writes the report line of words that are no command at the end of a piece, and answers where it begins.
pub fn write_usage(word: u32, line: &mut [u8]) -> usize
    requires { length line.old ≡ LINE_ROOM }
    ensures start { result ≤ LINE_ROOM }
    ensures written { drop result line.new ≡ usage_text word }
    ensures room { length line.new ≡ LINE_ROOM }
{
    let end = last_number(word, line);
    text_before(b"usage ", line, end)
}
