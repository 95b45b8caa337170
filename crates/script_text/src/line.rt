//! One line of a script.
ghost use Rattle.std.specs.Prelude.{◌≡◌, true, MatchOption};
ghost use Rattle.script_text.specs.Lines.{is_text_name, number_of, order_of};
ghost use Rattle.script_text.specs.Reads.{ReadsName, ReadsRemove, Reads};

use std::str;
use word_reader::{NAME_LIMIT, read_digits};

/// The most digits of a trace's number in a script.
pub const NUMBER_DIGIT_LIMIT: usize = 9;

/// What a line of a script asks.
#[derive(Clone, Copy, Debug, PartialEq, Eq)]
pub enum Order<'a> {
    /// The empty line: nothing.
    Nothing,
    /// `add NAME`: fetch the trace of the name, of 1 to [`NAME_LIMIT`] bytes, and add it.
    Add(&'a str),
    /// `remove K`: take away the trace of the number, which has 1 to [`NUMBER_DIGIT_LIMIT`] digits.
    Remove(u32),
    /// `emit NAME`: store the new executable under the name, of 1 to [`NAME_LIMIT`] bytes.
    Emit(&'a str),
}

/// A line that asks nothing that a session does.
#[derive(Clone, Copy, Debug, PartialEq, Eq)]
pub struct BadLine;

/// The name that stands behind a word and a space.
fn read_name(bytes: &[u8]) -> Result<&str, BadLine>
    ensures { ReadsName result bytes.now }
{
    if bytes.is_empty() || bytes.len() > NAME_LIMIT {
        return Err(BadLine);
    }
    match str::from_utf8(bytes) {
        Ok(name) => Ok(name),
        Err(_) => Err(BadLine),
    }
}

/// The number that stands behind `remove` and a space.
fn read_remove(digits: &[u8]) -> Result<u32, BadLine>
    ensures { ReadsRemove result digits.now }
{
    match read_digits(digits, NUMBER_DIGIT_LIMIT) {
        Some(number) => Ok(number as u32),
        None => Err(BadLine),
    }
}

/// Reads one line of a script, without its LF. It takes no memory.
///
/// One space stands behind the word `add`, `emit` or `remove`. A name is the rest of the line, UTF-8 of
/// 1 to [`NAME_LIMIT`] bytes; a number is the rest of the line, 1 to [`NUMBER_DIGIT_LIMIT`] decimal digits,
/// zeros before it among them.
///
/// Errors: [`BadLine`] exactly where the line is neither empty nor of one of these forms.
pub fn read_line(line: &[u8]) -> Result<Order<'_>, BadLine>
    ensures { Reads result line.now }
{
    if line.is_empty() {
        return Ok(Order::Nothing);
    }
    if let Some(name) = line.strip_prefix(b"add ") {
        return Ok(Order::Add(read_name(name)?));
    }
    if let Some(name) = line.strip_prefix(b"emit ") {
        return Ok(Order::Emit(read_name(name)?));
    }
    if let Some(digits) = line.strip_prefix(b"remove ") {
        return Ok(Order::Remove(read_remove(digits)?));
    }
    Err(BadLine)
}
