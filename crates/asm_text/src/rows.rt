//! The lines of a source with their numbers, addresses and forms.
ghost use Rattle.std.specs.Prelude.{◌≡◌, ◌+◌, ◌*◌, ◌<◌, ◌≤◌, OnSome, length, drop};
ghost use Rattle.std.specs.List.{position};
ghost use Rattle.script_text.specs.Split.{is_end};
ghost use Rattle.asm_text.specs.Source.{size_in, rows_in};
ghost use Rattle.asm_text.specs.declared.limits.TheConstants.{SOURCE_LIMIT};
ghost use Rattle.asm_text.specs.Reads.{line_length, seen_form, IsGood, IsRoomy, rows_at, end_at, end_of, ReadsRow};

use asm_line::{Form, form_of, lines_give_forms, size_of_form};
use elf_flat::FLAT_ENTRY;

/// A line of a source: its number from 1, its address and its form, if it has one.
#[derive(Drop)]
pub struct Row<'a> {
    pub number: u32,
    pub at: u32,
    pub form: Option<Form<'a>>,
}

/// A place between the lines of a source.
#[derive(Drop)]
pub struct Place<'a> {
    /// The bytes of the lines that are left.
    rest: &'a [u8],
    /// The number of the next line.
    number: u32,
    /// The address of the next line.
    at: u32,
}

/// Where the first LF stands.
fn first_end(bytes: &[u8]) -> Option<usize>
    ensures { result ≡ position is_end bytes.now }
{
    bytes.iter().position(|byte| *byte == b'\n')
}

/// How many bytes stand before the first LF, or in all where there is none.
fn line_length(bytes: &[u8]) -> usize
    ensures value { result ≡ line_length bytes.now }
    ensures few { result ≤ length bytes.now }
{
    match first_end(bytes) {
        Some(end) => end,
        None => bytes.len(),
    }
}

/// What stands behind a line of so many bytes and its LF, if it has one.
fn behind_line(bytes: &[u8], count: usize) -> &[u8]
    requires { count ≤ length bytes.now }
    ensures { result.now ≡ drop (count + 1) bytes.now }
{
    if count < bytes.len() {
        &bytes[count + 1..]
    } else {
        &[]
    }
}

/// How many bytes a form gives, none where there is no form.
fn size_in(form: &Option<Form>) -> u32
    requires { IsGood form.now }
    ensures size { result ≡ size_in (seen_form form.now) }
    ensures small { result ≤ 64 }
{
    match form {
        Some(form) => size_of_form(form),
        None => 0,
    }
}

impl<'a> Place<'a> {
    /// The place before the first line.
    pub fn first(source: &'a [u8]) -> Place<'a>
        requires { length source.now ≤ SOURCE_LIMIT }
        ensures rows { rows_at result ≡ rows_in source.now }
        ensures ends { end_at result ≡ end_of source.now }
        ensures room { IsRoomy result }
    {
        lines_give_forms();
        Place {
            rest: source,
            number: 1,
            at: FLAT_ENTRY,
        }
    }

    /// The address behind the lines before the place.
    pub fn at(&self) -> u32
        ensures { result ≡ self.now.at }
    {
        self.at
    }

    /// Reads the next line and goes behind it.
    pub fn next_row(&mut self) -> Option<Row<'a>>
        requires { IsRoomy self.old }
        ensures rows { ReadsRow result (rows_at self.old) (rows_at self.new) }
        ensures ends { end_at self.new ≡ end_at self.old }
        ensures room { IsRoomy self.new }
        ensures fewer { OnSome result (length self.new.rest.now < length self.old.rest.now) }
    {
        if self.rest.is_empty() {
            return None;
        }
        lines_give_forms();
        let count = line_length(self.rest);
        let form = form_of(&self.rest[..count], self.at);
        let row = Row {
            number: self.number,
            at: self.at,
            form,
        };
        self.at += size_in(&row.form);
        self.number += 1;
        self.rest = behind_line(self.rest, count);
        Some(row)
    }
}
