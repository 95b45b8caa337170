//! The form of a line.

ghost use Rattle.std.specs.Prelude.{◌≡◌, option_map, IfSome, IsTrue};
ghost use Rattle.asm_inst.specs.Operands.{or_else};
ghost use Rattle.asm_line.specs.Forms.{label_line, byte_line, transfer_line, instruction_line, statement_of, form_of, formed, is_form};

use crate::digits::are_digits;
use crate::labels::is_label;
use crate::transfers::{Transfer, transfer_of};
use asm_inst::{one_of, read_inst, split};
use ia_inst::Inst;
use std::str;

/// What a line of a source is.
#[derive(Clone, Copy, Debug)]
pub enum Form<'a> {
    /// The empty line.
    Nothing,
    /// `NAME:`, the place of a label.
    Label(&'a [u8]),
    /// `  byte DIGITS`, bytes by their digits, two a byte.
    Bytes(&'a [u8]),
    /// Two spaces and the text of an instruction.
    Stands(Inst),
    /// Two spaces, the mnemonic of a transfer and the label that it goes to.
    Goes(Transfer, &'a [u8]),
}

fn label_line(line: &[u8]) -> Option<Form<'_>>
    ensures { option_map formed result ≡ label_line line.now }
{
    let name = line.strip_suffix(b":")?;
    if is_label(name) {
        Some(Form::Label(name))
    } else {
        None
    }
}

fn byte_line(text: &[u8]) -> Option<Form<'_>>
    ensures { option_map formed result ≡ byte_line text.now }
{
    let digits = text.strip_prefix(b"byte ")?;
    if are_digits(digits) {
        Some(Form::Bytes(digits))
    } else {
        None
    }
}

fn transfer_line(text: &str) -> Option<Form<'_>>
    ensures { option_map formed result ≡ transfer_line text.now }
{
    let (name, label) = split(text, ' ')?;
    let kind = transfer_of(one_of(name)?)?;
    let label = label.as_bytes();
    if is_label(label) {
        Some(Form::Goes(kind, label))
    } else {
        None
    }
}

/// A transfer to a label or an instruction.
fn instruction_line(text: &str, at: u32) -> Option<Form<'_>>
    ensures { option_map formed result ≡ or_else (transfer_line text.now) (instruction_line text.now at) }
{
    if let Some(form) = transfer_line(text) {
        return Some(form);
    }
    let inst = read_inst(text, at)?;
    Some(Form::Stands(inst))
}

fn text_line(text: &[u8], at: u32) -> Option<Form<'_>>
    ensures { option_map formed result ≡ or_else (transfer_line text.now) (instruction_line text.now at) }
{
    match str::from_utf8(text) {
        Ok(text) => instruction_line(text, at),
        // labels and the texts of instructions are ASCII
        Err(_) => None,
    }
}

/// What stands behind the two spaces of a line.
fn statement_of(text: &[u8], at: u32) -> Option<Form<'_>>
    ensures { option_map formed result ≡ statement_of text.now at }
{
    if let Some(form) = byte_line(text) {
        return Some(form);
    }
    text_line(text, at)
}

#[tactic(auto, unfolding(crate::specs::Forms::form_of))]
fn read_form(line: &[u8], at: u32) -> Option<Form<'_>>
    ensures { option_map formed result ≡ form_of line.now at }
{
    if line.is_empty() {
        return Some(Form::Nothing);
    }
    if let Some(form) = label_line(line) {
        return Some(form);
    }
    let text = line.strip_prefix(b"  ")?;
    statement_of(text, at)
}

/// The form of a line of a source, without its LF, that stands at an address. It takes no memory.
///
/// A line is empty; or a label and `:`; or two spaces, `byte`, a space and the digits of 1 to
/// [`BYTE_LIMIT`](crate::BYTE_LIMIT) bytes, two lower-case hexadecimal digits each; or two spaces and the mnemonic of a
/// conditional jump, JMP or CALL, a space and a label; or two spaces and the text of an instruction at the address, as
/// [`read_inst`] reads it. A label is as [`is_label`](crate::is_label) says. It is `None` exactly where the line is none of these.
pub fn form_of<'a>(line: &'a [u8], at: u32) -> Option<Form<'a>>
    ensures form { option_map formed result ≡ form_of line.now at }
    ensures valid { IfSome result (λ form. IsTrue (is_form (formed form))) }
{
    read_form(line, at)
}
