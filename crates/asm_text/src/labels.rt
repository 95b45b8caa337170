//! The labels of a source.
ghost use Rattle.std.specs.Prelude.{◌≤◌, Some, length};
ghost use Rattle.asm_line.specs.Forms.{Label, formed};
ghost use Rattle.asm_text.specs.declared.limits.TheConstants.{SOURCE_LIMIT};
ghost use Rattle.asm_text.specs.Reads.{seen_form, AddsRow, FindsLabels};

use crate::errors::AsmError;
use crate::rows::{Place, Row};
use asm_line::Form;
use std::alloc::Global;
use std::collections::BTreeMap;

/// Adds the label that a line is. It is refused where there is a label of this name.
fn add_label<'a>(
    labels: &mut BTreeMap<&'a [u8], u32>,
    name: &'a [u8],
    number: u32,
    at: u32,
) -> Result<(), AsmError>
    ensures { AddsRow result number at (Some (Label name.now)) labels.old labels.new }
{
    match labels.insert(name, at) {
        Ok(None) => Ok(()),
        Ok(Some(_)) => Err(AsmError::Refused {
            number: 42,
            line: number,
        }),
        Err(_) => Err(AsmError::Memory),
    }
}

/// Adds the label that a form is, if it is one.
fn add_form<'a>(
    labels: &mut BTreeMap<&'a [u8], u32>,
    form: &Form<'a>,
    number: u32,
    at: u32,
) -> Result<(), AsmError>
    ensures { AddsRow result number at (Some (formed form.now)) labels.old labels.new }
{
    match form {
        Form::Label(name) => add_label(labels, name, number, at),
        _ => Ok(()),
    }
}

/// Adds the label of a row, if it is one. A row without a form is refused.
fn add_row<'a>(labels: &mut BTreeMap<&'a [u8], u32>, row: &Row<'a>) -> Result<(), AsmError>
    ensures { AddsRow result row.now.number row.now.at (seen_form row.now.form) labels.old labels.new }
{
    match &row.form {
        Some(form) => add_form(labels, form, row.number, row.at),
        None => Err(AsmError::Refused {
            number: 41,
            line: row.number,
        }),
    }
}

/// The labels of a source with their addresses, and the address behind its bytes.
///
/// Errors: [`AsmError::Refused`] with 41 or 42, as [`assemble`](crate::assemble) says, and [`AsmError::Memory`].
pub fn labels_of<'a>(
    alloc: Global,
    source: &'a [u8],
) -> Result<(BTreeMap<&'a [u8], u32>, u32), AsmError>
    requires { length source.now ≤ SOURCE_LIMIT }
    ensures { FindsLabels result source.now }
{
    let mut labels = BTreeMap::new(alloc);
    let mut place = Place::first(source);
    while let Some(row) = place.next_row() {
        add_row(&mut labels, &row)?;
    }
    Ok((labels, place.at()))
}
