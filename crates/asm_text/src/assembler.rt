//! The assembler: labels first, and then bytes.
ghost use Rattle.std.specs.Prelude.{◌≡◌, ◌≤◌, ◌+◌, ◌*◌, [], length, Some, IfOk, IfErr, Ok};
ghost use Rattle.asm_line.specs.Forms.{formed};
ghost use Rattle.elf_flat.specs.Flat.{headed};
ghost use Rattle.asm_text.specs.declared.errors.AsmError.TheVariants.{Memory};
ghost use Rattle.asm_text.specs.declared.limits.TheConstants.{SOURCE_LIMIT};
ghost use Rattle.asm_text.specs.Source.{rows_in, assembled};
ghost use Rattle.asm_text.specs.Reads.{IsRefused, seen_row, IsGood, HasLabels, FindsLabel, FindsTarget, PutsRow, PutsRows};

use crate::errors::AsmError;
use crate::labels::labels_of;
use crate::limits::SOURCE_LIMIT;
use crate::rows::{Place, Row};
use asm_line::{Form, forms_give_bytes, put_form};
use elf_flat::{FLAT_ENTRY, flat_headers};
use std::alloc::Global;
use std::collections::BTreeMap;

/// The address of a label that a line goes to.
fn address_of<'a>(
    labels: &BTreeMap<&'a [u8], u32>,
    name: &'a [u8],
    line: u32,
) -> Result<u32, AsmError>
    ensures { FindsLabel result line name.now labels.now }
{
    match labels.get(&name).copied() {
        Some(to) => Ok(to),
        None => Err(AsmError::Refused { number: 43, line }),
    }
}

/// The address that a form goes to, and 0 where it goes to none.
fn goes_to<'a>(
    labels: &BTreeMap<&'a [u8], u32>,
    form: &Form<'a>,
    line: u32,
) -> Result<u32, AsmError>
    ensures { FindsTarget result line (Some (formed form.now)) labels.now }
{
    match form {
        Form::Goes(_, name) => address_of(labels, name, line),
        Form::Nothing | Form::Label(_) | Form::Bytes(_) | Form::Stands(_) => Ok(0),
    }
}

/// Appends the bytes of a row.
fn put_row<'a>(
    out: &mut Vec<u8>,
    labels: &BTreeMap<&'a [u8], u32>,
    row: &Row<'a>,
) -> Result<(), AsmError>
    requires { IsGood row.now.form }
    ensures { PutsRow result (seen_row row.now) labels.now out.old.items out.new.items }
{
    match &row.form {
        Some(form) => {
            let to = goes_to(labels, form, row.number)?;
            Ok(put_form(out, form, row.at, to)?)
        }
        None => Ok(()),
    }
}

/// Appends the bytes of the lines of a source.
fn put_rows<'a>(
    out: &mut Vec<u8>,
    labels: &BTreeMap<&'a [u8], u32>,
    source: &'a [u8],
) -> Result<(), AsmError>
    requires labels { HasLabels labels.now (rows_in source.now) }
    requires size { length source.now ≤ SOURCE_LIMIT }
    ensures { PutsRows result (rows_in source.now) (rows_in source.now) out.old.items out.new.items }
{
    let mut place = Place::first(source);
    while let Some(row) = place.next_row() {
        put_row(out, labels, &row)?;
    }
    Ok(())
}

/// The file of a length, with its headers alone and room for the rest.
fn headed(alloc: Global, length: u32) -> Result<Vec<u8>, AsmError>
    ensures ok { IfOk result (λ out. out.items ≡ headed length []) }
    ensures err { IfErr result (λ error. error ≡ Memory) }
{
    let mut out = Vec::with_capacity(alloc, length as usize)?;
    out.extend_from_slice(&flat_headers(length))?;
    Ok(out)
}

/// Assembles a source of at most [`SOURCE_LIMIT`] bytes: a flat file with the bytes of its lines.
///
/// A line ends with LF or with the end of the source, and is as [`form_of`](asm_line::form_of) says. The first line stands at
/// 0x08048054, and each other behind the bytes of those before it. A label stands for the address of what follows it.
///
/// Errors, the first of these that holds: [`AsmError::Refused`] with 41, where a line has none of the forms, or 42, where a label
/// stands for the second time, whichever line comes first; with 43, where a label that is used stands nowhere, and the line of the
/// first such use; with 44 and line 0, where the lines give no bytes. [`AsmError::Memory`] comes for want of memory alone.
pub fn assemble(alloc: Global, source: &[u8]) -> Result<Vec<u8>, AsmError>
    requires { length source.now ≤ SOURCE_LIMIT }
    ensures ok { IfOk result (λ file. assembled source.now ≡ Ok file.items) }
    ensures err { IfErr result (λ error. IsRefused error source.now) }
{
    forms_give_bytes();
    let (labels, end) = labels_of(alloc, source)?;
    let size = end - FLAT_ENTRY;
    let mut out = headed(alloc, 84 + size)?;
    put_rows(&mut out, &labels, source)?;
    if size == 0 {
        return Err(AsmError::Refused {
            number: 44,
            line: 0,
        });
    }
    Ok(out)
}
