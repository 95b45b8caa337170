//! The bytes of a form.

ghost use Rattle.std.specs.Prelude.{◌≡◌, ◌++◌, ◌≤◌, OnOk, IsTrue};
ghost use Rattle.ia_inst.specs.Canonical.{valid_of, canonical};
ghost use Rattle.asm_line.specs.Forms.{is_form, formed, size_of_form, bytes_of_form};

use crate::digits::{count_bytes, put_digits};
use crate::lines::Form;
use crate::transfers::{instruction_of, size_of_transfer};
use ia_encode::encode;
use ia_inst::Inst;
use std::alloc::AllocError;

/// Appends the canonical spelling of a valid instruction. After want of memory `out` is as before.
fn put_inst(out: &mut Vec<u8>, inst: &Inst) -> Result<(), AllocError>
    requires { IsTrue (valid_of inst.now) }
    ensures { OnOk result (out.new.items ≡ out.old.items ++ canonical inst.now) }
{
    let mut code = [0; 15];
    let length = encode(inst, &mut code);
    out.extend_from_slice(&code[..length as usize])
}

/// How many bytes a form gives, at most 64: those of the canonical spelling of its instruction, or of its digits. It depends on no
/// address.
#[tactic(auto, unfolding(crate::specs::Forms::size_of_form))]
pub fn size_of_form(form: &Form) -> u32
    requires { IsTrue (is_form (formed form.now)) }
    ensures size { result ≡ size_of_form (formed form.now) }
    ensures small { result ≤ 64 }
{
    match form {
        Form::Nothing | Form::Label(_) => 0,
        Form::Bytes(digits) => count_bytes(digits),
        Form::Stands(inst) => u32::from(encode(inst, &mut [0; 15])),
        Form::Goes(kind, _) => size_of_transfer(*kind),
    }
}

/// Appends the bytes of a form that stands at an address, where the label that it goes to stands at `to`.
///
/// After want of memory `out` may have a part of the bytes.
#[tactic(auto, unfolding(crate::specs::Forms::bytes_of_form))]
pub fn put_form(out: &mut Vec<u8>, form: &Form, at: u32, to: u32) -> Result<(), AllocError>
    requires { IsTrue (is_form (formed form.now)) }
    ensures { OnOk result (out.new.items ≡ out.old.items ++ bytes_of_form (formed form.now) at to) }
{
    match form {
        Form::Nothing | Form::Label(_) => Ok(()),
        Form::Bytes(digits) => put_digits(out, digits),
        Form::Stands(inst) => put_inst(out, inst),
        Form::Goes(kind, _) => put_inst(out, &instruction_of(*kind, at, to)),
    }
}
