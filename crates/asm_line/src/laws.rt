//! Laws of forms.

ghost use Rattle.asm_line.specs.Laws.{FormsAreValid, FormsAreShort, FormsAreSized, FormsGiveBytes, TransfersAreValid};

/// The form of a line can be written, and a line of `k` bytes gives at most `3 * k`.
pub fn lines_give_forms()
    ensures valid { FormsAreValid }
    ensures short { FormsAreShort }
{}

/// A form gives as many bytes as its size says.
pub fn forms_give_bytes()
    ensures sized { FormsAreSized }
    ensures bytes { FormsGiveBytes }
{}

/// The instruction of a transfer to a label has an encoding.
pub fn transfers_are_valid()
    ensures { TransfersAreValid }
{}
