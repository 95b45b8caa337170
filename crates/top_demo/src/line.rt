//! The line of the demonstration.
ghost use Rattle.std.specs.Prelude.{◌≡◌, IfOk, string_bytes};
ghost use Rattle.br_outside.specs.Forms.{calm_written};
ghost use Rattle.top_demo.specs.DemoPlan.{runs_text};

use crate::runs::Shown;
use show_text::bytes_text;
use std::alloc::{AllocError, Global};

/// What two runs have shown, as the line ends. The error is want of memory.
pub fn runs_text(alloc: Global, first: &Shown, second: &Shown) -> Result<String, AllocError>
    ensures { IfOk result (λ text. string_bytes text
        ≡ runs_text (calm_written first.now.out) (calm_written second.now.out) first.now.steps second.now.steps) }
{
    let first_out = bytes_text(alloc, first.out.written())?;
    let second_out = bytes_text(alloc, second.out.written())?;
    let first_steps = first.steps;
    let second_steps = second.steps;
    format!(in alloc; " out {first_out} {second_out} steps {first_steps} {second_steps}\n")
}
