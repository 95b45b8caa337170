//! Texts that are printed.
ghost use Rattle.top_plan.specs.World.{World, on_out};
ghost use Rattle.top_plan.specs.Parts.{Goes};
ghost use Rattle.top_plan.specs.Parts.{prints};

use crate::ends::{Halt, Object};
use br_outside::{Sink, SinkError};

/// Prints a text at once, unless it is empty. The error is a failure of the output, after which a front
/// part of the text was written, or want of memory, after which nothing was.
pub fn print_text<O: Sink>(out: &mut O, text: &[u8]) -> Result<(), Halt>
    ensures { (w : World) → Goes (λ x. x) (λ next. prints text.now (next tt))
        (on_out w (O.seen out.old)) result (on_out w (O.seen out.new)) }
{
    if text.is_empty() {
        return Ok(());
    }
    match out.give(text) {
        Ok(()) => Ok(()),
        Err(SinkError::Failed) => Err(Halt::Outside(Object::Output)),
        Err(SinkError::Memory) => Err(Halt::Memory),
    }
}
