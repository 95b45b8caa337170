//! Laws of steps and bounded runs.
ghost use Rattle.guest_run.specs.BoundedRun.{StepsHold, RunsHold, BreaksHold};
ghost use Rattle.guest_run.specs.InputUse.{StepsUseInput};

/// Steps that a live guest takes, over any objects: they are counted, no count of a fault changes, and over an input that
/// tells what it has left they are the steps of the run, with its edges in order.
pub fn steps_hold()
    ensures { StepsHold }
{}

/// The same of a whole run in which no step fails.
pub fn runs_hold()
    ensures { RunsHold }
{}

/// The same of steps and one more that fails: only the count of the object of the error has risen.
pub fn breaks_hold()
    ensures { BreaksHold }
{}

/// A step uses, of what it asks of the input, all that is there.
pub fn input_is_used()
    ensures { StepsUseInput }
{}
