//! Undefined flags, and memory that is not reached, do not matter to a well-defined run.

ghost use Rattle.std.specs.Prelude.{◌≡◌, ℕ, List, []};
ghost use Rattle.br_word.specs.State.{State};
ghost use Rattle.run_model.specs.Run.{observed, run, WellDefined};
ghost use Rattle.sim_laws.specs.Wider.{RunsWider};

/// A guest with further regions below all of its own, and with other values in the flags that are not
/// defined, follows a well-defined run, whatever bits undefined flags take.
pub fn runs_wider()
    ensures { RunsWider }
{}

/// Whatever bits a processor puts into undefined flags, a run that is well defined shows the same,
/// stands at the same address and has the same registers and memory.
pub fn choices_agree()
    ensures { (n : ℕ) (s : State) (choices : List ℕ) → WellDefined n s →
        (observed (run n s choices) ≡ observed (run n s []))
        × ((run n s choices).eip ≡ (run n s []).eip)
        × ((run n s choices).cpu.regs ≡ (run n s []).cpu.regs)
        × ((run n s choices).cpu.marks ≡ (run n s []).cpu.marks)
        × ((run n s choices).regions ≡ (run n s []).regions) }
{
    runs_wider();
}
