//! Laws of the states and runs of a guest. Each is the contract of a call that does nothing, so that a proof above can cite it.

ghost use Rattle.run_model.specs.Sound.{ActsKeep, KeepsSound, LoadsFit, OpensSoundly, RunsKeepSound, StoresBytes};
ghost use Rattle.run_model.specs.Split.{EdgesSplit, RunsSplit, WellDefinedSplits};

use ia_decode::read_is_valid;
use ia_inst::each_fits;

/// What is loaded from memory of bytes fits its size, and after a store memory holds bytes.
pub fn memory_of_bytes()
    ensures load { LoadsFit }
    ensures store { StoresBytes }
{}

/// A step from a sound state leads to a sound one with the same instruction at each address, whatever
/// bits undefined flags take, and also where it faults; and so does a run. `act` is the part for a
/// processor and memory alone: an act that fits leaves registers, memory of bytes and an address.
pub fn keeps_sound()
    ensures step { KeepsSound }
    ensures run { RunsKeepSound }
    ensures act { ActsKeep }
{
    each_fits();
    read_is_valid();
}

/// Every file of bytes begins soundly, with words and an input of bytes, also one that is refused.
pub fn opens_soundly()
    ensures { OpensSoundly }
{}

/// A run of n + m steps is one of n steps and then one of m: its state, its edges, and whether it is
/// well defined.
pub fn runs_split()
    ensures state { RunsSplit }
    ensures edges { EdgesSplit }
    ensures defined { WellDefinedSplits }
{}
