//! From the laws of one instruction to the simulation.
ghost use Rattle.cold_laws.specs.Turns.{BeyondLands, CopiesTurn};

use piece_laws::captures_joined;
use sim_laws::goes_by_kind;

/// Where the instructions of copies stand in the code, each well-defined step of the original at a copied instruction is a turn of the
/// simulation of at most 130 steps.
pub fn copies_turn()
    ensures { CopiesTurn }
{
    goes_by_kind();
}

/// A side exit that leads to a copy is in that copy at once, and one that leads to the re-entry of a start comes to its block.
pub fn beyond_lands()
    ensures { BeyondLands }
{
    captures_joined();
}
