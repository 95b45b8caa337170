//! The laws of fragments.
ghost use Rattle.sim_runs.specs.Pieces.{FragmentsRun};
ghost use Rattle.sim_runs.specs.WholeBlock.{AllLinesServe};
ghost use Rattle.sim_runs.specs.Given.{CodingGives};
ghost use Rattle.sim_runs.specs.PlacedLines.{PlacesServe};

use ia_decode::encoding_length;
use ia_encode::{direct_lengths, items_stand, round_trip};

/// Fragments that are linked in the code, and whose pieces do what they have to, run as the simulation asks, each within as many
/// steps as its longest way has instructions, and so within as many as the code has bytes.
pub fn fragments_run()
    ensures { FragmentsRun }
{
    items_stand();
    round_trip();
    direct_lengths();
    encoding_length();
}

/// A block whose names stand for something is served by each coding that runs all of its lines, where all virtual registers are live, no
/// line's place is a home, and none is given to another line before its last use.
pub fn all_lines_serve()
    ensures { AllLinesServe }
{}

/// A coding gives what the block that it serves does: memory allows its body, and behind body and sunk lines
/// all outs are the block's.
pub fn coding_gives()
    ensures { CodingGives }
{}

/// The places of the lines of a split serve: none is a home, a slot of moves or jumps, or given to another line before its last use.
pub fn places_serve()
    ensures { PlacesServe }
{
    reg_place::lines_placed();
    reg_place::places_lie();
}
