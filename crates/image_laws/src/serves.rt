//! What is lifted, and what becomes code of it.
ghost use Rattle.image_laws.specs.Serves.{CodingsServe, EachIsLifted};

use block_cut::one_block;
use block_make::{ready_keeps, splits_are_closed, splits_are_listed};
use ia_decode::{encoding_length, read_is_valid};
use lift_alu::lines_mean;
use live_flow::{fragment_splits, sets_are_narrow};
use piece_laws::parted_serve;

/// In a lifted block names stand for something, numbers have 32 bits, also those of its exit, and there are at most 2048 lines; the exit
/// of a block that is not native is none of a native instruction.
pub fn lifted_blocks()
    ensures { EachIsLifted }
{
    one_block();
    encoding_length();
    read_is_valid();
    lines_mean();
}

/// The coding of each block of the graph that is not native serves it, from the registers that are live at its start, for those that
/// are live at its known exits.
pub fn codings_serve()
    ensures { CodingsServe }
{
    lifted_blocks();
    ready_keeps();
    splits_are_closed();
    splits_are_listed();
    fragment_splits();
    sets_are_narrow();
    parted_serve();
}
