//! Laws of fragments.
ghost use Rattle.block_make.specs.Laws.{FragmentsValid, ReadyKeeps, SplitsAreClosed, SplitsAreListed};

use pass_const::rules_hold;
use pass_copy::fold_keeps;
use pass_dead::prune_keeps;
use reg_place::{lines_placed, places_lie};
use stub_sink::split_serves;

/// The block that becomes code keeps what the lifted block does, and is such a block, too.
pub fn ready_keeps()
    ensures { ReadyKeeps }
{
    rules_hold();
    fold_keeps();
    prune_keeps();
}

/// The split of a checked block, as lists of marks, serves from registers that feed the block: the body runs by itself, and with the
/// sunk lines it gives all outs where some way out leads to the original.
pub fn splits_are_closed()
    ensures { SplitsAreClosed }
{
    split_serves();
}

/// The split of a checked block has one entry for each line in both lists, no line in both, and the body, and body and sunk lines together,
/// have with a line the lines that it names.
pub fn splits_are_listed()
    ensures { SplitsAreListed }
{
    splits_are_closed();
}

/// What is known of the items of each fragment: each instruction has an encoding, each label stands once, and the last item is a jump.
pub fn fragments_valid()
    ensures { FragmentsValid }
{
    splits_are_closed();
    lines_placed();
    places_lie();
}
