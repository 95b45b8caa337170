//! The law of splits: the contract of a call that does nothing but name the law that it rests on.
ghost use Rattle.stub_sink.specs.Serving.{EachSplitServes, EachSplitIsListed};

use pass_dead::needed_is_least;

/// From registers that feed a checked block its split serves: the body is closed, with all stores, what the exit reads and the lines of
/// live outs; with the sunk lines, which have a result, touch no memory and are not in the body, it gives all outs at a side exit; without
/// a side exit no line is sunk.
pub fn split_serves()
    ensures serves { EachSplitServes }
    ensures listed { EachSplitIsListed }
{
    needed_is_least();
}
