//! The laws of live sets. Each is the contract of a call that does nothing but name the laws that it rests on.
ghost use Rattle.live_flow.specs.Laws.{LiveIsWalked, WalksAreLive, EachIsClosed, NumbersAreSets, LiveFeeds, FragmentSplits, EachRowIsNarrow, SetsAreSmall, NumbersAreClosed};

use stub_sink::split_serves;

/// A register is live at a row exactly where a walk of known exits, through blocks that hand it on, leads to a block that reads it or
/// hands it on to the original program; at most as many exits as there are rows are enough for that. Live sets are closed: what is read is live,
/// and what is handed on to the original program or to where it is live.
pub fn live_is_walked()
    ensures walked { LiveIsWalked }
    ensures longer { WalksAreLive }
    ensures closed { EachIsClosed }
    ensures numbers { NumbersAreSets }
{}

/// The live set at the row of a checked block is enough for the block's split, where what is live behind it is live at a known exit.
pub fn fragment_splits()
    ensures feeds { LiveFeeds }
    ensures splits { FragmentSplits }
{
    split_serves();
}

/// The row of a block names only virtual registers; the live sets of such rows are numbers below 2^14, and these are closed.
pub fn sets_are_narrow()
    ensures rows { EachRowIsNarrow }
    ensures small { SetsAreSmall }
    ensures closed { NumbersAreClosed }
{}
