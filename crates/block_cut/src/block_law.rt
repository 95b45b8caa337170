//! The laws of blocks.
ghost use Rattle.block_cut.specs.Blocks.{EachHasOneBlock, EachFollowsAbove};

use ia_decode::encoding_length;

/// Each start has one block, and no other list of instructions is a block of it. The call does nothing: its
/// contract is the law.
pub fn one_block()
    ensures { EachHasOneBlock }
{}

/// A start that follows a block lies above the start of the block, in an executable segment. The call does
/// nothing: its contract is the law.
pub fn following_above()
    ensures { EachFollowsAbove }
{
    encoding_length();
}
