//! How long fragments are.
ghost use Rattle.block_make.specs.CodesShort.{CodesShort, PartsShort};

use ia_decode::encoding_length;
use ia_encode::round_trip;
use lift_flow::{lines_few, one_block};
use pass_copy::fold_keeps;
use pass_dead::prune_keeps;

/// The fragment of a key has at most 15 * (192 i + 200 + 60 k) bytes, for i instructions of its block and k known exits. `parts` says of
/// how many instructions lines and moves are. The call does nothing: its contract is the law.
pub fn codes_short()
    ensures bytes { CodesShort }
    ensures parts { PartsShort }
{
    encoding_length();
    round_trip();
    one_block();
    lines_few();
    fold_keeps();
    prune_keeps();
}
