//! What linking asks of this code.
ghost use Rattle.cold_code.specs.Linkable.{CopiesAreLinkable, DispatchersAreLinkable};

use ia_decode::{encoding_length, read_is_valid};

/// Each instruction of a copy and of a dispatcher has an encoding, and each label stands there once, however copies are named. A copy has
/// at most 2048 bytes, and a dispatcher 200 for each address and 200 besides. The segments of the executable hold bytes, and the addresses
/// of the dispatcher are below 2 to the 32.
pub fn copies_are_code()
    ensures copies { CopiesAreLinkable }
    ensures dispatchers { DispatchersAreLinkable }
{
    encoding_length();
    read_is_valid();
}
