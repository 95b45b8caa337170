//! Copies in place.
ghost use Rattle.cold_laws.specs.InPlace.{StepsInPlace};

use ia_decode::{encoding_decides, encoding_length};
use sim_laws::{goes_by_kind, stays_in_code};

/// The own bytes of an instruction that is no transfer do at any place of the code what they do in the original, in one step, or in two
/// behind CLD and STD, where slot 13 takes the direction too.
pub fn steps_in_place()
    ensures { StepsInPlace }
{
    encoding_decides();
    encoding_length();
    goes_by_kind();
    stays_in_code();
}
