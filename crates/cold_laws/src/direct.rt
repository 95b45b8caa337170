//! Direct ends of copies.
ghost use Rattle.cold_laws.specs.Ends.{PartsLead, EndsByJmp, EndsByCall, EndsByJcc, EndsInPlace};

use piece_laws::captures_joined;
use sim_laws::stays_in_code;

/// The code at the end of a copy does what a direct jump, call or conditional jump does, and leads on to the block of a start, to a copy,
/// or to the original where the target is neither: `parts` within 32 steps, each transfer within 128. `whole` says it of every transfer that is
/// read, where the dispatcher leads on from a target in slot 15.
pub fn direct_ends()
    ensures parts { PartsLead }
    ensures call { EndsByCall }
    ensures jcc { EndsByJcc }
    ensures whole { EndsInPlace }
    ensures jmp { EndsByJmp }
{
    captures_joined();
    stays_in_code();
}
