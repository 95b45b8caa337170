//! The laws of the exchange of state.
ghost use Rattle.piece_laws.specs.Exchange.{ClosesJoined, EntersJoined, OpensJoined};

use code_laws::{exchange_keeps, jumps_lead};

/// The way into a native instruction restores the state that the homes hold.
pub fn opens_joined()
    ensures { OpensJoined }
{
    exchange_keeps();
}

/// A capture puts registers and flags into their homes, behind a native instruction and at the entry, and the jump behind it leads to
/// the fragment of a start.
pub fn captures_joined()
    ensures closes { ClosesJoined }
    ensures enters { EntersJoined }
{
    exchange_keeps();
    jumps_lead();
}
