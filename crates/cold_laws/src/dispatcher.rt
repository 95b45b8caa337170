//! The dispatcher.
ghost use Rattle.cold_laws.specs.Dispatcher.{DispatcherRuns};

use code_laws::{exchange_keeps, jumps_lead};

/// From a captured state whose target lies in slot 15, the dispatcher leads on within 100 steps: to the block of a start, whose homes hold
/// the state, to the copy of a cold start, or to the original where the target is neither. The last two have the state in its registers.
pub fn dispatches()
    ensures { DispatcherRuns }
{
    exchange_keeps();
    jumps_lead();
}
