//! How a guest stands.

use br_word::GuestFault;

/// How a guest stands after a run.
#[derive(Clone, Copy, Debug, PartialEq, Eq)]
pub enum Stop {
    /// It has exited with this status.
    Exited(u8),
    /// It has faulted.
    Fault(GuestFault),
    /// It still runs: it has taken all the steps that it was given.
    Budget,
}
