//! What a system call comes to.

use br_word::GuestFault;

/// What a system call that was done means for the guest.
#[derive(Clone, Copy, Debug, PartialEq, Eq)]
pub enum Called {
    /// The guest goes on, with the answer in eax.
    Goes,
    /// The guest has exited with this status.
    Exit(u8),
    /// The call named memory that it may not use so.
    Fault(GuestFault),
}

/// Why a system call could not be done.
#[derive(Clone, Copy, Debug, PartialEq, Eq)]
pub enum SysError {
    /// The input failed.
    Input,
    /// The output of descriptor 1 failed.
    Out,
    /// The output of descriptor 2 failed.
    Report,
    /// Memory ran out.
    Memory,
}
