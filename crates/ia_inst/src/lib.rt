//! Instructions of the guest: their type, their spellings and their effects.
#![tactic(auto)]

mod inst;
mod kinds;
mod laws;
mod opcode;
mod prefixes;
mod validity;

pub use br_word::{Flags, GuestFault, Perms, ShiftOp, Width};
pub use inst::{Addr, Count, Inst, Kind, Rm, Src};
pub use kinds::{kind, reads_flags};
pub use laws::{asks_exactly, each_fits};
pub use opcode::{Binary, By, Constant, Opcode, Second, Simple};
pub use prefixes::{Prefix, Prefixes};
pub use validity::{canonical_spelling, valid};
