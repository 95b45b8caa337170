//! The virtual registers that live in registers of the processor.
ghost use Rattle.std.specs.Prelude.{◌≡◌};
ghost use Rattle.par_moves.specs.Homes.{register_homes};

/// A virtual register that lives in a register of the processor wherever recovered code goes from block to block.
#[derive(Clone, Copy, Debug, PartialEq, Eq)]
pub struct RegisterHome {
    /// The register of the processor: ebx 3, ebp 5 or esi 6.
    pub register: u8,
    /// The virtual register, 0 to 7, and its slot.
    pub slot: u32,
}

const HOMES: [RegisterHome; 3] = [
    RegisterHome {
        register: 5,
        slot: 4,
    },
    RegisterHome {
        register: 3,
        slot: 0,
    },
    RegisterHome {
        register: 6,
        slot: 5,
    },
];

/// All of them, in the order in which they are loaded: esp in ebp, eax in ebx, ebp in esi. Every other virtual register lives in its
/// slot.
pub fn register_homes() -> &'static [RegisterHome]
    ensures { result.now ≡ register_homes }
{
    &HOMES
}
