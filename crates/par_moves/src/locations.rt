//! Locations, and moves between them.

/// How many slots the private segment has: its 65536 bytes in words of four.
pub const SLOTS: u32 = 16384;

/// The number of the slot that breaks a cycle of moves.
pub const SPARE: u32 = 16;

/// Where recovered code keeps a 32-bit value.
#[derive(Clone, Copy, Debug, PartialEq, Eq)]
pub enum Place {
    /// A register by its number, 0 to 7: eax, ecx, edx, ebx, esp, ebp, esi, edi (SDM volume 1, 3.4.1).
    Reg(u8),
    /// A word of the private segment, the four bytes at 0x07000000 and four times this number, below 16384.
    Slot(u32),
}

/// What a move reads.
#[derive(Clone, Copy, Debug, PartialEq, Eq)]
pub enum MoveSource {
    /// The value of a location.
    Place(Place),
    /// A number.
    Num(u32),
}

/// A move of a value to a location.
#[derive(Clone, Copy, Debug, PartialEq, Eq)]
pub struct PlaceMove {
    /// The destination.
    pub to: Place,
    /// The source.
    pub from: MoveSource,
}
