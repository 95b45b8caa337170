//! Laws of every instruction. Each is the contract of a call that does nothing, so that a proof above can cite it.

ghost use Rattle.ia_inst.specs.Fits.{AsksExactly, EachFits};

/// Each valid instruction ends with eight registers below 2^32, at an address below 2^32, whatever
/// bytes it loads and flags it reads.
pub fn each_fits()
    ensures { EachFits }
{}

/// A step asks for exactly the flags that its instruction reads, in that order, and before it
/// accesses memory.
pub fn asks_exactly()
    ensures { AsksExactly }
{}
