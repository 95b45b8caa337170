//! Homes of virtual registers.
ghost use Rattle.std.specs.Prelude.{◌≡◌, ◌<◌};
ghost use Rattle.ssa_form.specs.declared.form.TheConstants.{REGISTERS};
ghost use Rattle.par_moves.specs.Homes.{home_of};
ghost use Rattle.par_moves.specs.Locations.{InRange};

use par_moves::Place;

/// Where a virtual register, below 14, lives wherever recovered code goes from block to block: eax in ebx, esp in ebp, ebp in esi, and
/// every other one in the slot of its number.
pub fn home(v: u8) -> Place
    requires { v < REGISTERS }
    ensures value { result ≡ home_of v }
    ensures fits { InRange result }
{
    match v {
        0 => Place::Reg(3),
        4 => Place::Reg(5),
        5 => Place::Reg(6),
        other => Place::Slot(other as u32),
    }
}
