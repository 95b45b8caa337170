//! Members of ascending lists of addresses, and their names.
ghost use Rattle.std.specs.Prelude.{◌≡◌};
ghost use Rattle.std.specs.List.Sorted.{IsStrictlyIncreasing};
ghost use Rattle.block_cut.specs.Transfers.{is_among};
ghost use Rattle.cold_code.specs.Around.{named};

use ia_encode::Dest;

/// How jumps name copies, and by 0 the dispatcher.
#[derive(Clone, Copy)]
pub enum Naming {
    /// By labels of one piece.
    Labels,
    /// As blocks, which may stand in other pieces.
    Blocks,
}

/// The starts of blocks and of copies: two ascending lists of addresses.
#[derive(Clone, Copy)]
pub struct Starts<'a> {
    /// Of recovered blocks.
    pub blocks: &'a [u32],
    /// Of copies.
    pub copies: &'a [u32],
    /// How copies are named.
    pub naming: Naming,
}

/// How a jump names the copy of a start, or by 0 the dispatcher.
pub fn named(naming: Naming, address: u32) -> Dest
    ensures { result ≡ named naming address }
{
    match naming {
        Naming::Labels => Dest::Label(address),
        Naming::Blocks => Dest::Block(address),
    }
}

/// Whether an ascending list has an address, by binary search.
pub fn is_member(list: &[u32], address: u32) -> bool
    requires { IsStrictlyIncreasing list.now }
    ensures { result ≡ is_among list.now address }
{
    list.binary_search(&address).is_ok()
}
