//! Where addresses of the original lie in a file that has copies of some of them.
use std::alloc::Global;
use std::marker::Model;

/// Addresses of the original that lie elsewhere, each with the address at which it lies. It is seen as the list of these pairs, which
/// ascend by the first.
#[derive(Drop)]
pub struct Places {
    pairs: Vec<(u32, u32)>,
}

impl Model for Places {
    ghost use Rattle.std.specs.Prelude.{ℕ, List};
    ghost use Rattle.code_layout.specs.Places.{AddressesAscend};

    ghost Value = { List (ℕ × ℕ) };

    ghost view = { λ p. p.pairs.items };

    ghost invariant = { λ p. AddressesAscend p.pairs.items };
}

impl Places {
    ghost use Rattle.std.specs.Prelude.{◌≡◌, []};
    ghost use Rattle.code_layout.specs.Places.{place_in, AddressesAscend};

    /// No address lies elsewhere. It takes no memory.
    pub fn none(alloc: Global) -> Places
        ensures { result ≡ [] }
    {
        Places {
            pairs: Vec::new(alloc),
        }
    }

    /// These pairs, which ascend by their addresses. It takes no memory.
    pub fn of(pairs: Vec<(u32, u32)>) -> Places
        requires { AddressesAscend pairs.items }
        ensures { result ≡ pairs.items }
    {
        Places { pairs }
    }

    /// Where an address lies: where its pair says, and at itself where it has none. The work grows with the logarithm of the number of
    /// pairs. It takes no memory.
    pub fn place_of(&self, address: u32) -> u32
        ensures { result ≡ place_in self.now address }
    {
        let index = self.pairs.partition_point(|pair| pair.0 < address);
        match self.pairs.get(index) {
            Some(pair) if pair.0 == address => pair.1,
            _ => address,
        }
    }
}
