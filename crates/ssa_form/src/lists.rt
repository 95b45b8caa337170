//! Lists that a block's key and the split of its lines hold.

use std::marker::Model;

/// The known exits of a block in ascending order, each with the set of virtual registers that are live there: bit v of it is virtual
/// register v. It is seen as its list.
#[derive(Drop)]
pub struct KnownExits {
    items: Vec<(u32, u16)>,
}

impl Model for KnownExits {
    ghost use Rattle.std.specs.Prelude.{ℕ, List};

    ghost Value = { List (ℕ × ℕ) };

    ghost view = { λ e. e.items.items };
}

impl KnownExits {
    ghost use Rattle.std.specs.Prelude.{◌≡◌};

    /// These exits. It takes no memory.
    pub fn of(items: Vec<(u32, u16)>) -> Self
        ensures { result ≡ items.items }
    {
        KnownExits { items }
    }

    /// The exits, each with its live set. It takes no memory.
    pub fn as_slice(&self) -> &[(u32, u16)]
        ensures { result.now ≡ self.now }
    {
        self.items.as_slice()
    }
}

/// One truth value for each line of a block. It is seen as its list.
#[derive(Drop)]
pub struct Marks {
    items: Vec<bool>,
}

impl Model for Marks {
    ghost use Rattle.std.specs.Prelude.{Bool, List};

    ghost Value = { List Bool };

    ghost view = { λ m. m.items.items };
}

impl Marks {
    ghost use Rattle.std.specs.Prelude.{◌≡◌};

    /// These truth values. It takes no memory.
    pub fn of(items: Vec<bool>) -> Self
        ensures { result ≡ items.items }
    {
        Marks { items }
    }

    /// The truth values, one for each line. It takes no memory.
    pub fn as_slice(&self) -> &[bool]
        ensures { result.now ≡ self.now }
    {
        self.items.as_slice()
    }
}
