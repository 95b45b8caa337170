//! The entries of a row or a column, from first to last.
ghost use Rattle.std.specs.Prelude.{◌≡◌, ℕ, ◌<◌, length};
ghost use Rattle.link_table.specs.Circles.{times};
ghost use Rattle.link_table.specs.Table.{entries};

use crate::slots::Slots;
use std::marker::Model;

/// What is left of a row or a column, each node with its value.
///
/// It is seen as the list of the entries that are left.
#[derive(Drop)]
pub struct Walk<'a> {
    /// The nodes that are left.
    slots: Slots<'a>,
    /// The value of each node.
    values: &'a [u64],
}

/// The entries of a row, from first to last.
pub type RowWalk<'a> = Walk<'a>;

/// The entries of a column, from first to last.
pub type ColumnWalk<'a> = Walk<'a>;

impl<'a> Model for Walk<'a> {
    ghost use Rattle.std.specs.Prelude.{ℕ, ◌<◌, List, length};
    ghost use Rattle.link_table.specs.Circles.{times};
    ghost use Rattle.link_table.specs.Table.{entries};

    ghost Value = { List (ℕ × ℕ) };

    ghost view = { λ w. entries w.values.now w.slots };

    ghost invariant = { λ w. (i : ℕ) → 0 < times i w.slots → i < length w.values.now };
}

impl<'a> Walk<'a> {
    /// The entries of these nodes.
    pub fn of(slots: Slots<'a>, values: &'a [u64]) -> Walk<'a>
        requires { (i : ℕ) → 0 < times i slots → i < length values.now }
        ensures { result ≡ entries values.now slots.entry }
    {
        Walk { slots, values }
    }
}

impl<'a> Iterator for Walk<'a> {
    type Item = (u32, u64);

    ghost use Rattle.std.specs.Iterator.{YieldsFirst, item_count};

    ghost next_gives = { YieldsFirst (λ w. w) };

    ghost remaining = { item_count (λ w. w) };

    fn next(&mut self) -> Option<(u32, u64)> {
        let node = self.slots.next()?;
        Some((node, self.values[node as usize]))
    }
}
