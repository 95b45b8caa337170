//! A list of slots, from its first to its last.
ghost use Rattle.std.specs.Prelude.{◌≡◌};
ghost use Rattle.link_table.specs.Circles.{walk, Ends};

use std::marker::Model;

/// What is left of a walk round a circle: the slots from `at` up to the head.
#[derive(Drop)]
pub struct Slots<'a> {
    /// The slot that follows each slot.
    next: &'a [u32],
    /// The slot at which the walk ends.
    head: u32,
    /// The slot that comes next.
    at: u32,
}

impl<'a> Model for Slots<'a> {
    ghost use Rattle.std.specs.Prelude.{ℕ, List, length};
    ghost use Rattle.link_table.specs.Circles.{walk, Ends};

    ghost Value = { List ℕ };

    ghost view = { λ s. walk s.next.now s.head (length s.next.now) s.at };

    ghost invariant = { λ s. Ends s.next.now s.head s.at };
}

impl<'a> Slots<'a> {
    ghost use Rattle.std.specs.Prelude.{length};

    /// The slots from `at` on.
    pub fn from(next: &'a [u32], head: u32, at: u32) -> Slots<'a>
        requires { Ends next.now head at }
        ensures { result ≡ walk next.now head (length next.now) at }
    {
        Slots { next, head, at }
    }
}

impl<'a> Iterator for Slots<'a> {
    type Item = u32;

    ghost use Rattle.std.specs.Iterator.{YieldsFirst, item_count};

    ghost next_gives = { YieldsFirst (λ s. s) };

    ghost remaining = { item_count (λ s. s) };

    fn next(&mut self) -> Option<u32> {
        if self.at == self.head {
            return None;
        }
        let slot = self.at;
        self.at = self.next[slot as usize];
        Some(slot)
    }
}
