//! Circular doubly linked lists over one numbering of slots: each list has a head slot, and the slots that
//! follow it, up to the head again, are its elements. A slot in no list follows itself.
ghost use Rattle.std.specs.Prelude.{◌≡◌, ℕ, ◌+◌, ◌<◌, ◌≤◌, ◌^◌, List, [], ◌∷◌, ◌++◌, length, slice_index, slice_index_or, slice_set, vec_len, OnOk, OnErr, MatchOption, IfSome, IfNone, slice_get};
ghost use Rattle.link_table.specs.Circles.{all_without, put_last, times, times_in, size, first_of, IsTidy};

use crate::slots::Slots;
use std::alloc::{AllocError, Global};
use std::marker::Model;

/// Takes `slot` out of the circle that it is in, and leaves it alone.
fn unlink_slot(next: &mut Vec<u32>, prev: &mut Vec<u32>, slot: u32)
    requires slot { slot < length next.old.items }
    requires same { length prev.old.items ≡ length next.old.items }
    requires before { slice_index prev.old.items slot < length next.old.items }
    requires after { slice_index next.old.items slot < length next.old.items }
    ensures next { next.new.items ≡ slice_set (slice_set next.old.items (slice_index prev.old.items slot) (slice_index next.old.items slot)) slot slot }
    ensures prev { prev.new.items ≡ slice_set (slice_set prev.old.items (slice_index next.old.items slot) (slice_index prev.old.items slot)) slot slot }
{
    let before = prev[slot as usize];
    let after = next[slot as usize];
    next[before as usize] = after;
    prev[after as usize] = before;
    next[slot as usize] = slot;
    prev[slot as usize] = slot;
}

/// Puts `slot`, which is alone, before `head` in the circle of `head`.
fn link_slot(next: &mut Vec<u32>, prev: &mut Vec<u32>, head: u32, slot: u32)
    requires slot { slot < length next.old.items }
    requires head { head < length next.old.items }
    requires same { length prev.old.items ≡ length next.old.items }
    requires last { slice_index prev.old.items head < length next.old.items }
    ensures next { next.new.items ≡ slice_set (slice_set next.old.items (slice_index prev.old.items head) slot) slot head }
    ensures prev { prev.new.items ≡ slice_set (slice_set prev.old.items head slot) slot (slice_index prev.old.items head) }
{
    let last = prev[head as usize];
    next[last as usize] = slot;
    prev[head as usize] = slot;
    next[slot as usize] = head;
    prev[slot as usize] = last;
}

/// Lists of slots.
#[derive(Drop)]
pub struct Chains {
    next: Vec<u32>,
    prev: Vec<u32>,
    heads: Vec<u32>,
}

impl Model for Chains {
    ghost use Rattle.std.specs.Prelude.{length};
    ghost use Rattle.link_table.specs.Circles.{lists_of, Keeps, Family};

    ghost Value = { Family };

    ghost view = { λ c. record { slots = length c.next.items; heads = c.heads.items; lists = lists_of c.next.items c.heads.items } };

    ghost invariant = { λ c. Keeps c.next.items c.prev.items c.heads.items (lists_of c.next.items c.heads.items) };
}

impl Chains {
    /// No lists and no slots.
    pub fn new(alloc: Global) -> Chains
        ensures { result ≡ record { slots = 0; heads = []; lists = [] } }
    {
        Chains {
            next: Vec::new(alloc),
            prev: Vec::new(alloc),
            heads: Vec::new(alloc),
        }
    }

    /// What holds of all lists.
    pub fn facts(&self)
        ensures { IsTidy self.now }
    {
        let _next = &self.next;
    }

    /// How many slots there are.
    pub fn slots(&self) -> usize
        ensures { result ≡ self.now.slots }
    {
        self.next.len()
    }

    /// How many lists there are.
    pub fn lists(&self) -> usize
        ensures { result ≡ length self.now.lists }
    {
        self.heads.len()
    }

    /// One more slot, in no list.
    pub fn grow(&mut self) -> Result<(), AllocError>
        requires { self.old.slots < 2 ^ 32 }
        ensures ok { OnOk result (self.new ≡ record self.old { slots = self.old.slots + 1 }) }
        ensures err { OnErr result (self.new ≡ self.old) }
    {
        let slot = self.next.len() as u32;
        self.prev.push(slot)?;
        if self.next.push(slot).is_err() {
            let _ = self.prev.pop();
            return Err(AllocError);
        }
        Ok(())
    }

    /// Sees that there is the slot `slot`, which may be the next one.
    pub fn reach(&mut self, slot: u32) -> Result<(), AllocError>
        requires { slot ≤ self.old.slots }
        ensures same { self.new ≡ record self.old { slots = self.new.slots } }
        ensures grows { self.old.slots ≤ self.new.slots }
        ensures ok { OnOk result (slot < self.new.slots) }
    {
        if self.slots() == slot as usize {
            return self.grow();
        }
        Ok(())
    }

    /// One more list, which is empty, with the head `slot`.
    pub fn push_list(&mut self, slot: u32) -> Result<(), AllocError>
        requires slot { slot < self.old.slots }
        requires unused { times slot self.old.heads + times_in slot self.old.lists ≡ 0 }
        ensures ok { OnOk result (self.new ≡ record self.old { heads = self.old.heads ++ slot ∷ []; lists = self.old.lists ++ [] ∷ [] }) }
        ensures err { OnErr result (self.new ≡ self.old) }
    {
        self.heads.push(slot)?;
        Ok(())
    }

    /// Takes a slot out of the list that it is in.
    pub fn take_out(&mut self, slot: u32)
        requires slot { slot < self.old.slots }
        requires no_head { times slot self.old.heads ≡ 0 }
        ensures { self.new ≡ record self.old { lists = all_without slot self.old.lists } }
    {
        unlink_slot(&mut self.next, &mut self.prev, slot);
    }

    /// Puts a slot that is in no list last in one.
    pub fn put_last(&mut self, list: usize, slot: u32)
        requires list { list < length self.old.lists }
        requires slot { slot < self.old.slots }
        requires unused { times slot self.old.heads + times_in slot self.old.lists ≡ 0 }
        requires room { size self.old.lists < self.old.slots }
        ensures { self.new ≡ record self.old { lists = put_last self.old.lists list slot } }
    {
        let head = self.heads[list];
        link_slot(&mut self.next, &mut self.prev, head, slot);
    }

    /// The first slot of a list.
    pub fn first(&self, list: usize) -> Option<u32>
        requires { list < length self.now.lists }
        ensures { result ≡ first_of (slice_index_or self.now.lists list []) }
    {
        let head = self.heads[list];
        let first = self.next[head as usize];
        if first == head { None } else { Some(first) }
    }
    /// The slots of a list, from its first to its last.
    pub fn walk(&self, list: usize) -> Slots<'_>
        requires { list < length self.now.lists }
        ensures { result ≡ slice_index_or self.now.lists list [] }
    {
        let head = self.heads[list];
        let first = self.next[head as usize];
        Slots::from(self.next.as_slice(), head, first)
    }
}
