//! The memory of a guest.

ghost use Rattle.std.specs.Prelude.{◌≡◌, ◌+◌, ◌-◌, ◌^◌, ◌<◌, ◌≤◌, ◌++◌, ◌↔◌, true, length, take, drop, map, Some, None, option_map, is_some, IsSome, IfSome, IfOk, OnOk, OnErr};
ghost use Rattle.std.specs.List.{position};
ghost use Rattle.std.specs.Borrow.{sem};
ghost use Rattle.br_word.specs.Words.{bits_of, size_of};
ghost use Rattle.br_word.specs.Memory.{Reads, Writes, Runs, bytes_at, written, load, store};
ghost use Rattle.elf_read.specs.Elf.{IsGuest};
ghost use Rattle.elf_read.specs.Regions.{opening_regions};
ghost use Rattle.guest_mem.specs.Layout.{LieApart, is_usable, range};
ghost use Rattle.guest_mem.specs.View.{with_regions, fetched, with_break};

use crate::area::{Area, STACK_SIZE, size};
use br_word::Width;
use elf_read::Exe;
use std::alloc::{AllocError, Global};
use std::marker::Model;

/// How far the heap may grow, in bytes.
pub const HEAP_LIMIT: u32 = 67_108_864;

/// The most bytes of an instruction (SDM volume 2, 2.3.11).
pub const INSTRUCTION_LIMIT: usize = 15;

/// The memory of a guest: its segments, its stack and its heap, which lies from the start of the
/// break to the break. The bytes of each region are held in pages, cut at the multiples of 4096.
#[derive(Drop)]
pub struct Memory {
    /// The segments in ascending order, the stack, the heap.
    areas: Vec<Area>,
    brk_start: u32,
    brk: u32,
}

impl Model for Memory {
    ghost use Rattle.guest_mem.specs.View.{MemoryView};
    ghost use Rattle.guest_mem.specs.Layout.{HasHeap, HaveRoom};

    ghost Value = { MemoryView };

    ghost view = { λ m. record { regions = m.areas.items; brk_start = m.brk_start; brk = m.brk } };

    ghost invariant = { λ m. HasHeap m.brk_start m.brk m.areas.items × HaveRoom m.brk_start m.areas.items };
}

impl Memory {
    ghost use Rattle.guest_mem.specs.Pieces.{piece_size, in_page};
    ghost use Rattle.guest_mem.specs.Lent.{LendsMemory};

    /// The memory in which a guest begins. The stack ends with `top`, of at most [`STACK_SIZE`] bytes, and is
    /// zero below it, and the heap is empty. The only error is want of memory.
    pub fn of(alloc: Global, exe: &Exe, top: &[u8]) -> Result<Memory, AllocError>
        requires guest { IsGuest exe.now }
        requires room { length top.now ≤ STACK_SIZE }
        ensures { IfOk result (λ m. m ≡ record {
          regions = opening_regions exe.now top.now;
          brk_start = exe.now.brk_start;
          brk = exe.now.brk_start;
        }) }
    {
        let mut areas = Vec::new(alloc);
        for segment in exe.segments.as_slice() {
            areas.push(Area::segment(alloc, segment)?)?;
        }
        areas.push(Area::stack(alloc, top)?)?;
        areas.push(Area::heap(alloc, exe.brk_start))?;
        Ok(Memory {
            areas,
            brk_start: exe.brk_start,
            brk: exe.brk_start,
        })
    }

    /// No address lies in two regions, and all lie below 2^32.
    pub fn regions_lie_apart(&self)
        ensures { LieApart (map range self.now.regions) }
    {
        let _start = self.brk_start;
    }

    /// The place of the region to which a read goes.
    fn read_place(&self, at: u32, len: usize) -> Option<usize>
        ensures { result ≡ position (is_usable Reads at len) self.now.regions }
    {
        self.areas
            .iter()
            .position(|area| area.covers(at, len) && area.perms().read)
    }

    /// The place of the region to which a write goes.
    fn write_place(&self, at: u32, len: usize) -> Option<usize>
        ensures { result ≡ position (is_usable Writes at len) self.now.regions }
    {
        self.areas
            .iter()
            .position(|area| area.covers(at, len) && area.perms().write)
    }

    /// The place of the executable region that holds an address.
    fn code_place(&self, at: u32) -> Option<usize>
        ensures { result ≡ position (is_usable Runs at 1) self.now.regions }
    {
        self.areas
            .iter()
            .position(|area| area.covers(at, 1) && area.perms().exec)
    }

    /// The number at an address. None where no readable region holds all of its bytes.
    pub fn load(&self, at: u32, w: Width) -> Option<u32>
        ensures value { result ≡ load at (size_of w) self.now.regions }
        ensures fits { IfSome result (λ v. v < 2 ^ bits_of w) }
    {
        let place = self.read_place(at, size(w))?;
        Some(self.areas[place].number(at, w))
    }

    /// Copies bytes in. False, with nothing changed, where no writable region holds all of them.
    fn write(&mut self, at: u32, from: &[u8]) -> bool
        ensures allowed { result ≡ is_some (written at from.now self.old.regions) }
        ensures after { self.new ≡ with_regions (written at from.now self.old.regions) self.old }
    {
        match self.write_place(at, from.len()) {
            None => false,
            Some(place) => {
                self.areas[place].copy_in(at as usize, from);
                true
            }
        }
    }

    /// Stores the low bytes of `value`, the lowest first. False, with nothing changed, where no writable
    /// region holds all of them.
    pub fn store(&mut self, at: u32, w: Width, value: u32) -> bool
        ensures allowed { result ≡ is_some (store at (size_of w) value self.old.regions) }
        ensures after { self.new ≡ with_regions (store at (size_of w) value self.old.regions) self.old }
    {
        let bytes = value.to_le_bytes();
        self.write(at, &bytes[..size(w)])
    }

    /// Fetches the bytes from an address to the end of its executable region, the first 15 of them at
    /// most ([`INSTRUCTION_LIMIT`]), and answers how many: 0 exactly where no executable region holds the address. The rest of
    /// `into` stays.
    pub fn fetch(&self, at: u32, into: &mut [u8; INSTRUCTION_LIMIT]) -> u8
        ensures count { result ≡ length (fetched (bytes_at Runs at 1 self.now.regions)) }
        ensures bytes { into.new ≡ fetched (bytes_at Runs at 1 self.now.regions) ++ drop result into.old }
        ensures none { (result ≡ 0) ↔ (bytes_at Runs at 1 self.now.regions ≡ None) }
    {
        match self.code_place(at) {
            None => 0,
            Some(place) => {
                let area = &self.areas[place];
                let count = area.left(at).min(INSTRUCTION_LIMIT);
                area.copy_out(at as usize, &mut into[..count]);
                count as u8
            }
        }
    }

    /// The bytes that [`fetch`](Memory::fetch) gives, lent, where they lie in one page: between two multiples of 4096. Else,
    /// and where no executable region holds the address, there are none.
    pub fn code(&self, at: u32) -> &[u8]
        ensures { result.now ≡ in_page at (fetched (bytes_at Runs at 1 self.now.regions)) }
    {
        match self.code_place(at) {
            None => &[],
            Some(place) => self.areas[place].front(at, INSTRUCTION_LIMIT),
        }
    }

    /// Whether one readable region holds all of `len` bytes at an address.
    pub fn can_read(&self, at: u32, len: u32) -> bool
        ensures { result ≡ is_some (bytes_at Reads at len self.now.regions) }
    {
        self.read_place(at, len as usize).is_some()
    }

    /// Whether one writable region holds all of `len` bytes at an address.
    pub fn can_write(&self, at: u32, len: u32) -> bool
        ensures { result ≡ is_some (bytes_at Writes at len self.now.regions) }
    {
        self.write_place(at, len as usize).is_some()
    }

    /// Copies the bytes at an address out.
    pub fn copy_out(&self, at: u32, into: &mut [u8])
        requires { is_some (bytes_at Reads at (length into.old) self.now.regions) ≡ true }
        ensures { option_map (take (length into.old)) (bytes_at Reads at (length into.old) self.now.regions) ≡ Some into.new }
    {
        if let Some(place) = self.read_place(at, into.len()) {
            self.areas[place].copy_out(at as usize, into);
        }
    }

    /// Copies bytes in, over those at an address.
    pub fn copy_in(&mut self, at: u32, from: &[u8])
        requires { is_some (bytes_at Writes at (length from.now) self.old.regions) ≡ true }
        ensures written { written at from.now self.old.regions ≡ Some self.new.regions }
        ensures rest { self.new ≡ record self.old { regions = self.new.regions } }
    {
        self.write(at, from);
    }

    /// The bytes at an address up to the next multiple of 4096, `len` of them at most.
    pub fn piece(&self, at: u32, len: u32) -> &[u8]
        requires some { 0 < len }
        requires allowed { is_some (bytes_at Reads at len self.now.regions) ≡ true }
        ensures { option_map (take (piece_size at len)) (bytes_at Reads at len self.now.regions) ≡ Some result.now }
    {
        match self.read_place(at, len as usize) {
            None => &[],
            Some(place) => self.areas[place].piece(at as usize, len as usize),
        }
    }

    /// The place of the region to which a write goes that is allowed.
    fn some_write_place(&self, at: u32, len: u32) -> usize
        requires { is_some (bytes_at Writes at len self.now.regions) ≡ true }
        ensures { position (is_usable Writes at len) self.now.regions ≡ Some result }
    {
        match self.write_place(at, len as usize) {
            None => 0,
            Some(place) => place,
        }
    }

    /// The same bytes, to be written. Once they are given back, memory is as before but for them, which are as they were left.
    pub fn piece_mut(&mut self, at: u32, len: u32) -> &mut [u8]
        requires some { 0 < len }
        requires allowed { is_some (bytes_at Writes at len self.old.regions) ≡ true }
        ensures* writes_back { sem 𝓛 (LendsMemory self.entry at len result) }
        ensures value { option_map (take (piece_size at len)) (bytes_at Writes at len self.old.regions) ≡ Some result.now }
    {
        let place = self.some_write_place(at, len);
        self.areas[place].piece_mut(at as usize, len as usize)
    }

    /// Moves the break, unless it would leave the [`HEAP_LIMIT`] bytes from its start, and answers the break
    /// afterwards. The bytes that come are zero. Only a break that rises takes memory, and after an error
    /// all is as before.
    pub fn set_break(&mut self, to: u32) -> Result<u32, AllocError>
        ensures value { IfOk result (λ brk. brk ≡ self.new.brk) }
        ensures ok { OnOk result (self.new ≡ with_break to self.old) }
        ensures err { OnErr result (self.new ≡ self.old) }
        ensures rises { OnErr result (self.old.brk < to) }
    {
        if to < self.brk_start || to - self.brk_start > HEAP_LIMIT {
            return Ok(self.brk);
        }
        let heap = self.areas.len() - 1;
        self.areas[heap].resize((to - self.brk_start) as usize)?;
        self.brk = to;
        Ok(to)
    }
}

#[cfg(test)]
mod tests;
