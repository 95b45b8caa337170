//! One region of memory with its bytes, in pages.

ghost use Rattle.std.specs.Prelude.{◌≡◌, ◌+◌, ◌-◌, ◌^◌, ◌<◌, ◌≤◌, ◌%◌, ◌/◌, ◌++◌, true, length, take, drop, vec_len, IfOk, OnOk, OnErr};
ghost use Rattle.std.specs.Borrow.{sem};
ghost use Rattle.br_word.specs.Words.{bits_of, size_of};
ghost use Rattle.br_word.specs.Memory.{covers, put_over, number_of, zeros};
ghost use Rattle.elf_read.specs.Regions.{region_of, stack_region, heap_region};
ghost use Rattle.guest_mem.specs.Lending.{LendsBytes};
ghost use Rattle.guest_mem.specs.Pages.{joined, ArePages, page_begin, page_room};

use br_word::{Perms, Width};
use elf_read::Segment;
use std::alloc::{AllocError, Global};
use std::marker::Model;

/// Where the stack starts; it ends at 0xC0000000.
pub const STACK_START: u32 = 0xBFF0_0000;

/// How many bytes the stack has.
pub const STACK_SIZE: usize = 1_048_576;

/// The number of bytes of an operand.
pub fn size(w: Width) -> usize
    ensures { result ≡ size_of w }
{
    match w {
        Width::B8 => 1,
        Width::B16 => 2,
        Width::B32 => 4,
    }
}

/// Cuts the bytes at a size, or fills them up with zeros to it.
fn resize(bytes: &mut Vec<u8>, size: usize) -> Result<(), AllocError>
    ensures ok { OnOk result (bytes.new.items ≡ take size (bytes.old.items ++ zeros size)) }
    ensures err { OnErr result (bytes.new.items ≡ bytes.old.items) }
    ensures grows { OnErr result (length bytes.old.items < size) }
{
    bytes.resize(size, 0)
}

/// The bytes of a region between two multiples of 4096.
#[derive(Drop)]
pub struct Page {
    bytes: Vec<u8>,
}

/// The bytes of a page from one offset to another.
fn bytes_of(page: &mut Page, from: usize, to: usize) -> &mut [u8]
    requires order { from ≤ to }
    requires inside { to ≤ vec_len page.old.bytes }
    ensures* writes_back { sem 𝓛 (LendsBytes page.entry from result) }
    ensures value { result.now ≡ take (to - from) (drop from page.old.bytes.items) }
{
    page.bytes.slice_mut(from..to)
}

/// So many bytes of a page from an offset on.
fn bytes_from(page: &Page, from: usize, count: usize) -> &[u8]
    requires { from + count ≤ vec_len page.now.bytes }
    ensures { result.now ≡ take count (drop from page.now.bytes.items) }
{
    &page.bytes[from..from + count]
}

/// The number of the page that holds an address.
fn page_number(start: u32, at: usize) -> usize
    requires { start ≤ at }
    ensures { result ≡ at / 4096 - start / 4096 }
{
    at / 4096 - start as usize / 4096
}

/// The offset of an address in its page.
fn page_offset(start: u32, at: usize) -> usize
    requires { start ≤ at }
    ensures begin { page_begin (4096 - start % 4096) (at / 4096 - start / 4096) + result ≡ at - start }
    ensures room { result + (4096 - at % 4096) ≡ page_room (4096 - start % 4096) (at / 4096 - start / 4096) }
{
    if at / 4096 == start as usize / 4096 {
        at - start as usize
    } else {
        at % 4096
    }
}

/// The room of the page of a number.
fn room_of(first: usize, number: usize) -> usize
    ensures { result ≡ page_room first number }
{
    if number == 0 { first } else { 4096 }
}

/// A page of zeros, with room for 4096 bytes.
fn zero_page(alloc: Global, size: usize) -> Result<Page, AllocError>
    ensures { IfOk result (λ p. p.bytes.items ≡ zeros size) }
{
    let mut bytes = Vec::with_capacity(alloc, 4096)?;
    resize(&mut bytes, size)?;
    Ok(Page { bytes })
}

/// Zeros in pages, the first with room for so many.
fn zero_pages(alloc: Global, first: usize, size: usize) -> Result<Vec<Page>, AllocError>
    requires { 0 < first }
    ensures pages { IfOk result (λ ps. ArePages first ps.items) }
    ensures bytes { IfOk result (λ ps. joined ps.items ≡ zeros size) }
{
    let mut pages = Vec::new(alloc);
    let mut room = first;
    let mut done = 0;
    while done < size {
        let count = room.min(size - done);
        pages.push(zero_page(alloc, count)?)?;
        done += count;
        room = 4096;
    }
    Ok(pages)
}

/// Puts zeros behind the bytes of a page.
fn lengthen(page: &mut Page, size: usize) -> Result<(), AllocError>
    requires { vec_len page.old.bytes ≤ size }
    ensures ok { OnOk result (page.new.bytes.items ≡ page.old.bytes.items ++ zeros (size - length page.old.bytes.items)) }
    ensures err { OnErr result (page.new.bytes.items ≡ page.old.bytes.items) }
{
    resize(&mut page.bytes, size)
}

/// The number at an offset, the lowest byte first (SDM volume 1, 1.3.1).
fn number_in(bytes: &[u8], at: usize, w: Width) -> u32
    requires { at + size_of w ≤ length bytes.now }
    ensures value { result ≡ number_of (take (size_of w) (drop at bytes.now)) }
    ensures fits { result < 2 ^ bits_of w }
{
    match w {
        Width::B8 => bytes[at] as u32,
        Width::B16 => u16::from_le_bytes([bytes[at], bytes[at + 1]]) as u32,
        Width::B32 => u32::from_le_bytes([bytes[at], bytes[at + 1], bytes[at + 2], bytes[at + 3]]),
    }
}

/// A region of the guest's memory: where it starts, what may be done there, its bytes in pages, and how many there are.
#[derive(Drop)]
pub struct Area {
    start: u32,
    perms: Perms,
    pages: Vec<Page>,
    size: usize,
}

impl Model for Area {
    ghost use Rattle.std.specs.Prelude.{◌≡◌, ◌-◌, ◌%◌, length};
    ghost use Rattle.br_word.specs.Memory.{Region};
    ghost use Rattle.guest_mem.specs.Pages.{ArePages, joined};

    ghost Value = { Region };

    ghost view = { λ a. record { start = a.start; perms = a.perms; bytes = joined a.pages.items } };

    ghost invariant = { λ a. ArePages (4096 - a.start % 4096) a.pages.items × (a.size ≡ length (joined a.pages.items)) };
}

impl Area {
    ghost use Rattle.guest_mem.specs.Pieces.{piece_size, in_page};
    ghost use Rattle.guest_mem.specs.Lent.{LendsPiece};

    /// A region of zeros.
    fn zeros(alloc: Global, start: u32, perms: Perms, size: usize) -> Result<Area, AllocError>
        ensures { IfOk result (λ r. r ≡ record { start = start; perms = perms; bytes = zeros size }) }
    {
        let pages = zero_pages(alloc, 4096 - (start % 4096) as usize, size)?;
        Ok(Area {
            start,
            perms,
            pages,
            size,
        })
    }

    /// The bytes of a segment, and zeros behind them up to its size.
    pub fn segment(alloc: Global, segment: &Segment) -> Result<Area, AllocError>
        requires { length segment.now.bytes ≤ segment.now.size }
        ensures { IfOk result (λ r. r ≡ region_of segment.now) }
    {
        let mut area = Area::zeros(alloc, segment.start, segment.perms, segment.size as usize)?;
        area.copy_in(segment.start as usize, segment.bytes.as_slice());
        Ok(area)
    }

    /// The stack, which ends with `top` and is zero below it.
    pub fn stack(alloc: Global, top: &[u8]) -> Result<Area, AllocError>
        requires { length top.now ≤ STACK_SIZE }
        ensures { IfOk result (λ r. r ≡ stack_region top.now) }
    {
        let perms = Perms {
            read: true,
            write: true,
            exec: false,
        };
        let mut area = Area::zeros(alloc, STACK_START, perms, STACK_SIZE)?;
        area.copy_in(STACK_START as usize + (STACK_SIZE - top.len()), top);
        Ok(area)
    }

    /// A heap without bytes.
    pub fn heap(alloc: Global, start: u32) -> Area
        ensures { result ≡ heap_region start }
    {
        Area {
            start,
            perms: Perms {
                read: true,
                write: true,
                exec: false,
            },
            pages: Vec::new(alloc),
            size: 0,
        }
    }

    /// What may be done with the bytes.
    pub fn perms(&self) -> Perms
        ensures { result ≡ self.now.perms }
    {
        self.perms
    }

    /// Whether all of `len` bytes at an address lie here.
    pub fn covers(&self, at: u32, len: usize) -> bool
        ensures { result ≡ covers self.now at len }
    {
        if at < self.start {
            return false;
        }
        let offset = (at - self.start) as usize;
        offset <= self.size && len <= self.size - offset
    }

    /// The number of bytes from an address to the end.
    pub fn left(&self, at: u32) -> usize
        requires { covers self.now at 1 ≡ true }
        ensures { result ≡ length self.now.bytes - (at - self.now.start) }
    {
        self.size - (at - self.start) as usize
    }

    /// The bytes from an address to the end of their page, `len` of them at most.
    pub fn piece(&self, at: usize, len: usize) -> &[u8]
        requires some { 0 < len }
        requires inside { covers self.now at len ≡ true }
        ensures { result.now ≡ take (piece_size at len) (drop (at - self.now.start) self.now.bytes) }
    {
        let number = page_number(self.start, at);
        let from = page_offset(self.start, at);
        let count = len.min(4096 - at % 4096);
        bytes_from(&self.pages[number], from, count)
    }

    /// The bytes from an address to the end, the first `most` of them at most, where they lie in one page, and else none.
    pub fn front(&self, at: u32, most: usize) -> &[u8]
        requires some { 0 < most }
        requires inside { covers self.now at 1 ≡ true }
        ensures { result.now ≡ in_page at (take most (drop (at - self.now.start) self.now.bytes)) }
    {
        let at_byte = at as usize;
        let count = self.left(at).min(most);
        if count > 4096 - at_byte % 4096 {
            return &[];
        }
        self.piece(at_byte, count)
    }

    /// The bytes that [`piece`](Area::piece) lends, to be written.
    pub fn piece_mut(&mut self, at: usize, len: usize) -> &mut [u8]
        requires some { 0 < len }
        requires inside { covers self.old at len ≡ true }
        ensures* writes_back { sem 𝓛 (LendsPiece self.entry at result) }
        ensures value { result.now ≡ take (piece_size at len) (drop (at - self.old.start) self.old.bytes) }
    {
        let number = page_number(self.start, at);
        let from = page_offset(self.start, at);
        let count = len.min(4096 - at % 4096);
        bytes_of(&mut self.pages[number], from, from + count)
    }

    /// The number at an address, the lowest byte first.
    pub fn number(&self, at: u32, w: Width) -> u32
        requires { covers self.now at (size_of w) ≡ true }
        ensures value { result ≡ number_of (take (size_of w) (drop (at - self.now.start) self.now.bytes)) }
        ensures fits { result < 2 ^ bits_of w }
    {
        let piece = self.piece(at as usize, size(w));
        if piece.len() == size(w) {
            return number_in(piece, 0, w);
        }
        let mut bytes = [0; 4];
        self.copy_out(at as usize, &mut bytes[..size(w)]);
        number_in(&bytes, 0, w)
    }

    /// Copies bytes from an address out.
    pub fn copy_out(&self, at: usize, into: &mut [u8])
        requires inside { covers self.now at (length into.old) ≡ true }
        requires fits { at + length into.old < 18446744073709551616 }
        ensures { into.new ≡ take (length into.old) (drop (at - self.now.start) self.now.bytes) }
    {
        if into.is_empty() {
            return;
        }
        let piece = self.piece(at, into.len());
        let (front, rest) = into.split_at_mut(piece.len());
        front.copy_from_slice(piece);
        self.copy_out(at + piece.len(), rest);
    }

    /// Copies bytes in, over those at an address.
    pub fn copy_in(&mut self, at: usize, from: &[u8])
        requires inside { covers self.old at (length from.now) ≡ true }
        requires fits { at + length from.now < 18446744073709551616 }
        ensures { self.new ≡ record self.old { bytes = put_over self.old.bytes (at - self.old.start) from.now } }
    {
        if from.is_empty() {
            return;
        }
        let piece = self.piece_mut(at, from.len());
        let (front, rest) = from.split_at(piece.len());
        piece.copy_from_slice(front);
        self.copy_in(at + front.len(), rest);
    }

    /// Cuts the bytes at a size.
    fn cut(&mut self, size: usize)
        requires less { size ≤ length self.old.bytes }
        requires small { size ≤ 67108864 }
        ensures { self.new ≡ record self.old { bytes = take size self.old.bytes } }
    {
        self.size = size;
        if size == 0 {
            self.pages.truncate(0);
            return;
        }
        let last = self.start as usize + (size - 1);
        let number = page_number(self.start, last);
        let offset = page_offset(self.start, last);
        self.pages.truncate(number + 1);
        self.pages[number].bytes.truncate(offset + 1);
    }

    /// Puts zeros behind the bytes. What can fail comes first.
    fn rise(&mut self, size: usize) -> Result<(), AllocError>
        requires { length self.old.bytes < size }
        ensures ok { OnOk result (self.new ≡ record self.old { bytes = self.old.bytes ++ zeros (size - length self.old.bytes) }) }
        ensures err { OnErr result (self.new ≡ self.old) }
    {
        let alloc = *self.pages.allocator();
        let first = 4096 - (self.start % 4096) as usize;
        let count = self.pages.len();
        if count == 0 {
            self.pages = zero_pages(alloc, first, size)?;
            self.size = size;
            return Ok(());
        }
        let last = count - 1;
        let room = room_of(first, last);
        let held = self.pages[last].bytes.len();
        let kept = (room - held).min(size - self.size);
        let mut more = zero_pages(alloc, 4096, size - self.size - kept)?;
        self.pages.reserve(more.len())?;
        lengthen(&mut self.pages[last], held + kept)?;
        self.pages.append(&mut more)?;
        self.size = size;
        Ok(())
    }

    /// How many bytes each page has.
    #[cfg(test)]
    pub fn page_sizes(&self, alloc: Global) -> Result<Vec<usize>, AllocError> {
        let mut sizes = Vec::new(alloc);
        for page in self.pages.as_slice() {
            sizes.push(page.bytes.len())?;
        }
        Ok(sizes)
    }

    /// Cuts the bytes at a size, or fills them up with zeros to it. All stay after an error.
    pub fn resize(&mut self, size: usize) -> Result<(), AllocError>
        requires { size ≤ 67108864 }
        ensures ok { OnOk result (self.new ≡ record self.old { bytes = take size (self.old.bytes ++ zeros size) }) }
        ensures err { OnErr result (self.new ≡ self.old) }
        ensures grows { OnErr result (length self.old.bytes < size) }
    {
        if size <= self.size {
            self.cut(size);
            return Ok(());
        }
        self.rise(size)
    }
}
