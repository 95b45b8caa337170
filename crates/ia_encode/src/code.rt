//! The parts of a spelling: bytes, immediates and operands.

ghost use Rattle.std.specs.Prelude.{◌≡◌, ℕ, ◌+◌, ◌<◌, ◌≤◌, List, [], ◌∷◌, ◌++◌, length, take, IsTrue};
ghost use Rattle.ia_encode.specs.Written.{written};
ghost use Rattle.ia_inst.specs.Operands.{two, four, fields};
ghost use Rattle.ia_inst.specs.Spells.{size, pair, imm};
ghost use Rattle.ia_inst.specs.Canonical.{rm_valid, address_valid, imm_valid, fits_byte, mode, displacement, log, operand_bytes, memory_bytes, based_bytes, index_valid};

use ia_inst::{Addr, Rm, Width};

/// Bytes of an instruction, from the left.
#[derive(Clone, Copy, Debug)]
pub struct Code {
    /// The bytes, of which the first `length` are written.
    pub bytes: [u8; 15],
    /// How many are written, at most 15.
    pub length: usize,
}

impl Code {
    /// No bytes.
    pub fn new() -> Code
        ensures written { written result ≡ [] }
        ensures length { result.length ≡ 0 }
    {
        Code {
            bytes: [0; 15],
            length: 0,
        }
    }

    /// Hands out the bytes, and answers how many are written.
    #[inline(always)]
    pub fn give(self, out: &mut [u8; 15]) -> u8
        requires { self.length ≤ 15 }
        ensures length { result ≡ length (written self) }
        ensures short { result ≤ 15 }
        ensures written { take result out.new ≡ written self }
    {
        let bytes = self.bytes;
        *out = bytes;
        self.length as u8
    }

    /// One byte more.
    #[inline(always)]
    pub fn byte(&mut self, byte: u8)
        requires { self.old.length < 15 }
        ensures written { written self.new ≡ written self.old ++ byte ∷ [] }
        ensures length { self.new.length ≡ self.old.length + 1 }
    {
        self.bytes[self.length] = byte;
        self.length += 1;
    }

    /// Two bytes more, the lowest first.
    #[inline(always)]
    pub fn two(&mut self, n: u16)
        requires { self.old.length < 14 }
        ensures written { written self.new ≡ written self.old ++ two n }
        ensures length { self.new.length ≡ self.old.length + 2 }
    {
        let [a, b] = n.to_le_bytes();
        self.byte(a);
        self.byte(b);
    }

    /// Four bytes more, the lowest first.
    #[inline(always)]
    pub fn four(&mut self, n: u32)
        requires { self.old.length < 12 }
        ensures written { written self.new ≡ written self.old ++ four n }
        ensures length { self.new.length ≡ self.old.length + 4 }
    {
        let at = self.length;
        self.bytes[at..at + 4].copy_from_slice(&n.to_le_bytes());
        self.length = at + 4;
    }

    /// The prefix 66 where the width is 16.
    #[inline(always)]
    pub fn size(&mut self, w: Width)
        requires { self.old.length < 15 }
        ensures written { written self.new ≡ written self.old ++ size w }
        ensures length { self.new.length ≤ self.old.length + 1 }
    {
        match w {
            Width::B16 => self.byte(0x66),
            Width::B8 | Width::B32 => {}
        }
    }

    /// The opcode of a pair.
    #[inline(always)]
    pub fn pair(&mut self, w: Width, first: u8)
        requires room { self.old.length < 14 }
        requires first { first < 255 }
        ensures written { written self.new ≡ written self.old ++ pair w first }
        ensures length { self.new.length ≤ self.old.length + 2 }
    {
        match w {
            Width::B8 => self.byte(first),
            Width::B16 => {
                self.byte(0x66);
                self.byte(first + 1);
            }
            Width::B32 => self.byte(first + 1),
        }
    }

    /// An immediate of a width.
    #[inline(always)]
    pub fn immediate(&mut self, w: Width, n: u32)
        requires room { self.old.length < 12 }
        requires fits { IsTrue (imm_valid w n) }
        ensures written { written self.new ≡ written self.old ++ imm w n }
        ensures length { self.new.length ≤ self.old.length + 4 }
    {
        match w {
            Width::B8 => self.byte(n as u8),
            Width::B16 => self.two(n as u16),
            Width::B32 => self.four(n),
        }
    }

    /// The displacement of an address: none, one byte or four (SDM volume 2, 2.1.3).
    #[inline(always)]
    fn displacement(&mut self, base: u8, disp: u32)
        requires { self.old.length < 12 }
        ensures written { written self.new ≡ written self.old ++ displacement base disp }
        ensures length { self.new.length ≤ self.old.length + 4 }
    {
        if disp == 0 && base != 5 {} else if fits_signed_byte(disp) {
            self.byte((disp % 256) as u8);
        } else {
            self.four(disp);
        }
    }

    /// An address with a base register, and with an index or without (SDM volume 2, 2.1.5).
    fn based(&mut self, reg: u8, base: u8, index: Option<(u8, u8)>, disp: u32)
        requires room { self.old.length < 10 }
        requires reg { reg < 8 }
        requires base { base < 8 }
        requires index { IsTrue (index_valid index) }
        ensures written { written self.new ≡ written self.old ++ based_bytes reg base index disp }
        ensures length { self.new.length ≤ self.old.length + 6 }
    {
        let mode = mode(base, disp);
        match index {
            None => {
                if base == 4 {
                    self.byte(fields(mode, reg, 4));
                    self.byte(fields(0, 4, base));
                } else {
                    self.byte(fields(mode, reg, base));
                }
            }
            Some((register, scale)) => {
                self.byte(fields(mode, reg, 4));
                self.byte(fields(log(scale), register, base));
            }
        }
        self.displacement(base, disp);
    }

    /// A place in memory.
    fn memory(&mut self, reg: u8, addr: &Addr)
        requires room { self.old.length < 10 }
        requires reg { reg < 8 }
        requires valid { IsTrue (address_valid addr.now) }
        ensures written { written self.new ≡ written self.old ++ memory_bytes reg addr.now.base addr.now.index addr.now.disp }
        ensures length { self.new.length ≤ self.old.length + 6 }
    {
        match (addr.base, addr.index) {
            (None, None) => {
                self.byte(fields(0, reg, 5));
                self.four(addr.disp);
            }
            (None, Some((register, scale))) => {
                self.byte(fields(0, reg, 4));
                self.byte(fields(log(scale), register, 5));
                self.four(addr.disp);
            }
            (Some(base), index) => self.based(reg, base, index, addr.disp),
        }
    }

    /// A register or a place in memory, with a number in the reg field.
    #[inline(never)]
    pub fn operand(&mut self, reg: u8, rm: &Rm)
        requires room { self.old.length < 10 }
        requires reg { reg < 8 }
        requires valid { IsTrue (rm_valid rm.now) }
        ensures written { written self.new ≡ written self.old ++ operand_bytes reg rm.now }
        ensures length { self.new.length ≤ self.old.length + 6 }
    {
        match rm {
            Rm::Reg(register) => self.byte(fields(3, reg, *register)),
            Rm::Mem(addr) => self.memory(reg, addr),
        }
    }
}

/// Whether a number is a sign extended byte.
pub fn fits_signed_byte(n: u32) -> bool
    ensures { result ≡ fits_byte n }
{
    n < 0x80 || 0xffff_ff7f < n
}

/// The mod field of an address with a base register: by the bytes of its displacement.
fn mode(base: u8, disp: u32) -> u8
    ensures mode { result ≡ mode base disp }
    ensures low { result < 3 }
{
    if disp == 0 && base != 5 {
        0
    } else if fits_signed_byte(disp) {
        1
    } else {
        2
    }
}

/// The scale field of a SIB byte.
fn log(scale: u8) -> u8
    ensures log { result ≡ log scale }
    ensures low { result < 4 }
{
    match scale {
        1 => 0,
        2 => 1,
        4 => 2,
        _ => 3,
    }
}

/// A ModRM or SIB byte of its three fields.
fn fields(high: u8, middle: u8, low: u8) -> u8
    requires high { high < 4 }
    requires middle { middle < 8 }
    requires low { low < 8 }
    ensures { result ≡ fields high middle low }
{
    high * 64 + middle * 8 + low
}
