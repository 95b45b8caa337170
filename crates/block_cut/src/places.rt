//! What stands at an address.
ghost use Rattle.std.specs.Prelude.{◌≡◌, ◌+◌, ◌≤◌, IsTrue, IfSome, option_map, take};
ghost use Rattle.elf_read.specs.Elf.{IsGuest};
ghost use Rattle.elf_read.specs.Code.{code_at};
ghost use Rattle.ia_inst.specs.Canonical.{valid_of};
ghost use Rattle.block_cut.specs.Places.{found_at, inst_found};

use elf_read::{Exe, HIGHEST_END, exec_bytes};
use ia_decode::{decode, encoding_length, fifteen_bytes_decide};
use ia_inst::Inst;

/// An instruction as it is spelled.
#[derive(Drop)]
pub struct Spelled {
    /// The instruction, which is valid.
    pub inst: Inst,
    /// How many bytes its encoding has, 1 to 15.
    pub len: u8,
    /// These bytes, and others behind them.
    pub bytes: [u8; 15],
}

/// The instruction that stands at the address `at` of an executable: the one with which the bytes of the
/// executable segment that holds the address begin, from there on (SDM volume 2, chapter 2). `None` where
/// the address lies in no executable segment, or the bytes spell no instruction. The call takes no memory.
pub fn instruction_at(exe: &Exe, at: u32) -> Option<Spelled>
    requires { IsGuest exe.now }
    ensures inst { option_map (λ s. (s.inst, s.len)) result ≡ inst_found (found_at exe.now at) }
    ensures valid { IfSome result (λ s. IsTrue (valid_of s.inst)) }
    ensures bytes { IfSome result (λ s. take s.len s.bytes ≡ take s.len (code_at at exe.now.segments)) }
    ensures inside { IfSome result (λ s. at + s.len ≤ HIGHEST_END) }
    ensures short { IfSome result (λ s. s.len ≤ 15) }
{
    encoding_length();
    fifteen_bytes_decide();
    let mut bytes = [0u8; 15];
    let count = exec_bytes(exe, at, &mut bytes);
    let Some((inst, len)) = decode(&bytes[..count as usize]) else {
        return None;
    };
    Some(Spelled { inst, len, bytes })
}

/// The instruction that stands at an address, and the length of its encoding.
pub fn placed(exe: &Exe, at: u32) -> Option<(Inst, u8)>
    requires { IsGuest exe.now }
    ensures value { result ≡ inst_found (found_at exe.now at) }
    ensures valid { IfSome result (λ i. IsTrue (valid_of i.0)) }
    ensures inside { IfSome result (λ i. at + i.1 ≤ HIGHEST_END) }
{
    match instruction_at(exe, at) {
        Some(here) => Some((here.inst, here.len)),
        None => None,
    }
}
