//! Whole instructions.

ghost use Rattle.std.specs.Prelude.{◌≡◌, ℕ, ◌≤◌, List, ◌++◌, length, take, IfSome, IsTrue};
ghost use Rattle.ia_inst.specs.Spells.{Spells};
ghost use Rattle.ia_inst.specs.declared.inst.Inst.{Inst};
ghost use Rattle.ia_inst.specs.Canonical.{valid_of};
ghost use Rattle.ia_inst.specs.Reading.{Gives};
ghost use Rattle.ia_inst.specs.Prefixes.{pair_of};
ghost use Rattle.ia_inst.specs.Instructions.{opcode_at, behind_at, inst_at, decode_of};

use crate::arithmetic::{alu_constant, binary, constant, step, unary};
use crate::bytes::byte;
use crate::moves::{absolute, lea, mov_constant};
use crate::opcode::opcode_from;
use crate::prefixes::{is_bare, is_nop, is_return, read_prefixes, string, width};
use crate::second::escape;
use crate::shift::shift;
use crate::simple::simple;
use ia_inst::{Inst, Opcode, Prefixes, Rm};

/// The most bytes of an encoding (SDM volume 2, 2.3.11).
const MOST_BYTES: usize = 15;

/// 91 to 97.
#[tactic(auto, unfolding(ia_inst::specs::Instructions::opcode_at))]
fn exchange(prefixes: Prefixes, reg: u8, bytes: &[u8]) -> Option<(Inst, &[u8])>
    ensures { Gives (λ x. (x.0, x.1.now)) result (opcode_at prefixes (Opcode.Exchange reg) bytes.now) }
{
    let w = width(prefixes, false)?;
    let dst = Rm::Reg(reg);
    Some((Inst::Xchg { w, dst, reg: 0 }, bytes))
}

/// 40 to 47.
#[tactic(auto, unfolding(ia_inst::specs::Instructions::opcode_at))]
fn increment(prefixes: Prefixes, reg: u8, bytes: &[u8]) -> Option<(Inst, &[u8])>
    ensures { Gives (λ x. (x.0, x.1.now)) result (opcode_at prefixes (Opcode.Inc reg) bytes.now) }
{
    let w = width(prefixes, false)?;
    let dst = Rm::Reg(reg);
    Some((Inst::Inc { w, dst }, bytes))
}

/// 48 to 4F.
#[tactic(auto, unfolding(ia_inst::specs::Instructions::opcode_at))]
fn decrement(prefixes: Prefixes, reg: u8, bytes: &[u8]) -> Option<(Inst, &[u8])>
    ensures { Gives (λ x. (x.0, x.1.now)) result (opcode_at prefixes (Opcode.Dec reg) bytes.now) }
{
    let w = width(prefixes, false)?;
    let dst = Rm::Reg(reg);
    Some((Inst::Dec { w, dst }, bytes))
}

/// What stands behind an opcode.
#[tactic(auto, unfolding(ia_inst::specs::Instructions::opcode_at))]
fn operands(prefixes: Prefixes, opcode: Opcode, bytes: &[u8]) -> Option<(Inst, &[u8])>
    ensures { Gives (λ x. (x.0, x.1.now)) result (opcode_at prefixes opcode bytes.now) }
{
    match opcode {
        Opcode::Simple(opcode) if is_bare(prefixes) => simple(opcode, bytes),
        Opcode::Simple(_) => None,
        Opcode::Binary { op, byte } => binary(prefixes, op, byte, bytes),
        Opcode::Constant { op, byte } => constant(prefixes, op, byte, bytes),
        Opcode::AluConstant { extended } => alu_constant(prefixes, extended, bytes),
        Opcode::MovConstant { byte } => mov_constant(prefixes, byte, bytes),
        Opcode::Absolute { store, byte } => absolute(prefixes, store, byte, bytes),
        Opcode::Lea => lea(prefixes, bytes),
        Opcode::Exchange(reg) => exchange(prefixes, reg, bytes),
        Opcode::Inc(reg) => increment(prefixes, reg, bytes),
        Opcode::Dec(reg) => decrement(prefixes, reg, bytes),
        Opcode::Unary { byte } => unary(prefixes, byte, bytes),
        Opcode::Step { byte } => step(prefixes, byte, bytes),
        Opcode::Shift { by, byte } => shift(prefixes, by, byte, bytes),
        Opcode::Ret if is_return(prefixes) => Some((Inst::Ret { pop: 0 }, bytes)),
        Opcode::Ret => None,
        Opcode::Movs { byte } => {
            let (w, rep) = string(prefixes, byte)?;
            Some((Inst::Movs { w, rep }, bytes))
        }
        Opcode::Stos { byte } => {
            let (w, rep) = string(prefixes, byte)?;
            Some((Inst::Stos { w, rep }, bytes))
        }
        Opcode::Nop if is_nop(prefixes) => Some((Inst::Nop, bytes)),
        Opcode::Nop => None,
        Opcode::Escape => escape(prefixes, bytes),
    }
}

/// The instruction that the bytes begin with, and the rest.
#[tactic(auto, unfolding(ia_inst::specs::Instructions::behind_at, ia_inst::specs::Instructions::inst_at))]
fn inst_and_rest(bytes: &[u8]) -> Option<(Inst, &[u8])>
    ensures { Gives (λ x. (x.0, x.1.now)) result (inst_at bytes.now) }
{
    let (prefixes, rest) = read_prefixes(bytes);
    let (first, rest) = byte(rest)?;
    let opcode = opcode_from(first)?;
    operands(prefixes, opcode, rest)
}

/// The instruction and its length, where that is at most 15.
#[tactic(auto, unfolding(ia_inst::specs::Instructions::decode_of))]
fn decoded(bytes: &[u8]) -> Option<(Inst, u8)>
    ensures { Gives (λ x. (x.0, x.1)) result (decode_of bytes.now) }
{
    let (inst, rest) = inst_and_rest(bytes)?;
    let length = bytes.len() - rest.len();
    if MOST_BYTES < length {
        return None;
    }
    Some((inst, length as u8))
}

/// The instruction that the bytes begin with, and the length of its spelling, 1 to 15.
///
/// The spellings are those of `docs/INSTRUCTIONS.md`, which are some of those of the SDM, volume 2. The answer is
/// `None` exactly where the bytes begin with none of them, also where a spelling is cut off. The instruction is valid.
/// At most the first 15 bytes decide, and each is looked at once.
pub fn decode(bytes: &[u8]) -> Option<(Inst, u8)>
    ensures listed { result ≡ decode_of bytes.now }

    // The first 15 bytes decide.
    ensures front { result ≡ decode_of (take 15 bytes.now) }

    // What is answered is spelled so.
    ensures found { IfSome result (λ x. (x.1 ≤ length bytes.now) × Spells (take x.1 bytes.now) x.0) }
    ensures valid { IfSome result (λ x. IsTrue (valid_of x.0)) }
    ensures length { IfSome result (λ x. (1 ≤ x.1) × (x.1 ≤ 15)) }

    // A spelling is read, whatever follows it: so there is at most one, and `None` only where there is none.
    ensures only { (e rest : List ℕ) (i : Inst) → Spells e i → bytes.now ≡ e ++ rest → result ≡ Some (i, length e) }
{
    decoded(bytes)
}
