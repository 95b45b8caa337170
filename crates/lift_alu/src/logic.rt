//! Rows of AND, OR, XOR, TEST and NOT.
ghost use Rattle.std.specs.Prelude.{◌≡◌, ◌-◌, ◌^◌};
ghost use Rattle.br_word.specs.Words.{bits_of};
ghost use Rattle.lift_alu.specs.Steps.{row_steps};
ghost use Rattle.lift_alu.specs.Table.{row_logic, row_test, row_not};
ghost use Rattle.lift_alu.specs.Making.{rowed, HasRoom};

use crate::names::{A, B, R};
use crate::row::Atom::{Got, Lit};
use crate::row::Form::{Is, Op};
use crate::row::{Row, Spot};
use ia_inst::{Rm, Src};
use ssa_form::{BinOp, Width};

/// The row of AND, OR or XOR.
pub fn logic(row: &mut Row, op: BinOp, w: Width, dst: &Rm, src: &Src)
    requires { HasRoom row.old 32 }
    ensures made { rowed row.new ≡ row_steps (row_logic op w dst.now src.now) (rowed row.old) }
{
    row.operands(w, dst, src);
    row.name(R, Op(op, Got(A), Got(B)));
    row.write(w, dst, R);
    row.put(Spot::InCf, Is(Lit(0)));
    row.result_flags(w);
    row.put(Spot::InOf, Is(Lit(0)));
}

/// The row of TEST: that of AND, and nothing is written.
pub fn test(row: &mut Row, w: Width, dst: &Rm, src: &Src)
    requires { HasRoom row.old 32 }
    ensures made { rowed row.new ≡ row_steps (row_test w dst.now src.now) (rowed row.old) }
{
    row.operands(w, dst, src);
    row.name(R, Op(BinOp::And, Got(A), Got(B)));
    row.put(Spot::InCf, Is(Lit(0)));
    row.result_flags(w);
    row.put(Spot::InOf, Is(Lit(0)));
}

/// All bits of a width.
fn mask(w: Width) -> u32
    ensures { result ≡ 2 ^ bits_of w - 1 }
{
    match w {
        Width::B8 => 0xFF,
        Width::B16 => 0xFFFF,
        Width::B32 => 0xFFFFFFFF,
    }
}

/// The row of NOT.
pub fn not(row: &mut Row, w: Width, dst: &Rm)
    requires { HasRoom row.old 32 }
    ensures made { rowed row.new ≡ row_steps (row_not w dst.now) (rowed row.old) }
{
    row.first(w, dst);
    row.name(R, Op(BinOp::Xor, Got(A), Lit(mask(w))));
    row.write(w, dst, R);
}
