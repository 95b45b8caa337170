//! Rows of JMP and CALL through an operand, and of RET.
ghost use Rattle.std.specs.Prelude.{◌≡◌};
ghost use Rattle.lift_alu.specs.Steps.{row_steps};
ghost use Rattle.lift_alu.specs.Table.{row_jmp_rm, row_call_rm, row_ret};
ghost use Rattle.lift_alu.specs.Making.{rowed, HasRoom};

use crate::names::{AT_DST, GOAL};
use crate::row::Atom::{Cur, Lit};
use crate::row::Form::Op;
use crate::row::Row;
use crate::stack::ESP;
use ia_inst::Rm;
use ssa_form::{BinOp, Width};

/// The row of JMP through an operand.
pub fn jmp_rm(row: &mut Row, target: &Rm)
    requires { HasRoom row.old 32 }
    ensures made { rowed row.new ≡ row_steps (row_jmp_rm target.now) (rowed row.old) }
{
    row.place(AT_DST, target);
    row.read(GOAL, Width::B32, AT_DST, target);
}

/// The row of CALL through an operand: the target is read before the return address is pushed.
pub fn call_rm(row: &mut Row, target: &Rm, next: u32)
    requires { HasRoom row.old 32 }
    ensures made { rowed row.new ≡ row_steps (row_call_rm next target.now) (rowed row.old) }
{
    row.place(AT_DST, target);
    row.read(GOAL, Width::B32, AT_DST, target);
    row.push_value(Lit(next));
}

/// The row of RET, which takes `pop` bytes more off the stack.
pub fn ret(row: &mut Row, pop: u16)
    requires { HasRoom row.old 32 }
    ensures made { rowed row.new ≡ row_steps (row_ret pop) (rowed row.old) }
{
    row.fetch(GOAL, Width::B32, Cur(ESP));
    row.put(ESP, Op(BinOp::Add, Cur(ESP), Lit(4 + pop as u32)));
}
