//! Rows of PUSH, POP and LEAVE.
ghost use Rattle.std.specs.Prelude.{◌≡◌, []};
ghost use Rattle.lift_alu.specs.Steps.{row_steps};
ghost use Rattle.lift_alu.specs.Table.{pushes, row_push, row_pop, row_leave};
ghost use Rattle.lift_alu.specs.Making.{atom_expr, rowed, HasRoom, Grew};

use crate::names::{A, B, R};
use crate::row::Atom::{Cur, Got, Lit};
use crate::row::Form::{Is, Op};
use crate::row::{Atom, Row, Spot};
use ia_inst::{Rm, Src};
use ssa_form::{BinOp, Width};

/// The register esp.
pub const ESP: Spot = Spot::Gpr(4);

/// The register ebp.
const EBP: Spot = Spot::Gpr(5);

impl Row {
    /// Pushes what an atom stands for.
    pub fn push_value(&mut self, atom: Atom)
        requires { HasRoom self.old 3 }
        ensures made { rowed self.new ≡ row_steps (pushes (atom_expr atom) []) (rowed self.old) }
        ensures grown { Grew self.old self.new 3 }
    {
        self.name(R, Op(BinOp::Sub, Cur(ESP), Lit(4)));
        self.store(Width::B32, Got(R), atom);
        self.put(ESP, Is(Got(R)));
    }
}

/// The row of PUSH.
pub fn push(row: &mut Row, src: &Src)
    requires { HasRoom row.old 32 }
    ensures made { rowed row.new ≡ row_steps (row_push src.now) (rowed row.old) }
{
    row.second(Width::B32, src);
    row.push_value(Got(B));
}

/// The row of POP: the address of dst is made after esp has risen.
pub fn pop(row: &mut Row, dst: &Rm)
    requires { HasRoom row.old 32 }
    ensures made { rowed row.new ≡ row_steps (row_pop dst.now) (rowed row.old) }
{
    row.fetch(A, Width::B32, Cur(ESP));
    row.put(ESP, Op(BinOp::Add, Cur(ESP), Lit(4)));
    row.write_new(Width::B32, dst, A);
}

/// The row of LEAVE.
pub fn leave(row: &mut Row)
    requires { HasRoom row.old 32 }
    ensures made { rowed row.new ≡ row_steps row_leave (rowed row.old) }
{
    row.fetch(A, Width::B32, Cur(EBP));
    row.put(ESP, Op(BinOp::Add, Cur(EBP), Lit(4)));
    row.put(EBP, Is(Got(A)));
}
