//! Lifting an instruction into a block.
ghost use Rattle.std.specs.Prelude.{◌≡◌, ◌≤◌, ◌+◌, [], true, length, IfOk, IsTrue, MatchResult};
ghost use Rattle.ia_inst.specs.Canonical.{valid_of};
ghost use Rattle.ssa_form.specs.Checked.{checked};
ghost use Rattle.ssa_form.specs.Same.{SpellsWords};
ghost use Rattle.lift_alu.specs.Steps.{Rowed, row_steps, unnamed};
ghost use Rattle.lift_alu.specs.Lifted.{row_alu, row_of, leaving_of, exit_by, draft_of, lifted};
ghost use Rattle.lift_alu.specs.Making.{rowed, HasRoom};

use crate::conditions::{cmov, setcc};
use crate::logic::{logic, not, test};
use crate::moves::{cdq, cwde, extend, imul, lea, mov, xchg};
use crate::names::GOAL;
use crate::row::Atom::Lit;
use crate::row::Form::Is;
use crate::row::{NAMES, Row, Spot};
use crate::shifts::shift;
use crate::stack::{leave, pop, push};
use crate::sums::{adc, add, cmp, dec, inc, neg, sbb, sub};
use crate::transfers::{call_rm, jmp_rm, ret};
use ia_inst::{Inst, Rm, Src};
use ssa_form::{BinOp, Block, Exit, Lines, Val, Width};
use std::alloc::{AllocError, Global};

/// How many lines an instruction has at most.
const MOST_LINES: usize = 32;

/// A block's lines and outs, with room for those of an instruction. The block is left without lines;
/// where memory is short it stays as it is.
#[tactic(auto, using(crate::proofs::Making::vals_none), unfolding(crate::specs::Making::rowed))]
fn open(alloc: Global, block: &mut Block) -> Result<Row, AllocError>
    requires { length block.old.lines ≤ 2016 }
    ensures rowed { IfOk result (λ r. rowed r ≡ unnamed (draft_of block.old)) }
    ensures room { IfOk result (λ r. HasRoom r 32) }
    ensures block { MatchResult result (λ r. block.new ≡ record block.old { lines = [] }) (λ short. block.new ≡ block.old) }
{
    let mut lines = std::mem::replace(&mut block.lines, Lines::new(alloc)).into_list();
    match lines.reserve(MOST_LINES) {
        Ok(()) => Ok(Row {
            lines,
            outs: block.outs,
            names: [Val::Num(0); NAMES],
        }),
        Err(short) => {
            block.lines = Lines::from_list(lines);
            Err(short)
        }
    }
}

/// Gives the block its lines and outs back, and its exit.
fn close(row: Row, exit: Exit, block: &mut Block)
    ensures block { block.new ≡ record block.old { lines = row.lines.items; outs = row.outs; exit = exit } }
    ensures count { length row.outs ≡ 14 }
{
    let outs = row.outs;
    block.lines = Lines::from_list(row.lines);
    block.outs = outs;
    block.exit = exit;
}

/// The rows of the eight operations that share an encoding (SDM volume 2, ADD to CMP).
fn alu(row: &mut Row, op: u8, w: Width, dst: &Rm, src: &Src)
    requires { HasRoom row.old 32 }
    ensures { rowed row.new ≡ row_steps (row_alu op w dst.now src.now) (rowed row.old) }
{
    match op {
        0 => add(row, w, dst, src),
        1 => logic(row, BinOp::Or, w, dst, src),
        2 => adc(row, w, dst, src),
        3 => sbb(row, w, dst, src),
        4 => logic(row, BinOp::And, w, dst, src),
        5 => sub(row, w, dst, src),
        6 => logic(row, BinOp::Xor, w, dst, src),
        _ => cmp(row, w, dst, src),
    }
}

/// The row of an instruction, whose next one stands at an address; a native instruction has none.
fn append(row: &mut Row, inst: &Inst, next: u32)
    requires { HasRoom row.old 32 }
    ensures { rowed row.new ≡ row_steps (row_of inst.now next) (rowed row.old) }
{
    match inst {
        Inst::Alu { op, w, dst, src } => alu(row, *op, *w, dst, src),
        Inst::Test { w, dst, src } => test(row, *w, dst, src),
        Inst::Mov { w, dst, src } => mov(row, *w, dst, src),
        Inst::Lea { w, dst, addr } => lea(row, *w, *dst, addr),
        Inst::Xchg { w, dst, reg } => xchg(row, *w, dst, *reg),
        Inst::Inc { w, dst } => inc(row, *w, dst),
        Inst::Dec { w, dst } => dec(row, *w, dst),
        Inst::Not { w, dst } => not(row, *w, dst),
        Inst::Neg { w, dst } => neg(row, *w, dst),
        Inst::Push { src } => push(row, src),
        Inst::Pop { dst } => pop(row, dst),
        Inst::Imul { dst, src, by } => imul(row, *dst, src, *by),
        Inst::Shift { op, w, dst, count } => shift(row, *op, *w, dst, *count),
        Inst::Cwde => cwde(row),
        Inst::Cdq => cdq(row),
        Inst::Extend {
            signed,
            from,
            to,
            dst,
            src,
        } => extend(row, *signed, *from, *to, *dst, src),
        Inst::Setcc { cond, dst } => setcc(row, *cond, dst),
        Inst::Cmov { cond, dst, src } => cmov(row, *cond, *dst, src),
        Inst::Jcc { cond, .. } => row.name_condition(GOAL, *cond),
        Inst::JmpRm { target } => jmp_rm(row, target),
        Inst::Call { .. } => row.push_value(Lit(next)),
        Inst::CallRm { target } => call_rm(row, target, next),
        Inst::Ret { pop } => ret(row, *pop),
        Inst::Leave => leave(row),
        Inst::Cld => row.put(Spot::InDf, Is(Lit(0))),
        Inst::Std => row.put(Spot::InDf, Is(Lit(1))),
        Inst::Jmp { .. } | Inst::Nop => {}
        Inst::MulDiv { .. } | Inst::Rotate { .. } | Inst::Movs { .. } => {}
        Inst::Stos { .. } | Inst::Sahf | Inst::Int80 => {}
    }
}

/// Where a block goes on behind an instruction, whose next one stands at an address.
#[tactic(auto, unfolding(crate::specs::Making::atom_of))]
fn exit_of(row: &Row, inst: &Inst, next: u32) -> Exit
    ensures { result ≡ exit_by (leaving_of inst.now next) (rowed row.now).vals }
{
    match inst {
        Inst::Jcc { rel, .. } => Exit::Cond {
            test: row.named(GOAL),
            taken: next.wrapping_add(*rel),
            next,
        },
        Inst::Jmp { rel } | Inst::Call { rel } => Exit::Jump(next.wrapping_add(*rel)),
        Inst::JmpRm { .. } | Inst::CallRm { .. } | Inst::Ret { .. } => Exit::Way(row.named(GOAL)),
        _ => Exit::Jump(next),
    }
}

/// Appends the lines of an instruction of `len` bytes at an address to a block that goes on there, of at
/// most 2016 lines, and sets the outs and the exit: a transfer's own, or a jump to the next address behind
/// any other instruction. A native instruction has no lines.
///
/// The lines are those of the table, and at most 32, and a checked block stays checked. A valid instruction spells
/// out numbers of 32 bits. An error comes where memory is short, and then the block stays as it is.
pub fn lift_inst(
    alloc: Global,
    block: &mut Block,
    inst: &Inst,
    at: u32,
    len: u8,
) -> Result<(), AllocError>
    requires few { length block.old.lines ≤ 2016 }
    ensures lines { MatchResult result (λ done. block.new ≡ lifted inst.now at len block.old) (λ short. block.new ≡ block.old) }
    ensures few { length block.new.lines ≤ length block.old.lines + 32 }
    ensures whole { checked block.old ≡ true → checked block.new ≡ true }
    ensures words { IsTrue (valid_of inst.now) → SpellsWords block.old → SpellsWords block.new }
{
    let mut row = open(alloc, block)?;
    let next = at.wrapping_add(len as u32);
    append(&mut row, inst, next);
    let exit = exit_of(&row, inst, next);
    close(row, exit, block);
    Ok(())
}
