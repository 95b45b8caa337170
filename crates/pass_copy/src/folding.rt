//! Folding a block.
ghost use Rattle.std.specs.Prelude.{◌≡◌, ◌≤◌, IfOk, length, map};
ghost use Rattle.pass_copy.specs.Folded.{replaced, line_replaced, exit_replaced, kept, stand, folded};

use pass_const::rule_of;
use ssa_form::{Block, Exit, Line, Lines, REGISTERS, Val};
use std::alloc::{AllocError, Global};

/// A name, where each earlier line has the name that stands for it.
fn replaced(stands: &[Val], val: Val) -> Val
    ensures { result ≡ replaced stands.now val }
{
    match val {
        Val::Line(index) => match stands.get(index as usize) {
            Some(name) => *name,
            None => Val::Num(0),
        },
        _ => val,
    }
}

/// A line with its names replaced.
fn line_replaced(stands: &[Val], line: Line) -> Line
    ensures { result ≡ line_replaced stands.now line }
{
    match line {
        Line::Bin { op, a, b } => Line::Bin {
            op,
            a: replaced(stands, a),
            b: replaced(stands, b),
        },
        Line::One { op, a } => Line::One {
            op,
            a: replaced(stands, a),
        },
        Line::Select { c, a, b } => Line::Select {
            c: replaced(stands, c),
            a: replaced(stands, a),
            b: replaced(stands, b),
        },
        Line::Load { w, at } => Line::Load {
            w,
            at: replaced(stands, at),
        },
        Line::Store { w, at, a } => Line::Store {
            w,
            at: replaced(stands, at),
            a: replaced(stands, a),
        },
        Line::Gone => Line::Gone,
    }
}

/// An exit with its name replaced.
fn exit_replaced(stands: &[Val], exit: Exit) -> Exit
    ensures { result ≡ exit_replaced stands.now exit }
{
    match exit {
        Exit::Cond { test, taken, next } => Exit::Cond {
            test: replaced(stands, test),
            taken,
            next,
        },
        Exit::Way(target) => Exit::Way(replaced(stands, target)),
        _ => exit,
    }
}

/// Outs with their names replaced.
fn outs_replaced(stands: &[Val], outs: &[Val; REGISTERS]) -> [Val; REGISTERS]
    ensures { result ≡ map (replaced stands.now) outs.now }
{
    let mut all = *outs;
    for out in all.iter_mut() {
        *out = replaced(stands, *out);
    }
    all
}

/// The line, or nothing where a name takes its place.
fn kept(name: Option<Val>, line: Line) -> Line
    ensures { result ≡ kept name line }
{
    match name {
        Some(_) => Line::Gone,
        None => line,
    }
}

/// The name that stands for the line with this index.
fn stand(name: Option<Val>, index: usize) -> Val
    requires { index ≤ 2048 }
    ensures { result ≡ stand name index }
{
    match name {
        Some(val) => val,
        None => Val::Line(index as u32),
    }
}

/// The block with its lines folded, from the first to the last: each name of a line that is gone is replaced by the name that stands for
/// it, and a line for which a rule of `pass_const` then has a name is gone. So are the names of outs and exit replaced. The work is linear
/// in the lines.
///
/// An error comes for want of memory.
pub fn fold(alloc: Global, b: &Block) -> Result<Block, AllocError>
    requires { length b.now.lines ≤ 2048 }
    ensures { IfOk result (λ block. block ≡ folded b.now) }
{
    let mut lines = Lines::new(alloc);
    let mut stands = Vec::new(alloc);
    for index in 0..b.lines.len() {
        let line = line_replaced(stands.as_slice(), b.lines.line(index));
        let name = rule_of(&line);
        lines.push(kept(name, line))?;
        stands.push(stand(name, index))?;
    }
    Ok(Block {
        start: b.start,
        lines,
        outs: outs_replaced(stands.as_slice(), &b.outs),
        exit: exit_replaced(stands.as_slice(), b.exit),
    })
}
