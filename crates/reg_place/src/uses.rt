//! The order of placing, and where each line is used last.
ghost use Rattle.std.specs.Prelude.{◌≡◌, ℕ, ◌+◌, ◌<◌, ◌≤◌, ◌++◌, ◌^◌, All, IfOk, OnOk, List, length, get_or, filter, if◌then◌else◌};
ghost use Rattle.ssa_form.specs.declared.form.Line.{Line};
ghost use Rattle.ssa_form.specs.Agree.{every};
ghost use Rattle.ssa_form.specs.Same.{rows};
ghost use Rattle.pass_dead.specs.Names.{vals_of, exit_vals, val_names, vals_name, outs_name};
ghost use Rattle.reg_place.specs.LastUses.{last_use};
ghost use Rattle.reg_place.specs.Places.{IsSplit, at_end, is_in, lines_in, order};

use ssa_form::{Block, Exit, Line, REGISTERS, Split, Val};
use std::alloc::{AllocError, Global};

/// Puts the lines of a set, each with its index, behind others.
fn push_lines(steps: &mut Vec<(usize, Line)>, b: &Block, set: &[bool]) -> Result<(), AllocError>
    requires { length set.now ≡ length b.now.lines }
    ensures { OnOk result (steps.new.items ≡ steps.old.items ++ lines_in set.now b.now) }
{
    for index in 0..b.lines.len() {
        if !set[index] {
            continue;
        }
        steps.push((index, b.lines.line(index)))?;
    }
    Ok(())
}

/// The lines that are placed, each with its index, in the order of placing.
pub fn order(alloc: Global, b: &Block, s: &Split) -> Result<Vec<(usize, Line)>, AllocError>
    requires split { IsSplit b.now s.now }
    ensures { IfOk result (λ steps. steps.items ≡ order b.now s.now) }
{
    let mut steps = Vec::new(alloc);
    push_lines(&mut steps, b, s.body.as_slice())?;
    push_lines(&mut steps, b, s.sunk.as_slice())?;
    Ok(steps)
}

/// Writes a position at the line that a name is of.
fn mark_val(val: Val, position: usize, last: &mut [usize])
    ensures { (j : ℕ) → j < length last.old → get_or last.new j 0 ≡ (if val_names val j then position else get_or last.old j 0) }
{
    if let Val::Line(index) = val {
        if (index as usize) < last.len() {
            last[index as usize] = position;
        }
    }
}

/// Writes a position at the lines that a line names.
fn mark_line(line: Line, position: usize, last: &mut [usize])
    ensures { (j : ℕ) → j < length last.old → get_or last.new j 0 ≡ (if vals_name (vals_of line) j then position else get_or last.old j 0) }
{
    match line {
        Line::Bin { a, b, .. } => {
            mark_val(a, position, last);
            mark_val(b, position, last);
        }
        Line::One { a, .. } => mark_val(a, position, last),
        Line::Select { c, a, b } => {
            mark_val(c, position, last);
            mark_val(a, position, last);
            mark_val(b, position, last);
        }
        Line::Load { at, .. } => mark_val(at, position, last),
        Line::Store { at, a, .. } => {
            mark_val(at, position, last);
            mark_val(a, position, last);
        }
        Line::Gone => {}
    }
}

/// Writes a position at the line that an exit reads.
fn mark_exit(exit: Exit, position: usize, last: &mut [usize])
    ensures { (j : ℕ) → j < length last.old → get_or last.new j 0 ≡ (if vals_name (exit_vals exit) j then position else get_or last.old j 0) }
{
    match exit {
        Exit::Cond { test, .. } => mark_val(test, position, last),
        Exit::Way(target) => mark_val(target, position, last),
        Exit::Jump(_) | Exit::Island { .. } => {}
    }
}

/// Writes a position at the lines of all outs.
fn mark_outs(outs: &[Val; REGISTERS], position: usize, last: &mut [usize])
    ensures { (j : ℕ) → j < length last.old → get_or last.new j 0 ≡ (if outs_name every 0 outs.now j then position else get_or last.old j 0) }
{
    for register in 0..REGISTERS {
        mark_val(outs[register], position, last);
    }
}

/// The last use of each line, as one more than the position of the last step that names it; what outs and exit name is used behind all.
pub fn last_uses(
    alloc: Global,
    b: &Block,
    steps: &[(usize, Line)],
) -> Result<Vec<usize>, AllocError>
    requires few { length steps.now < 2 ^ 32 }
    ensures length { IfOk result (λ last. length last.items ≡ length b.now.lines) }
    ensures last { IfOk result (λ last. (j : ℕ) → j < length b.now.lines → get_or last.items j 0 ≡ last_use (at_end b.now) steps.now j) }
{
    let mut last = vec![in alloc; 0usize; b.lines.len()]?;
    for (at, step) in steps.iter().enumerate() {
        mark_line(step.1, at + 1, last.as_mut_slice());
    }
    mark_outs(&b.outs, steps.len() + 1, last.as_mut_slice());
    mark_exit(b.exit, steps.len() + 1, last.as_mut_slice());
    Ok(last)
}
