//! Marks of the lines that names are of. No call takes memory. Marks have one truth value for each line of a block; a name of a line
//! that is behind them adds nothing.
ghost use Rattle.std.specs.Prelude.{◌≡◌, length, get_or};
ghost use Rattle.ssa_form.specs.declared.form.Line.TheVariants.{Gone};
ghost use Rattle.ssa_form.specs.Agree.{every};
ghost use Rattle.pass_dead.specs.Names.{vals_of, exit_vals, val_names, vals_name, outs_name, is_store, has, Adds};
ghost use Rattle.pass_dead.specs.Needed.{always};

use ssa_form::{Block, Exit, Line, Lines, REGISTERS, Val};

/// Marks the line that a name is of.
fn mark_val(val: Val, marks: &mut [bool])
    ensures { Adds marks.old (val_names val) marks.new }
{
    if let Val::Line(index) = val {
        if (index as usize) < marks.len() {
            marks[index as usize] = true;
        }
    }
}

/// Marks the lines that a line names.
pub fn mark_line(line: Line, marks: &mut [bool])
    ensures { Adds marks.old (vals_name (vals_of line)) marks.new }
{
    match line {
        Line::Bin { a, b, .. } => {
            mark_val(a, marks);
            mark_val(b, marks);
        }
        Line::One { a, .. } => mark_val(a, marks),
        Line::Select { c, a, b } => {
            mark_val(c, marks);
            mark_val(a, marks);
            mark_val(b, marks);
        }
        Line::Load { at, .. } => mark_val(at, marks),
        Line::Store { at, a, .. } => {
            mark_val(at, marks);
            mark_val(a, marks);
        }
        Line::Gone => {}
    }
}

/// Marks the line that an exit reads.
fn mark_exit(exit: Exit, marks: &mut [bool])
    ensures { Adds marks.old (vals_name (exit_vals exit)) marks.new }
{
    match exit {
        Exit::Cond { test, .. } => mark_val(test, marks),
        Exit::Way(target) => mark_val(target, marks),
        Exit::Jump(_) | Exit::Island { .. } => {}
    }
}

/// Marks the stores of a block, which are its lines.
fn mark_stores(lines: &Lines, marks: &mut [bool])
    requires { length marks.old ≡ length lines.now }
    ensures { Adds marks.old (λ j. is_store (get_or lines.now j Gone)) marks.new }
{
    for index in 0..lines.len() {
        if matches!(lines.line(index), Line::Store { .. }) {
            marks[index] = true;
        }
    }
}

/// Marks what a block needs whatever lives behind it: its stores, and the line that its exit reads.
pub fn mark_always(b: &Block, marks: &mut [bool])
    requires { length marks.old ≡ length b.now.lines }
    ensures { Adds marks.old (always b.now) marks.new }
{
    mark_stores(&b.lines, marks);
    mark_exit(b.exit, marks);
}

/// Marks the lines of the outs of the virtual registers in a set: bit v of it is register v.
pub fn mark_outs(outs: &[Val; REGISTERS], on: u16, marks: &mut [bool])
    ensures { Adds marks.old (outs_name (has on) 0 outs.now) marks.new }
{
    for register in 0..REGISTERS {
        if (on >> register) & 1 == 1 {
            mark_val(outs[register], marks);
        }
    }
}

/// Marks the lines of all outs.
pub fn mark_all_outs(outs: &[Val; REGISTERS], marks: &mut [bool])
    ensures { Adds marks.old (outs_name every 0 outs.now) marks.new }
{
    mark_outs(outs, 0x3FFF, marks);
}
