//! Whether the names in a block stand for something.
ghost use Rattle.std.specs.Prelude.{◌≡◌, ◌≤◌, length};
ghost use Rattle.ssa_form.specs.Checked.{has_result, val_checked, line_checked, lines_checked, vals_checked, exit_checked, checked};

use crate::form::{Block, Exit, Line, REGISTERS, Val};
use crate::lines::Lines;

/// Whether a line has a result.
fn gives(line: Line) -> bool
    ensures { result ≡ has_result line }
{
    !matches!(line, Line::Store { .. } | Line::Gone)
}

/// Whether a name is a number, a parameter, or one of the first `count` lines, which has a result.
fn val(lines: &Lines, count: usize, val: Val) -> bool
    requires { count ≤ length lines.now }
    ensures { result ≡ val_checked lines.now count val }
{
    match val {
        Val::Param(register) => (register as usize) < REGISTERS,
        Val::Line(index) => (index as usize) < count && gives(lines.line(index as usize)),
        Val::Num(_) => true,
    }
}

/// Whether the names in a line stand for something, before which `count` lines stand.
fn line(lines: &Lines, count: usize, line: Line) -> bool
    requires { count ≤ length lines.now }
    ensures { result ≡ line_checked lines.now count line }
{
    match line {
        Line::Bin { a, b, .. } => val(lines, count, a) && val(lines, count, b),
        Line::One { a, .. } => val(lines, count, a),
        Line::Select { c, a, b } => {
            val(lines, count, c) && (val(lines, count, a) && val(lines, count, b))
        }
        Line::Load { at, .. } => val(lines, count, at),
        Line::Store { at, a, .. } => val(lines, count, at) && val(lines, count, a),
        Line::Gone => true,
    }
}

/// Whether each line names earlier ones.
fn all_lines(lines: &Lines) -> bool
    ensures { result ≡ lines_checked lines.now 0 lines.now }
{
    for index in 0..lines.len() {
        if !line(lines, index, lines.line(index)) {
            return false;
        }
    }
    true
}

/// Whether each out stands for something.
fn outs(lines: &Lines, outs: &[Val]) -> bool
    ensures { result ≡ vals_checked lines.now (length lines.now) outs.now }
{
    for out in outs {
        if !val(lines, lines.len(), *out) {
            return false;
        }
    }
    true
}

/// Whether the name in an exit stands for something.
fn exit(lines: &Lines, exit: Exit) -> bool
    ensures { result ≡ exit_checked lines.now (length lines.now) exit }
{
    match exit {
        Exit::Cond { test, .. } => val(lines, lines.len(), test),
        Exit::Way(target) => val(lines, lines.len(), target),
        Exit::Jump(_) | Exit::Island { .. } => true,
    }
}

/// Whether each name in the lines, the outs and the exit of a block stands for something: a number, a
/// parameter below `REGISTERS`, or a line with a result, and in a line an earlier one.
///
/// The call takes no memory.
pub fn check_block(block: &Block) -> bool
    ensures { result ≡ checked block.now }
{
    all_lines(&block.lines) && (outs(&block.lines, &block.outs) && exit(&block.lines, block.exit))
}
