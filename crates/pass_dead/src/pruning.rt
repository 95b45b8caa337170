//! Pruning a block.
ghost use Rattle.std.specs.Prelude.{◌≡◌, ℕ, ◌<◌, false, IfOk, length};
ghost use Rattle.ssa_form.specs.Agree.{every};
ghost use Rattle.pass_dead.specs.Names.{set_of};
ghost use Rattle.pass_dead.specs.Needed.{needed, roots_of, kept_lines, pruned};

use crate::marks::{mark_all_outs, mark_always};
use crate::sweep::mark_needed;
use ssa_form::{Block, Line, Lines};
use std::alloc::{AllocError, Global};

/// Marks the lines that a block needs, none of which is marked before.
fn mark_block(b: &Block, marks: &mut [bool])
    requires length { length marks.old ≡ length b.now.lines }
    requires none { (j : ℕ) → set_of marks.old j ≡ false }
    ensures { (j : ℕ) → j < length b.now.lines → set_of marks.new j ≡ needed b.now.lines (roots_of every b.now) j }
{
    mark_always(b, marks);
    mark_all_outs(&b.outs, marks);
    mark_needed(&b.lines, marks);
}

/// The lines that are marked, every other one gone.
fn kept_lines(alloc: Global, lines: &Lines, marks: &[bool]) -> Result<Lines, AllocError>
    requires { length marks.now ≡ length lines.now }
    ensures { IfOk result (λ all. all ≡ kept_lines (set_of marks.now) 0 lines.now) }
{
    let mut all = Lines::new(alloc);
    for index in 0..lines.len() {
        all.push(if marks[index] {
            lines.line(index)
        } else {
            Line::Gone
        })?;
    }
    Ok(all)
}

/// The block without the lines that it does not need: those outside the least closed set that has its stores, the lines of all its outs
/// and the line that its exit reads. They are gone, and each other line keeps its number. The work is linear in the lines.
///
/// An error comes for want of memory.
pub fn prune(alloc: Global, b: &Block) -> Result<Block, AllocError>
    ensures { IfOk result (λ block. block ≡ pruned b.now) }
{
    let mut marks = vec![in alloc; false; b.lines.len()]?;
    mark_block(b, marks.as_mut_slice());
    Ok(Block {
        start: b.start,
        lines: kept_lines(alloc, &b.lines, marks.as_slice())?,
        outs: b.outs,
        exit: b.exit,
    })
}
