//! The two parts of a block's lines.
ghost use Rattle.std.specs.Prelude.{◌≡◌, ℕ, ◌<◌, ◌&&◌, Bool, true, false, not, IfOk, length, get_or};
ghost use Rattle.ssa_form.specs.declared.form.Line.TheVariants.{Gone};
ghost use Rattle.pass_dead.specs.Names.{set_of, has, Adds};
ghost use Rattle.stub_sink.specs.Splits.{is_load, fall_of, IsSet, IsWithout, IsBodyOf, split_of};

use crate::exits::{has_fallback, live_at, starts_of};
use pass_dead::{mark_all_outs, mark_always, mark_needed, mark_outs};
use ssa_form::{Block, BlockKey, Line, Lines, Marks, Split};
use std::alloc::{AllocError, Global};

/// Marks what a side exit needs of a block, nothing of which is marked before.
fn mark_fall(b: &Block, marks: &mut [bool])
    requires length { length marks.old ≡ length b.now.lines }
    requires none { (j : ℕ) → set_of marks.old j ≡ false }
    ensures { IsSet marks.new b.now.lines (fall_of true b.now) }
{
    mark_all_outs(&b.outs, marks);
    mark_needed(&b.lines, marks);
}

/// What a side exit needs of a block, nothing where it has none.
fn fall_marks(alloc: Global, b: &Block, unknown: bool) -> Result<Vec<bool>, AllocError>
    ensures length { IfOk result (λ marks. length marks.items ≡ length b.now.lines) }
    ensures marks { IfOk result (λ marks. IsSet marks.items b.now.lines (fall_of unknown b.now)) }
{
    let mut marks = vec![in alloc; false; b.lines.len()]?;
    if unknown {
        mark_fall(b, marks.as_mut_slice());
    }
    Ok(marks)
}

/// Marks the loads of a set of lines.
fn mark_loads(lines: &Lines, set: &[bool], marks: &mut [bool])
    requires set { length set.now ≡ length lines.now }
    requires marks { length marks.old ≡ length lines.now }
    ensures { Adds marks.old (λ j. set_of set.now j && is_load (get_or lines.now j Gone)) marks.new }
{
    for index in 0..lines.len() {
        if set[index] && matches!(lines.line(index), Line::Load { .. }) {
            marks[index] = true;
        }
    }
}

/// Marks the body of a block, nothing of which is marked before, from the registers that are live at a known exit and from what a side
/// exit needs.
fn mark_body(b: &Block, live: u16, fall: &[bool], marks: &mut [bool])
    requires fall { length fall.now ≡ length b.now.lines }
    requires marks { length marks.old ≡ length b.now.lines }
    requires none { (j : ℕ) → set_of marks.old j ≡ false }
    ensures { IsBodyOf live b.now fall.now marks.new }
{
    mark_always(b, marks);
    mark_outs(&b.outs, live, marks);
    mark_loads(&b.lines, fall, marks);
    mark_needed(&b.lines, marks);
}

/// The body of a block.
fn body_marks(alloc: Global, b: &Block, live: u16, fall: &[bool]) -> Result<Vec<bool>, AllocError>
    requires { length fall.now ≡ length b.now.lines }
    ensures length { IfOk result (λ marks. length marks.items ≡ length b.now.lines) }
    ensures marks { IfOk result (λ marks. IsBodyOf live b.now fall.now marks.items) }
{
    let mut marks = vec![in alloc; false; b.lines.len()]?;
    mark_body(b, live, fall, marks.as_mut_slice());
    Ok(marks)
}

/// What is in one set of lines and not in another.
fn without(alloc: Global, set: &[bool], other: &[bool]) -> Result<Vec<bool>, AllocError>
    requires { length other.now ≡ length set.now }
    ensures length { IfOk result (λ marks. length marks.items ≡ length set.now) }
    ensures marks { IfOk result (λ marks. IsWithout set.now other.now marks.items) }
{
    let mut marks = Vec::new(alloc);
    for index in 0..set.len() {
        marks.push(set[index] && !other[index])?;
    }
    Ok(marks)
}

/// The split of a block by a key: which lines are done on every way out, and which only where the block is left by a side exit. The
/// work is linear in the lines and the known exits.
///
/// An error comes for want of memory.
pub fn split(alloc: Global, b: &Block, key: &BlockKey) -> Result<Split, AllocError>
    ensures { IfOk result (λ s. s ≡ split_of b.now key.now) }
{
    let exits = key.exits.as_slice();
    let known = starts_of(alloc, exits)?;
    let unknown = has_fallback(b.exit, known.as_slice());
    let fall = fall_marks(alloc, b, unknown)?;
    let body = body_marks(alloc, b, live_at(exits), fall.as_slice())?;
    let sunk = without(alloc, fall.as_slice(), body.as_slice())?;
    Ok(Split {
        body: Marks::of(body),
        sunk: Marks::of(sunk),
    })
}
