//! The sweep.
ghost use Rattle.std.specs.Prelude.{◌≡◌, ℕ, ◌<◌, length};
ghost use Rattle.pass_dead.specs.Names.{set_of};
ghost use Rattle.pass_dead.specs.Needed.{needed};

use crate::marks::mark_line;
use ssa_form::Lines;

/// Marks what the marked lines need, from the last line to the first. It takes no memory, and its work is linear in the lines.
pub fn mark_needed(lines: &Lines, marks: &mut [bool])
    requires { length marks.old ≡ length lines.now }
    ensures { (j : ℕ) → j < length lines.now → set_of marks.new j ≡ needed lines.now (set_of marks.old) j }
{
    for index in (0..lines.len()).rev() {
        if marks[index] {
            mark_line(lines.line(index), marks);
        }
    }
}
