//! Laws of layouts that take the fragments of keys one after another.
ghost use Rattle.code_layout.specs.Growth.{LayoutsGrow, LayoutsBuild};

use crate::laws::layout_links;

/// The fragment of each next key may be added, and no part of a layout is longer than all of it. The call does nothing: its contract
/// is the law.
pub fn layouts_grow()
    ensures { LayoutsGrow }
{}

/// The layout of all keys of a graph gives what is built for it, where the code is not too long. The call does nothing: its contract
/// is the law.
pub fn layouts_build()
    ensures { LayoutsBuild }
{
    layout_links();
}
