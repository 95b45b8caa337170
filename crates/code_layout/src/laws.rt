//! Laws of recovered code.
ghost use Rattle.code_layout.specs.Image.{EmptyImage};
ghost use Rattle.code_layout.specs.Layout.{LayoutLinks, KeysAreKeys};

use block_cut::one_block;
use flow_graph::one_graph;
use live_flow::sets_are_narrow;

/// Where the fragments of keys were added to a layout, filling in the distances gives the code of the keys, and so much was counted.
/// The call does nothing: its contract is the law.
pub fn layout_links()
    ensures { LayoutLinks }
{}

/// Without edges the recovered code is one jump to the original's entry. The call does nothing: its contract is the law.
pub fn empty_image()
    ensures { EmptyImage }
{}

/// The keys of a graph ascend by their starts, and their fragments make a layout that is whole; of each key a fragment can be made.
pub fn keys_are_keys()
    ensures { KeysAreKeys }
{
    one_graph();
    one_block();
    sets_are_narrow();
}
