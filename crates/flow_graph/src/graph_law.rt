//! The law of graphs.
ghost use Rattle.flow_graph.specs.GraphOf.{OneGraph};

use block_cut::following_above;

/// The blocks of the graph of a guest's executable and edges are one list, a function of them, which alone
/// decides whether there are too many; all of them start in executable segments. The call does nothing: its
/// contract is the law.
pub fn one_graph()
    ensures { OneGraph }
{
    following_above();
}
