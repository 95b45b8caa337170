//! Whether the code at an entry leads to recovered code.
ghost use Rattle.std.specs.Prelude.{◌≡◌, List};
ghost use Rattle.run_model.specs.Edges.{Edge};
ghost use Rattle.flow_graph.specs.GraphOf.{graph_of};
ghost use Rattle.code_layout.specs.Keys.{keys_of};
ghost use Rattle.code_layout.specs.Linked.{has_key};

use elf_read::Exe;
use flow_graph::Graph;

/// Whether a block of the graph of an executable and edges starts at the entry, and so a key of theirs does.
pub fn is_entry_known(exe: &Exe, graph: &Graph) -> bool
    ensures { (edges : List Edge) → graph.now.nodes ≡ graph_of exe.now edges → result ≡ has_key (keys_of exe.now edges) exe.now.entry }
{
    graph.index_of(exe.entry).is_some()
}
