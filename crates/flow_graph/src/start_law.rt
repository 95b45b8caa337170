//! The law of starts.
ghost use Rattle.elf_read.specs.declared.exe.Exe.{Exe};
ghost use Rattle.std.specs.Prelude.{List};
ghost use Rattle.run_model.specs.Edges.{Edge};
ghost use Rattle.flow_graph.specs.Graph.{AreLeast};

/// The starts are the least set that contains the targets of the edges and is closed under following
/// starts. The call does nothing: its contract is the law.
pub fn least_starts()
    ensures { (exe : Exe) (es : List Edge) → AreLeast exe es }
{}
