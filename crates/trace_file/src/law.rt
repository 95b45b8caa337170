//! The laws of written traces and of sets.
ghost use Rattle.trace_file.specs.Trace.{ReadsBack};
ghost use Rattle.trace_file.specs.Edges.{SetsHold};

/// Each trace file that is written of edges and a digest reads, with that digest, as those edges.
pub fn read_back()
    ensures { ReadsBack }
{}

/// Edges in any order that are put in one after another give a set of exactly these edges, and the union
/// of sets has exactly the edges that are in some of them; and two sets of the same edges are one list.
pub fn sets_hold()
    ensures { SetsHold }
{}
