//! The laws of the demonstration, for each number of its functions.
//!
//! Each is the contract of a call that does nothing but name the laws that it rests on.

ghost use Rattle.demo_laws.specs.Accepted.{DemoAccepted};
ghost use Rattle.demo_laws.specs.Sites.{DemoSites};
ghost use Rattle.demo_laws.specs.Runs.{DemoRuns};
ghost use Rattle.demo_laws.specs.Graph.{DemoGraph};

use block_cut::one_block;
use elf_flat::flat_accepted;
use flow_graph::one_graph;
use run_model::runs_split;
use sim_laws::edges_count;
use trace_file::sets_hold;

/// The demonstration with 1 to 1000 functions is a file of bytes, accepted as an original and as a guest: one segment, which is
/// the whole file.
pub fn demo_accepted()
    ensures { DemoAccepted }
{
    flat_accepted();
}

/// What stands in its code: a MOV, a call of each function, the system calls write and exit, and the functions.
pub fn demo_sites()
    ensures { DemoSites }
{}

/// Its run without words and input is well defined, exits with 0 after at most 10 steps and 5 for each function, and writes
/// the four bytes of the last value to descriptor 1.
pub fn demo_runs()
    ensures { DemoRuns }
{
    demo_accepted();
    demo_sites();
    runs_split();
}

/// The graph of the edges of its run, as a set, is one list: 4 blocks and 3 for each function, each of at most five
/// instructions and with one known exit.
pub fn demo_graph()
    ensures { DemoGraph }
{
    demo_accepted();
    demo_sites();
    demo_runs();
    one_block();
    one_graph();
    edges_count();
    sets_hold();
}
