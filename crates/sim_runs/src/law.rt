//! The laws of recovered files.
ghost use Rattle.sim_runs.specs.Law.{LawsPreserve, ReachesWithin, StepsRelate, StepsStay};

use block_cut::one_block;
use flow_graph::one_graph;
use ia_decode::encoding_length;
use lift_laws::{block_means, blocks_are_quiet};
use sim_laws::{goes_by_kind, leaves_by_known, runs_wider, stays_in_code};

/// From block to block, the guest of the file follows the original's: what is related before some steps of
/// both is so afterwards, and on the way the file shows what the original does. `stays` says it of steps that
/// keep to the recorded edges, which never leave the recovered code.
pub fn fragment_step()
    ensures relate { StepsRelate }
    ensures stays { StepsStay }
{
    stays_in_code();
    runs_wider();
    goes_by_kind();
    leaves_by_known();
    one_block();
    one_graph();
    encoding_length();
    block_means();
    blocks_are_quiet();
}

/// What the parts promise makes a file preserve what the original does, and cover its recorded edges;
/// `within` says how many steps the file takes.
pub fn laws_preserve()
    ensures both { LawsPreserve }
    ensures within { ReachesWithin }
{
    stays_in_code();
    runs_wider();
    goes_by_kind();
    leaves_by_known();
    one_block();
    one_graph();
    encoding_length();
    block_means();
    blocks_are_quiet();
}
