//! The laws of pruning. Each is the contract of a call that does nothing, so that a proof above can cite it.
ghost use Rattle.pass_dead.specs.Needed.{NeededIsLeast, PruneKeeps, PruneIsChecked, PruneHasForm};

/// One sweep from the last line to the first gives the least closed set of a checked block's lines that has the roots.
pub fn needed_is_least()
    ensures { NeededIsLeast }
{}

/// Where a checked block's loads and stores are allowed, so are those of the pruned block, and its outs, memory and exit address are the
/// same. The pruned block is checked, so that no line, out or exit names a line that is gone, and has as many lines.
pub fn prune_keeps()
    ensures keeps { PruneKeeps }
    ensures checked { PruneIsChecked }
    ensures form { PruneHasForm }
{}
