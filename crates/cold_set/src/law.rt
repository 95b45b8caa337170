//! The law of cold starts.
ghost use Rattle.cold_set.specs.ColdStarts.{ColdLeast};

/// The cold starts of a guest's executable and starts of blocks are one ascending list, of the members of the least set of
/// addresses in code that are no starts, which has the entry, each address where a block goes on, and each where the cold block
/// of a member goes on. The call does nothing: its contract is the law.
pub fn cold_least()
    ensures { ColdLeast }
{}
