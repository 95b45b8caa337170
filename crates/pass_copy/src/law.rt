//! The law of folding: the contract of a call that does nothing but name the law that it rests on.
ghost use Rattle.pass_copy.specs.Folded.{FoldKeeps, FoldIsChecked, FoldHasForm};

use pass_const::rules_hold;

/// Where a checked block's loads and stores are allowed, so are those of the folded block, and its outs, memory and exit address are the
/// same, for numbers of 32 bits and a memory of bytes. The folded block is checked, and has as many lines and the same kind of exit.
pub fn fold_keeps()
    ensures keeps { FoldKeeps }
    ensures checked { FoldIsChecked }
    ensures form { FoldHasForm }
{
    rules_hold();
}
