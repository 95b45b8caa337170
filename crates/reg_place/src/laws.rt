//! The laws of places and homes. Each is the contract of a call that does nothing, so that a proof above can cite it.
ghost use Rattle.ssa_form.specs.declared.form.Block.{Block};
ghost use Rattle.ssa_form.specs.declared.form.Split.{Split};
ghost use Rattle.reg_place.specs.Laws.{AreEntries, ArePlaced, EachPlaced, HomesLie, NoneLost, OfSplits, PlacesLie};

/// Of the lines of a split, in the order of placing, each that has a result has the first place that no earlier line has which a later
/// line, an out or the exit uses. So no place is given to another line before its line's last use. Each such line has one of as many
/// places as the block has lines, and no other line has one.
pub fn lines_placed()
    ensures first { OfSplits ArePlaced }
    ensures lost { OfSplits NoneLost }
    ensures each { OfSplits EachPlaced }
    ensures entries { (b : Block) (s : Split) → AreEntries b s }
{}

/// Places are edi, edx and slots from 17 on, below 2065 for the first 2048. Homes are distinct, and none is eax, ecx, a slot from 14 on or
/// a place.
pub fn places_lie()
    ensures places { PlacesLie }
    ensures homes { HomesLie }
{}
