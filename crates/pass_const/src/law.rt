//! The law of the rules: the contract of a call that does nothing, so that a proof above can cite it.
ghost use Rattle.pass_const.specs.Rule.{EachHolds, EachIsOperand};

/// The name that a rule puts in a line's place has the value of the line, wherever what the line reads has 32 bits. It is one of the
/// names that the line reads, or a number.
pub fn rules_hold()
    ensures holds { EachHolds }
    ensures operand { EachIsOperand }
{}
