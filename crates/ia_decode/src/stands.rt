//! What the step finds is what the table of spellings says.

ghost use Rattle.std.specs.Prelude.{◌≡◌, ℕ, List};
ghost use Rattle.br_word.specs.Memory.{Region, HoldBytes};
ghost use Rattle.br_word.specs.State.{State};
ghost use Rattle.ia_inst.specs.Step.{Found, found, step};
ghost use Rattle.ia_inst.specs.Stands.{Stands, StepsTo};

/// In memory of bytes the step finds what stands at the address, and nothing else stands there.
pub fn found_is_spelled()
    ensures stands { (at : ℕ) (rs : List Region) → HoldBytes rs → Stands at rs (found at rs) }
    ensures only { (at : ℕ) (rs : List Region) (f : Found) → HoldBytes rs → Stands at rs f → found at rs ≡ f }
{}

/// At most one thing stands at an address, whatever memory holds.
pub fn one_stands()
    ensures { (at : ℕ) (rs : List Region) (f g : Found) → Stands at rs f → Stands at rs g → f ≡ g }
{}

/// From a state with memory of bytes the step is the one that the table says, and no other.
pub fn step_is_spelled()
    ensures stands { (s : State) (c : ℕ) → HoldBytes s.regions → StepsTo s c (step s c) }
    ensures only { (s t : State) (c : ℕ) → HoldBytes s.regions → StepsTo s c t → step s c ≡ t }
{}
