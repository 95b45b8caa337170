//! Laws on spellings: they are prefix-free.

ghost use Rattle.std.specs.Prelude.{◌≡◌, ℕ, List, [], ◌++◌};
ghost use Rattle.ia_inst.specs.Spells.{Spells};
ghost use Rattle.ia_inst.specs.declared.inst.Inst.{Inst};

/// Two spellings with which the same bytes begin are one, of one instruction.
pub fn one_spelling()
    ensures { (a b x y : List ℕ) (i j : Inst) → Spells a i → Spells b j → a ++ x ≡ b ++ y → (a ≡ b) × (i ≡ j) }
{}

/// A spelling is of one instruction.
pub fn one_instruction()
    ensures { (bytes : List ℕ) (i j : Inst) → Spells bytes i → Spells bytes j → i ≡ j }
{}

/// The spellings are prefix-free: none is a proper front of another.
pub fn prefix_free()
    ensures { (front rest : List ℕ) (i j : Inst) → Spells front i → Spells (front ++ rest) j → rest ≡ [] }
{}
