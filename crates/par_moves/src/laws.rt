//! A law of moves: the contract of a call that does nothing, so that a proof above can cite it.
ghost use Rattle.std.specs.Prelude.{◌≡◌, false, List, All, length};
ghost use Rattle.par_moves.specs.declared.locations.PlaceMove.{PlaceMove};
ghost use Rattle.par_moves.specs.Locations.{same_place, spare};
ghost use Rattle.par_moves.specs.Moves.{sequenced, ActAtOnce, AreApart};

/// Moves with distinct destinations, none of them the spare, act at once where they are done in the order of `sequence`.
pub fn moves_at_once()
    ensures { (moves : List PlaceMove) → AreApart moves → All (λ m. same_place m.to spare ≡ false) moves →
        ActAtOnce moves (sequenced (length moves) moves) }
{}
