//! What a call comes to, whatever its plan.
ghost use Rattle.std.specs.Prelude.{◌≡◌, ℕ, Result};
ghost use Rattle.top_plan.specs.World.{World};
ghost use Rattle.top_plan.specs.Plan.{Plan};
ghost use Rattle.top_plan.specs.Happened.{Happened, Answered};
ghost use Rattle.top_plan.specs.Expected.{IsExact, IsComplete, HasCause};
ghost use Rattle.top_plan.specs.Partial.{IsOrderly, IsPartial};
ghost use Rattle.top_plan.specs.Steady.{IsSteady};

/// What a call that did a run of a plan, and reported its end, has done: all that the plan asks, over objects that tell
/// what they hold, or a front part of it; and in each case where a fault stands.
pub fn plan_law()
    ensures exact { (p : Plan) (s : World) (result : ℕ) (t : World) → IsOrderly p → Happened p s result t → IsExact p s result t }
    ensures complete { (p : Plan) (s : World) (result : ℕ) (t : World) → IsOrderly p → Happened p s result t → IsComplete p s result t }
    ensures partial { (p : Plan) (s : World) (result : ℕ) (t : World) → IsOrderly p → Happened p s result t → IsPartial p s t }
    ensures planned { (p : Plan) (s : World) (result : ℕ) (t : World) → Happened p s result t → result ≡ 1 → ⊥ }
    ensures cause { (asked : Result Plan ℕ) (s : World) (result : ℕ) (t : World) → Answered asked s result t → HasCause s result t }
    ensures steady { (asked : Result Plan ℕ) (s : World) (result : ℕ) (t : World) → Answered asked s result t → IsSteady s result t }
{}
