//! What `build` comes to.
ghost use Rattle.std.specs.Prelude.{ℕ, List};
ghost use Rattle.top_plan.specs.World.{World};
ghost use Rattle.top_plan.specs.Happened.{Happened};
ghost use Rattle.top_plan.specs.Partial.{IsOrderly};
ghost use Rattle.top_build.specs.BuildPlan.{build_plan};
ghost use Rattle.top_build.specs.BuildMeaning.{MeansBuild};
ghost use Rattle.top_build.specs.Spelled.{AreSpelled, AreOnly};

use build_core::image_law;
use ia_decode::found_is_spelled;
use top_plan::plan_law;

/// The plan of `build` is orderly, and what is answered after a run of it means what it is to mean. What the step of a run finds is
/// what the table of spellings says.
pub fn build_law()
    ensures orderly { (name original : List ℕ) (traces : List (List ℕ)) → IsOrderly (build_plan name original traces) }
    ensures means { (name original : List ℕ) (traces : List (List ℕ)) (s : World) (result : ℕ) (t : World)
        → Happened (build_plan name original traces) s result t → MeansBuild name original traces s result t }
    ensures spelled { AreSpelled }
    ensures only { AreOnly }
{
    found_is_spelled();
    image_law();
    plan_law();
}
