//! What `session` comes to.
ghost use Rattle.std.specs.Prelude.{ℕ, List};
ghost use Rattle.top_plan.specs.World.{World};
ghost use Rattle.top_plan.specs.Happened.{Happened};
ghost use Rattle.top_plan.specs.Partial.{IsOrderly};
ghost use Rattle.top_session.specs.SessionPlan.{session_plan};
ghost use Rattle.top_session.specs.SessionMeaning.{MeansSession};

use build_core::image_law;
use top_plan::plan_law;

/// The plan of `session` is orderly, and what is answered after a run of it means what it is to mean.
pub fn session_law()
    ensures orderly { (original : List ℕ) → IsOrderly (session_plan original) }
    ensures means { (original : List ℕ) (s : World) (result : ℕ) (t : World)
        → Happened (session_plan original) s result t → MeansSession original s result t }
{
    image_law();
    plan_law();
}
