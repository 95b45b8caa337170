//! What `run` and `trace` come to.
ghost use Rattle.std.specs.Prelude.{ℕ, List};
ghost use Rattle.top_plan.specs.World.{World};
ghost use Rattle.top_plan.specs.Happened.{Happened};
ghost use Rattle.top_plan.specs.Partial.{IsOrderly};
ghost use Rattle.top_run.specs.RunPlan.{run_plan};
ghost use Rattle.top_run.specs.RunMeaning.{MeansRun};
ghost use Rattle.top_run.specs.TracePlan.{trace_plan};
ghost use Rattle.top_run.specs.TraceMeaning.{MeansTrace};

use guest_run::input_is_used;
use top_plan::plan_law;

/// The plan of `run` is orderly, and what is answered after a run of it means what it is to mean.
pub fn run_law()
    ensures orderly { (steps : ℕ) (name : List ℕ) (args : List (List ℕ)) (word : ℕ) → IsOrderly (run_plan steps name args word) }
    ensures means { (steps : ℕ) (name : List ℕ) (args : List (List ℕ)) (word : ℕ) (s : World) (result : ℕ) (t : World)
        → Happened (run_plan steps name args word) s result t → MeansRun steps name args word s result t }
{
    plan_law();
    input_is_used();
}

/// The plan of `trace` is orderly, and what is answered after a run of it means what it is to mean.
pub fn trace_law()
    ensures orderly { (steps : ℕ) (target original : List ℕ) (args : List (List ℕ)) (word : ℕ)
        → IsOrderly (trace_plan steps target original args word) }
    ensures means { (steps : ℕ) (target original : List ℕ) (args : List (List ℕ)) (word : ℕ) (s : World) (result : ℕ) (t : World)
        → Happened (trace_plan steps target original args word) s result t → MeansTrace steps target original args word s result t }
{
    plan_law();
    input_is_used();
}
