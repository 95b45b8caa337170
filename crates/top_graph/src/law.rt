//! What `merge` and `show` come to.
ghost use Rattle.std.specs.Prelude.{ℕ, List};
ghost use Rattle.top_plan.specs.World.{World};
ghost use Rattle.top_plan.specs.Happened.{Happened};
ghost use Rattle.top_plan.specs.Partial.{IsOrderly};
ghost use Rattle.top_graph.specs.MergePlan.{merge_plan};
ghost use Rattle.top_graph.specs.MergeMeaning.{MeansMerge};
ghost use Rattle.top_graph.specs.ShowPlan.{show_plan};
ghost use Rattle.top_graph.specs.ShowMeaning.{MeansShow};

use top_plan::plan_law;

/// The plan of `merge` is orderly, and what is answered after a run of it means what it is to mean.
pub fn merge_law()
    ensures orderly { (target original : List ℕ) (names : List (List ℕ)) → IsOrderly (merge_plan target original names) }
    ensures means { (target original : List ℕ) (names : List (List ℕ)) (s : World) (result : ℕ) (t : World)
        → Happened (merge_plan target original names) s result t → MeansMerge target original names s result t }
{
    plan_law();
}

/// The plan of `show` is orderly, and what is answered after a run of it means what it is to mean.
pub fn show_law()
    ensures orderly { (original : List ℕ) (names : List (List ℕ)) → IsOrderly (show_plan original names) }
    ensures means { (original : List ℕ) (names : List (List ℕ)) (s : World) (result : ℕ) (t : World)
        → Happened (show_plan original names) s result t → MeansShow original names s result t }
{
    plan_law();
}
