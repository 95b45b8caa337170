//! What `demo` comes to.
ghost use Rattle.std.specs.Prelude.{ℕ, ◌≤◌};
ghost use Rattle.top_plan.specs.World.{World};
ghost use Rattle.top_plan.specs.Happened.{Happened};
ghost use Rattle.top_plan.specs.Partial.{IsOrderly};
ghost use Rattle.top_demo.specs.DemoPlan.{demo_plan};
ghost use Rattle.top_demo.specs.DemoFits.{DemoFits};
ghost use Rattle.top_demo.specs.DemoMeaning.{MeansDemo};

use build_core::image_law;
use code_layout::code_short;
use demo_laws::{demo_accepted, demo_graph, demo_runs};
use run_model::runs_split;
use trace_file::sets_hold;

/// The demonstration, its trace and the file that is written for it pass no limit.
pub fn demo_fits()
    ensures { DemoFits }
{
    demo_accepted();
    demo_runs();
    demo_graph();
    sets_hold();
    code_short();
    image_law();
}

/// The plan of `demo` is orderly, and what is answered after a run of it means what it is to mean.
pub fn demo_law()
    ensures orderly { (count : ℕ) → IsOrderly (demo_plan count) }
    ensures means { (count : ℕ) (s : World) (result : ℕ) (t : World) → 1 ≤ count → count ≤ 1000
        → Happened (demo_plan count) s result t → MeansDemo count s result t }
{
    demo_accepted();
    demo_runs();
    demo_graph();
    sets_hold();
    code_short();
    runs_split();
    image_law();
}
