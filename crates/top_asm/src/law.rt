//! What `asm` comes to.
ghost use Rattle.std.specs.Prelude.{ℕ, List};
ghost use Rattle.top_plan.specs.World.{World};
ghost use Rattle.top_plan.specs.Happened.{Happened};
ghost use Rattle.top_plan.specs.Partial.{IsOrderly};
ghost use Rattle.top_asm.specs.AsmPlan.{asm_plan};
ghost use Rattle.top_asm.specs.AsmMeaning.{MeansAsm};

use asm_text::asm_law;
use top_plan::plan_law;

/// The plan of `asm` is orderly, and what is answered after a run of it means what it is to mean.
pub fn asm_command_law()
    ensures orderly { (name text : List ℕ) → IsOrderly (asm_plan name text) }
    ensures means { (name text : List ℕ) (s : World) (result : ℕ) (t : World)
        → Happened (asm_plan name text) s result t → MeansAsm name text s result t }
{
    asm_law();
    plan_law();
}
