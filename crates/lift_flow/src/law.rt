//! What is known of lifted blocks.
ghost use Rattle.lift_flow.specs.FewLines.{FewLines};

use lift_alu::lines_mean;

/// A block has at most 32 lines for each of its instructions, and each name in it stands for something, whatever stands at its start. The
/// call does nothing: its contract is the law.
pub fn lines_few()
    ensures { FewLines }
{
    lines_mean();
}
