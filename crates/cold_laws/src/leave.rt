//! Ends of copies.
ghost use Rattle.cold_laws.specs.Ends.{EndsByCallMem, EndsByRet, EndsByJmpMem, EndsByJmpReg, EndsByCallReg};

use sim_laws::stays_in_code;

/// The code at the end of a copy does what an indirect jump, an indirect call or a return does: the target is read before the address behind
/// is pushed, and the dispatcher leads on from it, all within 128 steps.
pub fn ends_in_place()
    ensures call { EndsByCallMem }
    ensures jmp { EndsByJmpMem }
    ensures jmp_reg { EndsByJmpReg }
    ensures call_reg { EndsByCallReg }
    ensures ret { EndsByRet }
{
    stays_in_code();
}
