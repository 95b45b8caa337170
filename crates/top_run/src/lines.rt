//! The last lines of runs.
ghost use Rattle.std.specs.Prelude.{◌≡◌, IfOk, string_bytes};
ghost use Rattle.br_word.specs.State.{Faulted};
ghost use Rattle.guest_run.specs.Guest.{stop_of};
ghost use Rattle.top_run.specs.RunPlan.{fault_kind, fault_address, stand_text, last_line, finish_of};
ghost use Rattle.top_run.specs.TracePlan.{traced_line};

use br_word::{GuestFault, Width};
use guest_run::Stop as Stand;
use ia_text::digits_text;
use std::alloc::{AllocError, Global};
use top_plan::Finish;

/// The word of a fault.
fn fault_kind(fault: GuestFault) -> &'static str
    ensures { result.now ≡ fault_kind fault }
{
    match fault {
        GuestFault::Access(_) => "access",
        GuestFault::Illegal(_) => "illegal",
        GuestFault::Divide(_) => "divide",
    }
}

/// The address of a fault.
fn fault_address(fault: GuestFault) -> u32
    ensures { result ≡ fault_address fault }
{
    match fault {
        GuestFault::Access(at) | GuestFault::Illegal(at) | GuestFault::Divide(at) => at,
    }
}

/// How a guest stands that has faulted.
fn fault_text(alloc: Global, fault: GuestFault) -> Result<String, AllocError>
    ensures { IfOk result (λ text. string_bytes text ≡ stand_text (Faulted fault)) }
{
    let kind = fault_kind(fault);
    let address = digits_text(alloc, Width::B32, fault_address(fault))?;
    format!(in alloc; "fault {kind} {address}")
}

/// How a guest stands.
pub fn stand_text(alloc: Global, stand: Stand) -> Result<String, AllocError>
    ensures { IfOk result (λ text. string_bytes text ≡ stand_text (stop_of stand)) }
{
    match stand {
        Stand::Budget => String::from_str(alloc, "budget"),
        Stand::Exited(status) => format!(in alloc; "exit {status}"),
        Stand::Fault(fault) => fault_text(alloc, fault),
    }
}

/// The last line: how a guest stands, the steps that it took, and how many of them read a flag that was
/// not defined.
pub fn last_line(
    alloc: Global,
    stand: Stand,
    steps: u64,
    undefined: u64,
) -> Result<String, AllocError>
    ensures { IfOk result (λ line. string_bytes line ≡ last_line (stop_of stand) steps undefined) }
{
    let text = stand_text(alloc, stand)?;
    format!(in alloc; "{text} steps {steps} undefined {undefined}\n")
}

/// The last line of a traced run: the same, and how many edges were recorded.
pub fn traced_line(
    alloc: Global,
    stand: Stand,
    steps: u64,
    undefined: u64,
    edges: u32,
) -> Result<String, AllocError>
    ensures { IfOk result (λ line. string_bytes line ≡ traced_line (stop_of stand) steps undefined edges) }
{
    let text = stand_text(alloc, stand)?;
    format!(in alloc; "{text} steps {steps} undefined {undefined} edges {edges}\n")
}

/// How the work of a guest that stands so is done.
pub fn finish_of(stand: Stand) -> Finish
    ensures { result ≡ finish_of (stop_of stand) }
{
    match stand {
        Stand::Budget => Finish::Budget,
        Stand::Exited(_) => Finish::Done,
        Stand::Fault(_) => Finish::Fault,
    }
}
