//! One step of a guest that runs, on its processor and its memory.
ghost use Rattle.std.specs.Prelude.{◌≡◌, ◌<◌, ◌-◌, ◌^◌, IsTrue, Some, None};
ghost use Rattle.ia_inst.specs.Canonical.{valid_of};
ghost use Rattle.ia_inst.specs.Step.{There, found};
ghost use Rattle.guest_sys.specs.Machine.{machine};
ghost use Rattle.run_model.specs.Edges.{is_transfer};
ghost use Rattle.guest_run.specs.Advance.{IsFound, Advance, Trap, edge_if};

use crate::stop::Stop;
use br_outside::{Sink, Source};
use guest_mem::Memory;
use guest_sys::{Called, SysError, system};
use ia_decode::{decode, fifteen_bytes_decide};
use ia_inst::{GuestFault, Inst, Kind, kind};
use ia_meaning::{Cpu, Outcome, execute};
use std::alloc::Global;

/// What stands at an address.
#[derive(Clone, Copy, Debug, PartialEq, Eq)]
pub enum Code {
    /// No executable memory.
    Missing,
    /// No spelling of an instruction.
    Unreadable,
    /// An instruction, and the length of its spelling.
    Inst(Inst, u8),
}

/// What a step comes to: how the guest stands, and the edge of the step.
#[derive(Clone, Copy, Debug, PartialEq, Eq)]
pub struct Advanced {
    /// How the guest stands: `Budget` while it runs.
    pub stop: Stop,
    /// The site and the target of a transfer that did not fault.
    pub edge: Option<(u32, u32)>,
}

/// What stands at an address.
fn code_at(memory: &Memory, at: u32) -> Code
    ensures { IsFound (found at memory.now.regions) result }
{
    fifteen_bytes_decide();
    let mut bytes = [0u8; 15];
    let count = memory.fetch(at, &mut bytes);
    if count == 0 {
        return Code::Missing;
    }
    match decode(&bytes[..count as usize]) {
        None => Code::Unreadable,
        Some((inst, len)) => Code::Inst(inst, len),
    }
}

/// A guest that has stopped at a fault.
fn faulted(fault: GuestFault) -> Advanced
    ensures { result ≡ record { stop = Stop.Fault fault; edge = None } }
{
    Advanced {
        stop: Stop::Fault(fault),
        edge: None,
    }
}

/// The edge of an instruction that has led from an address to another, if it is a transfer.
fn edge(inst: &Inst, from: u32, to: u32) -> Option<(u32, u32)>
    requires { IsTrue (valid_of inst.now) }
    ensures { result ≡ edge_if (is_transfer inst.now) from to }
{
    match kind(inst) {
        Kind::Transfer => Some((from, to)),
        _ => None,
    }
}

/// The system call of an instruction at `at`, with eip behind it. After a fault and after an error
/// eip is `at` again.
#[inline(never)]
fn trap<I: Source, O: Sink, E: Sink>(
    alloc: Global,
    at: u32,
    cpu: &mut Cpu,
    memory: &mut Memory,
    input: &mut I,
    out: &mut O,
    err: &mut E,
) -> Result<Advanced, SysError>
    ensures { Trap at result (machine cpu.old memory.old (I.seen input.old) (O.seen out.old) (E.seen err.old))
        (machine cpu.new memory.new (I.seen input.new) (O.seen out.new) (E.seen err.new)) }
{
    let stop = match system(alloc, cpu, memory, input, out, err) {
        Err(error) => {
            cpu.eip = at;
            return Err(error);
        }
        Ok(Called::Fault(fault)) => {
            cpu.eip = at;
            return Ok(faulted(fault));
        }
        Ok(Called::Goes) => Stop::Budget,
        Ok(Called::Exit(status)) => Stop::Exited(status),
    };
    Ok(Advanced { stop, edge: None })
}

/// Carries out an instruction of `len` bytes that stands at eip.
fn carry_out<I: Source, O: Sink, E: Sink>(
    alloc: Global,
    inst: &Inst,
    len: u8,
    cpu: &mut Cpu,
    memory: &mut Memory,
    choice: u8,
    input: &mut I,
    out: &mut O,
    err: &mut E,
) -> Result<Advanced, SysError>
    requires valid { IsTrue (valid_of inst.now) }
    requires room { cpu.old.undefined < 2 ^ 64 - 1 }
    ensures { Advance (There inst.now len) result choice
        (machine cpu.old memory.old (I.seen input.old) (O.seen out.old) (E.seen err.old))
        (machine cpu.new memory.new (I.seen input.new) (O.seen out.new) (E.seen err.new)) }
{
    let at = cpu.eip;
    match execute(inst, len, cpu, memory, choice) {
        Outcome::Trap => trap(alloc, at, cpu, memory, input, out, err),
        Outcome::Fault(fault) => Ok(faulted(fault)),
        Outcome::Next => Ok(Advanced {
            stop: Stop::Budget,
            edge: edge(inst, at, cpu.eip),
        }),
    }
}

/// Takes the step of a guest that runs, whose bytes at eip do not lie in one page.
#[inline(never)]
fn advance_over_border<I: Source, O: Sink, E: Sink>(
    alloc: Global,
    cpu: &mut Cpu,
    memory: &mut Memory,
    choice: u8,
    input: &mut I,
    out: &mut O,
    err: &mut E,
) -> Result<Advanced, SysError>
    requires { cpu.old.undefined < 2 ^ 64 - 1 }
    ensures { Advance (found cpu.old.eip memory.old.regions) result choice
        (machine cpu.old memory.old (I.seen input.old) (O.seen out.old) (E.seen err.old))
        (machine cpu.new memory.new (I.seen input.new) (O.seen out.new) (E.seen err.new)) }
{
    match code_at(memory, cpu.eip) {
        Code::Missing => Ok(faulted(GuestFault::Access(cpu.eip))),
        Code::Unreadable => Ok(faulted(GuestFault::Illegal(cpu.eip))),
        Code::Inst(inst, len) => {
            carry_out(alloc, &inst, len, cpu, memory, choice, input, out, err)
        }
    }
}

/// Takes the step of a guest that runs.
pub fn advance<I: Source, O: Sink, E: Sink>(
    alloc: Global,
    cpu: &mut Cpu,
    memory: &mut Memory,
    choice: u8,
    input: &mut I,
    out: &mut O,
    err: &mut E,
) -> Result<Advanced, SysError>
    requires { cpu.old.undefined < 2 ^ 64 - 1 }
    ensures { Advance (found cpu.old.eip memory.old.regions) result choice
        (machine cpu.old memory.old (I.seen input.old) (O.seen out.old) (E.seen err.old))
        (machine cpu.new memory.new (I.seen input.new) (O.seen out.new) (E.seen err.new)) }
{
    fifteen_bytes_decide();
    let bytes = memory.code(cpu.eip);
    let count = bytes.len();
    if count == 0 {
        return advance_over_border(alloc, cpu, memory, choice, input, out, err);
    }
    let found = decode(bytes);
    match &found {
        None => Ok(faulted(GuestFault::Illegal(cpu.eip))),
        Some((inst, len)) => carry_out(alloc, inst, *len, cpu, memory, choice, input, out, err),
    }
}
