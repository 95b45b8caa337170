//! The system calls of int 0x80: the number in eax, the arguments in ebx, ecx and edx, the answer in eax.
ghost use Rattle.std.specs.Prelude.{◌≡◌, ◌≢◌, get_or};
ghost use Rattle.br_outside.specs.Outside.{StreamView};
ghost use Rattle.ia_inst.specs.System.{buffer};
ghost use Rattle.guest_sys.specs.Machine.{machine};
ghost use Rattle.guest_sys.specs.Parts.{with_eax, WritesBuffer};
ghost use Rattle.guest_sys.specs.Calls.{Calls};

use crate::answers::{Called, SysError};
use crate::buffers::{give_buffer, put, wanted};
use crate::taking::{fill, take_up_to};
use br_outside::{Sink, SinkError, Source};
use guest_mem::Memory;
use ia_meaning::{Cpu, GuestFault};
use std::alloc::Global;

/// The answer where the call does not know the descriptor: -9.
const BAD_DESCRIPTOR: u32 = 0xFFFF_FFF7;

/// The answer where no call has the number: -38.
const NO_SUCH_CALL: u32 = 0xFFFF_FFDA;

/// Puts an answer into eax.
fn answer(cpu: &mut Cpu, value: u32) -> Called
    ensures goes { result ≡ Called.Goes }
    ensures eax { cpu.new ≡ with_eax value cpu.old }
{
    cpu.regs[0] = value;
    Called::Goes
}

/// The address of a buffer that may not be used so.
fn denied(cpu: &Cpu) -> Called
    ensures { result ≡ Called.Fault (GuestFault.Access (get_or cpu.now.regs 1 0)) }
{
    Called::Fault(GuestFault::Access(cpu.regs[1]))
}

/// read: fills memory at ecx with at most edx bytes of the input. Where they may not all fit, it takes them first, one more
/// than fit at most.
fn read<I: Source>(
    alloc: Global,
    cpu: &mut Cpu,
    m: &mut Memory,
    input: &mut I,
) -> Result<Called, SysError>
    requires { get_or cpu.old.regs 0 0 ≡ 3 }
    ensures { (o e : StreamView) → Calls result (machine cpu.old m.old (I.seen input.old) o e)
        (machine cpu.new m.new (I.seen input.new) o e) }
{
    if cpu.regs[3] != 0 {
        return Ok(answer(cpu, BAD_DESCRIPTOR));
    }
    if m.can_write(cpu.regs[1], cpu.regs[2]) {
        let count = fill(m, cpu.regs[1], cpu.regs[2], input)?;
        return Ok(answer(cpu, count));
    }
    let most = wanted(m, cpu.regs[1], cpu.regs[2]);
    let bytes = take_up_to(alloc, input, most)?;
    if !put(m, cpu.regs[1], &bytes) {
        return Ok(denied(cpu));
    }
    Ok(answer(cpu, bytes.len() as u32))
}

/// Gives a sink the edx bytes of memory at ecx.
fn write_to<S: Sink>(cpu: &mut Cpu, m: &Memory, sink: &mut S) -> Result<Called, SinkError>
    ensures { WritesBuffer (buffer (get_or cpu.old.regs 1 0) (get_or cpu.old.regs 2 0) m.now.regions) result
        cpu.old cpu.new (S.seen sink.old) (S.seen sink.new) }
{
    if !give_buffer(m, cpu.regs[1], cpu.regs[2], sink)? {
        return Ok(denied(cpu));
    }
    Ok(answer(cpu, cpu.regs[2]))
}

/// write to descriptor 1.
fn write_out<O: Sink>(cpu: &mut Cpu, m: &Memory, out: &mut O) -> Result<Called, SysError>
    requires number { get_or cpu.old.regs 0 0 ≡ 4 }
    requires descriptor { get_or cpu.old.regs 3 0 ≡ 1 }
    ensures { (i e : StreamView) → Calls result (machine cpu.old m.now i (O.seen out.old) e)
        (machine cpu.new m.now i (O.seen out.new) e) }
{
    match write_to(cpu, m, out) {
        Ok(called) => Ok(called),
        Err(SinkError::Failed) => Err(SysError::Out),
        Err(SinkError::Memory) => Err(SysError::Memory),
    }
}

/// write to descriptor 2.
fn write_err<E: Sink>(cpu: &mut Cpu, m: &Memory, err: &mut E) -> Result<Called, SysError>
    requires number { get_or cpu.old.regs 0 0 ≡ 4 }
    requires descriptor { get_or cpu.old.regs 3 0 ≡ 2 }
    ensures { (i o : StreamView) → Calls result (machine cpu.old m.now i o (E.seen err.old))
        (machine cpu.new m.now i o (E.seen err.new)) }
{
    match write_to(cpu, m, err) {
        Ok(called) => Ok(called),
        Err(SinkError::Failed) => Err(SysError::Report),
        Err(SinkError::Memory) => Err(SysError::Memory),
    }
}

/// brk: moves the break to ebx.
fn move_break(cpu: &mut Cpu, m: &mut Memory) -> Result<Called, SysError>
    requires { get_or cpu.old.regs 0 0 ≡ 45 }
    ensures { (i o e : StreamView) → Calls result (machine cpu.old m.old i o e) (machine cpu.new m.new i o e) }
{
    match m.set_break(cpu.regs[3]) {
        Err(_) => Err(SysError::Memory),
        Ok(now) => Ok(answer(cpu, now)),
    }
}

/// Does the system call that int 0x80 asks for: `cpu` is the processor with eip behind the
/// instruction.
///
/// The calls are exit (eax 1, status ebx modulo 256), read (3, from descriptor 0 to ecx, at most edx
/// bytes), write (4, to descriptor 1 or 2, edx bytes from ecx) and brk (45, to ebx). Another
/// descriptor answers -9, another number -38. A read takes of `input` until edx bytes came or it has
/// no more, and a write gives its bytes to `out` or `err` at once, cut at the multiples of 4096. Only a read whose
/// bytes may not all fit takes memory of its own.
///
/// `Fault` comes where the bytes of a read do not fit one writable region, or those of a write do not
/// lie in one readable region. Then processor and memory are as before; a read has taken at most one
/// byte more than fits.
///
/// Errors: `Input`, `Out` and `Report` where that object failed, `Memory` where memory ran out, which
/// read, write and brk can meet. Then the processor is as before, and a front part of the bytes of the
/// call may have been taken or written. Memory is as before too, but that after `Input` a front part of
/// the bytes that came may stand at ecx.
///
/// A call that is done leaves the count of faults of each object as it was, and so does `Memory`; after
/// `Input`, `Out` and `Report` that object's count rose, and the other objects are as before.
pub fn system<I: Source, O: Sink, E: Sink>(
    alloc: Global,
    cpu: &mut Cpu,
    m: &mut Memory,
    input: &mut I,
    out: &mut O,
    err: &mut E,
) -> Result<Called, SysError>
    ensures { Calls result (machine cpu.old m.old (I.seen input.old) (O.seen out.old) (E.seen err.old))
        (machine cpu.new m.new (I.seen input.new) (O.seen out.new) (E.seen err.new)) }
{
    match cpu.regs[0] {
        1 => Ok(Called::Exit((cpu.regs[3] % 256) as u8)),
        3 => read(alloc, cpu, m, input),
        4 => match cpu.regs[3] {
            1 => write_out(cpu, m, out),
            2 => write_err(cpu, m, err),
            _ => Ok(answer(cpu, BAD_DESCRIPTOR)),
        },
        45 => move_break(cpu, m),
        _ => Ok(answer(cpu, NO_SUCH_CALL)),
    }
}
