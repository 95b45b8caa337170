//! A guest and its steps.
ghost use Rattle.std.specs.Prelude.{◌≡◌, ◌+◌, ◌<◌, ◌≤◌, ◌^◌, true, IsTrue, ◌↔◌, map, string_bytes, IfOk};
ghost use Rattle.elf_read.specs.Elf.{IsGuest};
ghost use Rattle.br_word.specs.State.{all_flags};
ghost use Rattle.br_outside.specs.Streams.{Streams};
ghost use Rattle.run_model.specs.Opening.{FitArguments};
ghost use Rattle.guest_run.specs.Guest.{StepCall, Runs, beginning, streams, answer_of};
ghost use Rattle.guest_run.specs.BoundedRun.{BoundedRun};

use crate::advance::advance;
use crate::opening::{stack_pointer, stack_top};
use crate::stop::Stop;
use br_outside::{Sink, Source};
use br_word::Flags;
use elf_read::Exe;
use guest_mem::Memory;
use guest_sys::SysError;
use ia_meaning::Cpu;
use std::alloc::{AllocError, Global};
use std::marker::Model;

/// How many steps a guest can take in all, over all its runs.
pub const STEP_LIMIT: u64 = 1_000_000_000_000_000_000;

/// A guest: its processor, its memory, and how far it has come.
#[derive(Drop)]
pub struct Guest {
    alloc: Global,
    cpu: Cpu,
    memory: Memory,
    // `Budget` while it runs.
    stop: Stop,
    steps: u64,
    edge: Option<(u32, u32)>,
    live: bool,
}

impl Model for Guest {
    ghost use Rattle.std.specs.Prelude.{◌≤◌};
    ghost use Rattle.guest_run.specs.Guest.{GuestView, view_of};

    ghost Value = { GuestView };

    ghost view = { λ g. view_of g.cpu g.memory g.stop g.steps g.edge g.live };

    ghost invariant = { λ g. g.cpu.undefined ≤ g.steps };
}

fn is_running(stop: Stop) -> bool
    ensures { IsTrue result ↔ (stop ≡ Stop.Budget) }
{
    match stop {
        Stop::Budget => true,
        Stop::Exited(_) => false,
        Stop::Fault(_) => false,
    }
}

/// All flags, as they are before the first step.
fn flags(value: bool) -> Flags
    ensures { result ≡ all_flags value }
{
    Flags {
        cf: value,
        pf: value,
        zf: value,
        sf: value,
        of: value,
    }
}

impl Guest {
    /// The guest of an executable that is given these words: it stands at the entry, and its stack has
    /// the argument `guest` and the words (System V ABI, i386 supplement, process initialization). The
    /// only error is for want of memory.
    #[tactic(auto, using(crate::proofs::StackRoom::room))]
    pub fn of(alloc: Global, exe: &Exe, args: &[String]) -> Result<Guest, AllocError>
        requires exe { IsGuest exe.now }
        requires args { FitArguments (map string_bytes args.now) }
        ensures { IfOk result (λ g. g ≡ beginning exe.now (map string_bytes args.now)) }
    {
        let top = stack_top(alloc, args)?;
        let memory = Memory::of(alloc, exe, top.as_slice())?;
        Ok(Guest {
            alloc,
            cpu: Cpu {
                regs: [0, 0, 0, 0, stack_pointer(args), 0, 0, 0],
                eip: exe.entry,
                flags: flags(false),
                df: false,
                known: flags(true),
                undefined: 0,
            },
            memory,
            stop: Stop::Budget,
            steps: 0,
            edge: None,
            live: true,
        })
    }

    /// Whether the guest may take steps: no step has failed.
    pub fn live(&self) -> bool
        ensures { result ≡ self.now.live }
    {
        self.live
    }

    /// How the guest stands: `Budget` while it runs.
    pub fn stop(&self) -> Stop
        ensures { result ≡ answer_of self.now.state.stop }
    {
        self.stop
    }

    /// The address of the next instruction.
    pub fn eip(&self) -> u32
        ensures { result ≡ self.now.state.eip }
    {
        self.cpu.eip
    }

    /// The address of the instruction of the last step and the address to which it led, if it was a
    /// transfer and did not fault.
    pub fn edge(&self) -> Option<(u32, u32)>
        ensures { result ≡ self.now.edge }
    {
        self.edge
    }

    /// How many steps were taken.
    pub fn steps(&self) -> u64
        ensures { result ≡ self.now.steps }
    {
        self.steps
    }

    /// How many of the steps read a flag that was not defined.
    pub fn undefined(&self) -> u64
        ensures { result ≡ self.now.undefined }
    {
        self.cpu.undefined
    }

    /// Takes a step, and answers true; a guest that has stopped takes none, and the answer is false.
    ///
    /// Flags that the step leaves undefined take their values from bits 0 to 4 of `choice`. A read
    /// takes its bytes of `input`, and a write gives them to `out` (descriptor 1) or `err`
    /// (descriptor 2).
    ///
    /// Errors come only where int 0x80 stands at eip and eax is 3, 4 or 45: `Input`, `Out` and
    /// `Report` where that object failed, `Memory` where memory ran out. The guest is then as before,
    /// but it is not live any more, a front part of the bytes of the call may have been taken or
    /// written, and after `Input` the memory of the guest may hold bytes that came, at ecx.
    ///
    /// `Input`, `Out` and `Report` leave the counts of faults of the other objects as they were, and every
    /// other answer those of all.
    pub fn step<I: Source, O: Sink, E: Sink>(
        &mut self,
        choice: u8,
        input: &mut I,
        out: &mut O,
        err: &mut E,
    ) -> Result<bool, SysError>
        requires live { self.old.live ≡ true }
        requires room { self.old.steps < STEP_LIMIT }
        ensures { StepCall result choice self.old self.new (streams (I.seen input.old) (O.seen out.old) (E.seen err.old))
            (streams (I.seen input.new) (O.seen out.new) (E.seen err.new)) }
    {
        if !is_running(self.stop) {
            return Ok(false);
        }
        match advance(
            self.alloc,
            &mut self.cpu,
            &mut self.memory,
            choice,
            input,
            out,
            err,
        ) {
            Err(error) => {
                self.live = false;
                Err(error)
            }
            Ok(advanced) => {
                self.stop = advanced.stop;
                self.edge = advanced.edge;
                self.steps += 1;
                Ok(true)
            }
        }
    }

    /// Takes steps with the choice 0 until the guest stops, `budget` of them at most, and answers how
    /// it stands then: `Budget` exactly where it still runs, and then it has taken all of them.
    ///
    /// The steps are those that [`step`](Guest::step) takes, over any objects; over an input that tells what
    /// it has left they are the first steps of the run that the definition gives.
    ///
    /// Errors are those of the step that failed. The guest is then as before that step, but it is not
    /// live any more, and after `Input` its memory may hold bytes that came. `Input`, `Out` and `Report`
    /// leave the counts of faults of the other objects as they were, and every other answer those of all.
    pub fn run<I: Source, O: Sink, E: Sink>(
        &mut self,
        budget: u64,
        input: &mut I,
        out: &mut O,
        err: &mut E,
    ) -> Result<Stop, SysError>
        requires live { self.old.live ≡ true }
        requires room { self.old.steps + budget ≤ STEP_LIMIT }
        ensures steps { BoundedRun result budget self.old self.new (streams (I.seen input.old) (O.seen out.old) (E.seen err.old))
            (streams (I.seen input.new) (O.seen out.new) (E.seen err.new)) }
        ensures told { Runs result budget self.old self.new (streams (I.seen input.old) (O.seen out.old) (E.seen err.old))
            (streams (I.seen input.new) (O.seen out.new) (E.seen err.new)) }
    {
        let _live = self.live;
        for _step in 0..budget {
            match self.step(0, input, out, err) {
                Err(error) => return Err(error),
                Ok(false) => return Ok(self.stop),
                Ok(true) => {}
            }
        }
        Ok(self.stop)
    }
}

#[cfg(test)]
mod tests;
