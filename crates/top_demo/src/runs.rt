//! Runs of the demonstration without words and input.
ghost use Rattle.std.specs.Prelude.{◌≡◌, ◌≤◌, ◌<◌, length, Ok, IfOk};
ghost use Rattle.elf_read.specs.Elf.{elf, IsExe, IsGuest};
ghost use Rattle.top_demo.specs.DemoRuns.{HasRun, trace_by};

use br_outside::{CalmSink, CalmSource};
use elf_read::{ElfError, Exe, GUEST_FILE_LIMIT, Reach, read_elf};
use guest_run::{Guest, STEP_LIMIT, SysError};
use std::alloc::{AllocError, Global};
use trace_file::{Edges, FILE_EDGE_LIMIT};
use tracer::{TracingError, trace};

/// What a run has shown.
#[derive(Drop)]
pub struct Shown {
    /// What it wrote to descriptor 1.
    pub out: CalmSink,
    /// How many steps it took.
    pub steps: u64,
}

/// A run and the edges of its steps.
#[derive(Drop)]
pub struct Followed {
    /// What it has shown.
    pub shown: Shown,
    /// Its edges, and the pair that says that it began.
    pub edges: Edges,
}

/// What a file says that is accepted. The error is want of memory.
pub fn read_accepted(alloc: Global, file: &[u8], reach: Reach) -> Result<Exe, AllocError>
    requires short { length file.now ≤ GUEST_FILE_LIMIT }
    requires accepted { (exe : Exe) × (elf reach file.now ≡ Ok exe) }
    ensures read { IfOk result (λ exe. elf reach file.now ≡ Ok exe) }
    ensures fields { IfOk result (IsExe reach) }
{
    match read_elf(alloc, file, reach) {
        Ok(exe) => Ok(exe),
        Err(ElfError::Memory) => Err(AllocError),
        Err(ElfError::Refused { .. }) => unreachable!(),
    }
}

/// Runs an executable for at most `budget` steps, fewer than a trace may have edges, and answers what it has shown and the edges of
/// its steps. The error is want of memory.
pub fn follow(alloc: Global, exe: &Exe, budget: u64) -> Result<Followed, AllocError>
    requires guest { IsGuest exe.now }
    requires few { budget < FILE_EDGE_LIMIT }
    ensures shown { IfOk result (λ f. HasRun exe.now budget f.shown) }
    ensures edges { IfOk result (λ f. f.edges ≡ trace_by exe.now budget) }
{
    let mut input = CalmSource::new(Vec::new(alloc));
    let mut out = CalmSink::new(alloc);
    let mut report = CalmSink::new(alloc);
    match trace(alloc, exe, &[], budget, &mut input, &mut out, &mut report) {
        Ok(traced) => {
            let steps = traced.steps;
            Ok(Followed {
                shown: Shown { out, steps },
                edges: traced.edges,
            })
        }
        Err(TracingError::Memory) => Err(AllocError),
        Err(TracingError::Union) => unreachable!(),
        Err(TracingError::Input | TracingError::Out | TracingError::Report) => unreachable!(),
    }
}

/// Runs an executable for at most `budget` steps, and answers what it has shown. The error is want of memory.
pub fn run(alloc: Global, exe: &Exe, budget: u64) -> Result<Shown, AllocError>
    requires guest { IsGuest exe.now }
    requires few { budget ≤ STEP_LIMIT }
    ensures { IfOk result (HasRun exe.now budget) }
{
    let mut guest = Guest::of(alloc, exe, &[])?;
    let mut input = CalmSource::new(Vec::new(alloc));
    let mut out = CalmSink::new(alloc);
    let mut report = CalmSink::new(alloc);
    match guest.run(budget, &mut input, &mut out, &mut report) {
        Ok(_stop) => {
            let steps = guest.steps();
            Ok(Shown { out, steps })
        }
        Err(SysError::Memory) => Err(AllocError),
        Err(SysError::Input | SysError::Out | SysError::Report) => unreachable!(),
    }
}
