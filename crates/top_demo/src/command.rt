//! `demo K`: the demonstration with K functions.
ghost use Rattle.std.specs.Prelude.{◌≡◌, ◌≤◌, length, IfOk, string_bytes};
ghost use Rattle.elf_read.specs.Elf.{IsOriginal};
ghost use Rattle.flow_graph.specs.GraphOf.{graph_of};
ghost use Rattle.code_layout.specs.Linked.{code_of};
ghost use Rattle.code_layout.specs.Image.{built_of};
ghost use Rattle.br_outside.specs.Outside.{ShelfView, StreamView};
ghost use Rattle.top_plan.specs.World.{World, on_out};
ghost use Rattle.top_plan.specs.Plan.{Went};
ghost use Rattle.top_plan.specs.Texts.{end_of};
ghost use Rattle.top_demo.specs.DemoPlan.{line_text, demo_line, demo_plan};

use crate::law::demo_fits;
use crate::line::runs_text;
use crate::runs::{follow, read_accepted, run};
use br_outside::Sink;
use build_core::build;
use code_layout::{BuildError, Built, MAX_CODE};
use demo_gen::demo_exe;
use elf_read::{Exe, Reach};
use flow_graph::MAX_BLOCKS;
use std::alloc::{AllocError, Global};
use top_plan::{Finish, Halt, Outcome, print_text};
use trace_file::Edges;

/// The most steps of the demonstration.
pub const ORIGINAL_STEPS: u64 = 1_000_000;

/// The most steps of the file that is written for it.
pub const REBUILT_STEPS: u64 = 1_000_000_000;

/// The file that is written for an original and edges, which passes no limit. The error is want of memory.
fn rebuild(alloc: Global, exe: &Exe, edges: &Edges) -> Result<Built, AllocError>
    requires original { IsOriginal exe.now }
    requires few { length (graph_of exe.now edges.now) ≤ MAX_BLOCKS }
    requires short { length (code_of exe.now edges.now) ≤ MAX_CODE }
    ensures { IfOk result (λ b. b ≡ built_of exe.now edges.now) }
{
    match build(alloc, exe, edges) {
        Ok(built) => Ok(built),
        Err(BuildError::Memory) => Err(AllocError),
        Err(BuildError::Blocks | BuildError::Code) => unreachable!(),
    }
}

/// The line of so many functions and a file of this size in bytes, with what was built, and how the line ends. The error is want of memory.
fn line_text(
    alloc: Global,
    count: u32,
    size: usize,
    built: &Built,
    rest: &str,
) -> Result<String, AllocError>
    ensures { IfOk result (λ line. string_bytes line
        ≡ line_text count size built.now.blocks built.now.code (length built.now.bytes) rest.now) }
{
    let blocks = built.blocks;
    let code = built.code;
    let image = built.bytes.as_slice().len();
    format!(in alloc; "demo {count} file {size} blocks {blocks} code {code} image {image}{rest}")
}

/// The line of the demonstration with so many functions. The error is want of memory.
fn demo_line(alloc: Global, count: u32) -> Result<String, AllocError>
    requires some { 1 ≤ count }
    requires few { count ≤ 1000 }
    ensures { IfOk result (λ line. string_bytes line ≡ demo_line count) }
{
    demo_fits();
    let file = demo_exe(alloc, count)?;
    let exe = read_accepted(alloc, &file, Reach::Original)?;
    let first = follow(alloc, &exe, ORIGINAL_STEPS)?;
    let built = rebuild(alloc, &exe, &first.edges)?;
    let rebuilt = read_accepted(alloc, built.bytes.as_slice(), Reach::Guest)?;
    let second = run(alloc, &rebuilt, REBUILT_STEPS)?;
    let rest = runs_text(alloc, &first.shown, &second)?;
    line_text(alloc, count, file.len(), &built, rest.as_str())
}

/// `demo K`: generates the demonstration with K functions, 1 to 1000, traces its run without words and input, writes the file for it
/// and that trace, runs both, and prints one line.
///
/// The error is a failure of the output, after which a front part of the line was printed, or want of memory. Nothing else of the
/// outside is called, and nothing is to be reported after the line.
pub fn demo_command<O: Sink>(alloc: Global, out: &mut O, count: u32) -> Result<Outcome, Halt>
    requires some { 1 ≤ count }
    requires few { count ≤ 1000 }
    ensures { (w : World) → Went (demo_plan count) (on_out w (O.seen out.old)) (end_of result) (on_out w (O.seen out.new)) }
{
    let line = demo_line(alloc, count)?;
    print_text(out, line.as_bytes())?;
    Ok(Outcome {
        finish: Finish::Done,
        line: None,
    })
}
