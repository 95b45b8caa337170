//! `build N E T..`: the image of an original and its traces, stored under a name.
ghost use Rattle.std.specs.Prelude.{[], ◌≤◌, ◌<◌, ◌+◌, ◌^◌, length, map, string_bytes, Ok};
ghost use Rattle.elf_read.specs.Elf.{IsOriginal};
ghost use Rattle.trace_file.specs.Edges.{pairs, union_of};
ghost use Rattle.code_layout.specs.Image.{built_of};
ghost use Rattle.top_plan.specs.World.{World, on_shelf};
ghost use Rattle.top_plan.specs.Plan.{Went};
ghost use Rattle.top_plan.specs.Parts.{Checks};
ghost use Rattle.top_build.specs.BuildPlan.{limited_built, image_part, built_end, build_plan, built_line};
ghost use Rattle.top_plan.specs.Texts.{end_of};

use br_outside::Shelf;
use build_core::build;
use code_layout::{BuildError, Built, MAX_CODE};
use elf_read::Exe;
use flow_graph::MAX_BLOCKS;
use std::alloc::Global;
use top_files::{fetch_original, fetch_subject, fetch_traces};
use top_plan::{Cause, Finish, Halt, Limit, Outcome, store_file};
use trace_file::{EDGE_LIMIT, Edges, union_all};

/// The image of an original and edges. The error is the limit on its blocks, the limit on its code, or want of memory.
fn image_of(alloc: Global, exe: &Exe, edges: &Edges) -> Result<Built, Halt>
    requires { IsOriginal exe.now }
    ensures { Checks (λ b. b) result (limited_built (built_of exe.now edges.now)) }
{
    match build(alloc, exe, edges) {
        Ok(built) => Ok(built),
        Err(BuildError::Blocks) => Err(Halt::Because(Cause::Limited(Limit::Blocks(MAX_BLOCKS)))),
        Err(BuildError::Code) => Err(Halt::Because(Cause::Limited(Limit::Code(MAX_CODE)))),
        Err(BuildError::Memory) => Err(Halt::Memory),
    }
}

/// The report line of an image. The error is want of memory.
fn line_of(alloc: Global, built: &Built) -> Result<String, Halt>
    ensures { Checks string_bytes result (Ok (built_line built.now)) }
{
    let blocks = built.blocks;
    let code = built.code;
    let length = built.bytes.as_slice().len();
    match format!(in alloc; "built {blocks} {code} {length}\n") {
        Ok(line) => Ok(line),
        Err(_) => Err(Halt::Memory),
    }
}

/// Stores the image of an original and edges under a name. The line is made before the file is stored.
///
/// The error is the limit on the blocks, or that on the code, or want of memory, after which nothing is stored, or a failure of
/// the shelf.
fn store_image<F: Shelf>(
    alloc: Global,
    shelf: &mut F,
    name: &str,
    exe: &Exe,
    edges: &Edges,
) -> Result<Outcome, Halt>
    requires { IsOriginal exe.now }
    ensures { (w : World) → Went (image_part name.now exe.now edges.now built_end)
        (on_shelf w (F.seen shelf.old)) (end_of result) (on_shelf w (F.seen shelf.new)) }
{
    let built = image_of(alloc, exe, edges)?;
    let line = line_of(alloc, &built)?;
    store_file(shelf, name, built.bytes.as_slice())?;
    Ok(Outcome {
        finish: Finish::Done,
        line: Some(line),
    })
}

/// Stores the image of an original that has no traces, so that no digest of its file is made.
///
/// The error is that of fetching it, or of storing the image.
fn build_untraced<F: Shelf>(
    alloc: Global,
    shelf: &mut F,
    name: &str,
    original: &str,
) -> Result<Outcome, Halt>
    ensures { (w : World) → Went (build_plan name.now original.now [])
        (on_shelf w (F.seen shelf.old)) (end_of result) (on_shelf w (F.seen shelf.new)) }
{
    let exe = fetch_original(alloc, shelf, original, 2)?;
    store_image(alloc, shelf, name, &exe, &Edges::new(alloc))
}

/// The union of traces. The error is want of memory.
fn union_of(alloc: Global, sets: Vec<Edges>) -> Result<Edges, Halt>
    requires { pairs sets.items ≤ EDGE_LIMIT }
    ensures { Checks (λ es. es) result (Ok (union_of sets.items)) }
{
    match union_all(alloc, sets.as_slice()) {
        Ok(edges) => Ok(edges),
        Err(_) => Err(Halt::Memory),
    }
}

/// `build N E T..`: stores the image of the original E and the union of its traces under the name N, and answers the report line.
///
/// The error is the first cause in the order of the work, E before the traces: a failure of the shelf, the limit of a file, its
/// refusal, the limit on the edges of all traces; then the limit on the blocks, the limit on the code, or want of memory.
pub fn build_command<F: Shelf>(
    alloc: Global,
    shelf: &mut F,
    name: &str,
    original: &str,
    traces: &[String],
) -> Result<Outcome, Halt>
    requires { 3 + length traces.now < 2 ^ 32 }
    ensures { (w : World) → Went (build_plan name.now original.now (map string_bytes traces.now))
        (on_shelf w (F.seen shelf.old)) (end_of result) (on_shelf w (F.seen shelf.new)) }
{
    if traces.is_empty() {
        return build_untraced(alloc, shelf, name, original);
    }
    let subject = fetch_subject(alloc, shelf, original, 2)?;
    let sets = fetch_traces(alloc, shelf, &subject.digest, traces, 3)?;
    let edges = union_of(alloc, sets)?;
    store_image(alloc, shelf, name, &subject.exe, &edges)
}
