//! The top call.
ghost use Rattle.std.specs.Prelude.{◌≡◌, ◌≤◌, ℕ, ◌+◌, List, Ok, map, string_bytes};
ghost use Rattle.br_outside.specs.Outside.{StreamView};
ghost use Rattle.top_plan.specs.World.{world};
ghost use Rattle.top_plan.specs.Plan.{Plan};
ghost use Rattle.top_plan.specs.Texts.{end_of, end_line, end_status};
ghost use Rattle.top_plan.specs.Happened.{TellsLine, Happened, Answered};
ghost use Rattle.top_plan.specs.Expected.{IsExact, IsComplete, HasCause};
ghost use Rattle.top_plan.specs.Partial.{IsPartial};
ghost use Rattle.top_plan.specs.Steady.{IsSteady};
ghost use Rattle.word_reader.specs.Words.{Builds, Traces, Runs, Merges, Shows, Sessions, Demos, Assembles, command, first_name};
ghost use Rattle.word_reader.specs.Reads.{asked_of};
ghost use Rattle.top_build.specs.BuildMeaning.{MeansBuild};
ghost use Rattle.top_build.specs.Spelled.{AreSpelled, AreOnly};
ghost use Rattle.top_run.specs.RunMeaning.{MeansRun};
ghost use Rattle.top_run.specs.TraceMeaning.{MeansTrace};
ghost use Rattle.top_graph.specs.MergeMeaning.{MeansMerge};
ghost use Rattle.top_graph.specs.ShowMeaning.{MeansShow};
ghost use Rattle.top_asm.specs.AsmMeaning.{MeansAsm};
ghost use Rattle.top_demo.specs.DemoMeaning.{MeansDemo};
ghost use Rattle.top_session.specs.SessionMeaning.{MeansSession};
ghost use Rattle.binrec.specs.Words.{IsFitting};
ghost use Rattle.binrec.specs.Commands.{plan_of, plan};
ghost use Rattle.binrec.specs.Meaning.{MeansUsage};

use crate::words::read_command;
use br_outside::{Shelf, Sink, Source};
use std::alloc::Global;
use top_asm::{asm_command, asm_command_law};
use top_build::{build_command, build_law};
use top_demo::{demo_command, demo_law};
use top_graph::{merge_command, merge_law, show_command, show_law};
use top_plan::{Halt, Outcome, plan_law, tell_halt, tell_outcome, tell_usage};
use top_run::{run_command, run_law, trace_command, trace_law};
use top_session::{session_command, session_law};
use word_reader::{Command, first_name};

/// The status of a command, with which the program ends.
#[derive(Clone, Copy, Debug, PartialEq, Eq)]
pub struct Status(
    /// 0 to 7.
    pub u8,
);

/// Reports how the work of a command ended, and answers the status.
fn tell_end<R: Sink>(report: &mut R, end: Result<Outcome, Halt>) -> u8
    ensures { TellsLine (end_line (end_of end)) (end_status (end_of end)) (R.seen report.old) result (R.seen report.new) }
{
    match end {
        Ok(outcome) => tell_outcome(report, &outcome),
        Err(halt) => tell_halt(report, halt),
    }
}

/// Does a command, whose first name stands at the position `first`, reports its end, and answers the status.
fn answer<F: Shelf, I: Source, O: Sink, R: Sink>(
    alloc: Global,
    command: Command<'_>,
    first: u32,
    shelf: &mut F,
    input: &mut I,
    out: &mut O,
    report: &mut R,
) -> u8
    requires fitting { IsFitting (asked_of command) }
    requires first { first ≤ 3 }
    ensures { Happened (plan_of (asked_of command.entry) first)
        (world (F.seen shelf.old) (I.seen input.old) (O.seen out.old) (R.seen report.old)) result
        (world (F.seen shelf.new) (I.seen input.new) (O.seen out.new) (R.seen report.new)) }
{
    match command {
        Command::Build { n, e, traces } => {
            tell_end(report, build_command(alloc, shelf, n, e, traces))
        }
        Command::Merge { t, e, traces } => {
            tell_end(report, merge_command(alloc, shelf, t, e, traces))
        }
        Command::Show { e, traces } => tell_end(report, show_command(alloc, shelf, out, e, traces)),
        Command::Run { steps, e, args } => {
            let end = run_command(alloc, shelf, input, out, report, steps, e, args, first);
            tell_end(report, end)
        }
        Command::Trace { steps, t, e, args } => {
            let end = trace_command(
                alloc,
                shelf,
                input,
                out,
                report,
                steps,
                t,
                e,
                args,
                first + 1,
            );
            tell_end(report, end)
        }
        Command::Session { e } => {
            let end = session_command(alloc, shelf, input, out, e);
            tell_end(report, end)
        }
        Command::Demo { count } => tell_end(report, demo_command(alloc, out, count)),
        Command::Asm { n, text } => tell_end(report, asm_command(alloc, shelf, n, text)),
    }
}

/// Does what the words after the program's name ask for, and answers its status.
///
/// | Words | What is done | Line with status 0 |
/// |---|---|---|
/// | `build N E T..` | stores as N a file that does what E does, with the blocks that the traces of E have seen as recovered code | `built B C L`, B the number of blocks, C the length of the recovered code and L that of N in bytes |
/// | `trace [--steps K] T E WORD..` | runs E and stores the edges of its steps as T | `exit S steps M undefined U edges P` |
/// | `run [--steps K] E WORD..` | runs E for at most K steps | `exit S steps M undefined U` |
/// | `merge T E T..` | stores the union of the later traces of E as the first T | `merged P` |
/// | `show E T..` | prints the listing of the blocks that the traces of E have seen | `shown B`, B the number of blocks |
/// | `session E` | does what the lines of `input` ask: `add NAME`, `remove K`, `emit NAME` | `lines Q`, Q the number of lines |
/// | `demo K` | traces a program with K functions, builds it with that trace, runs both, and prints one line | none |
/// | `asm N TEXT` | stores as N the executable that the source TEXT stands for, in the notation of the listing | `assembled L`, L the length of N in bytes |
///
/// A name is a text of 1 to 4096 bytes; at most 4096 traces are fetched. K is 1 to 18 decimal digits, and
/// 100000000 where it is not given; that of `demo` is from 1 to 1000. A guest takes its input of `input`, prints on `out` and reports on
/// `report`; `build`, `merge`, `show`, `demo` and `asm` take nothing, and of these `show` and `demo` print. A session prints a line for each that
/// it has done, and may take up to 4096 bytes beyond its lines. `demo` answers 0, 3 or 4 and, where its
/// words are wrong, 1; it calls no file. S is the guest's status, M the number of its
/// steps, U how many of them read a flag that was not defined, and P a number of edges.
///
/// The last call gives the report line, which `demo` has not after status 0. The statuses, and the lines that come with them:
///
/// - 0: all was done; the guest exited. The line is as above.
/// - 1: the words are no command. `usage W`, W the position of the first wrong word, from 0, or the number of words where one is
///   missing.
/// - 2: a file is refused, the first in the order of the words. `refused word W K P`, with the position of its word, the
///   refusal's number and its place in the file, for the source of `asm` its line. `refused line Q K P` for line Q of a session.
/// - 3: a call of an object failed, or a name is absent, or the report line could not be given. `outside shelf`,
///   `outside input`, `outside output` or `outside report`.
/// - 4: memory was wanting. `memory`.
/// - 5: the guest faulted. `fault KIND ADDRESS` and the counts of status 0.
/// - 6: after K steps the guest still ran. `budget` and the counts of status 0.
/// - 7: a limit is passed. `limit file 16777216` (268435456 for `run`), `limit edges 16777216` for all traces, `limit union 2000000`
///   for what is stored as a trace, `limit blocks 65536` for `build`, `show` and `session`, `limit code 100663296` for `build` and
///   `session`, `limit traces 4096` and `limit lines 1048576` for `session`.
///
/// The first cause in the order of the work decides: E comes before the traces, each file is fetched,
/// measured, read and counted before the next, and a fault of an object stands at the call that met it. But
/// a report line that cannot be given makes the status 3, or 4 where the sink wants memory, in place of any
/// other. `trace` stores its file before the report line of 0, 5 and 6. After 1, 2 and 7 nothing is stored.
/// After 4 the file may be stored, and after 3 where the report failed; where the store itself failed, what
/// its name holds is not known. No other name changes. What a session stored before its last line stays.
///
/// The clauses: `happened`, the calls made are those of the command's plan and no others; `exact` and `complete`, over
/// objects that tell what they hold the answer is the expected one, unless memory is wanting or an object fails; `partial`,
/// what an interrupted command leaves is a front part of what the whole one does; `cause`, status 3 names an object whose
/// count rose; `steady`, a fault stands at the call that met it: the counts rise as the status says and no more; `usage`,
/// `build`, `run`, `trace`, `merge`, `show`, `demo`, `session` and `asm`, what the statuses mean; `spelled` and `only`, what a step
/// finds is what the table of spellings says.
pub fn binrec<F: Shelf, I: Source, O: Sink, R: Sink>(
    alloc: Global,
    words: &[String],
    shelf: &mut F,
    input: &mut I,
    out: &mut O,
    report: &mut R,
) -> Status
    ensures happened { Answered (plan (map string_bytes words.now))
        (world (F.seen shelf.old) (I.seen input.old) (O.seen out.old) (R.seen report.old)) result.0
        (world (F.seen shelf.new) (I.seen input.new) (O.seen out.new) (R.seen report.new)) }
    ensures exact { (p : Plan) → plan (map string_bytes words.now) ≡ Ok p → IsExact p
        (world (F.seen shelf.old) (I.seen input.old) (O.seen out.old) (R.seen report.old)) result.0
        (world (F.seen shelf.new) (I.seen input.new) (O.seen out.new) (R.seen report.new)) }
    ensures complete { (p : Plan) → plan (map string_bytes words.now) ≡ Ok p → IsComplete p
        (world (F.seen shelf.old) (I.seen input.old) (O.seen out.old) (R.seen report.old)) result.0
        (world (F.seen shelf.new) (I.seen input.new) (O.seen out.new) (R.seen report.new)) }
    ensures partial { (p : Plan) → plan (map string_bytes words.now) ≡ Ok p → IsPartial p
        (world (F.seen shelf.old) (I.seen input.old) (O.seen out.old) (R.seen report.old))
        (world (F.seen shelf.new) (I.seen input.new) (O.seen out.new) (R.seen report.new)) }
    ensures cause { HasCause
        (world (F.seen shelf.old) (I.seen input.old) (O.seen out.old) (R.seen report.old)) result.0
        (world (F.seen shelf.new) (I.seen input.new) (O.seen out.new) (R.seen report.new)) }
    ensures steady { IsSteady
        (world (F.seen shelf.old) (I.seen input.old) (O.seen out.old) (R.seen report.old)) result.0
        (world (F.seen shelf.new) (I.seen input.new) (O.seen out.new) (R.seen report.new)) }
    ensures usage { MeansUsage (plan (map string_bytes words.now))
        (world (F.seen shelf.old) (I.seen input.old) (O.seen out.old) (R.seen report.old)) result.0
        (world (F.seen shelf.new) (I.seen input.new) (O.seen out.new) (R.seen report.new)) }
    ensures build { (name original : List ℕ) (traces : List (List ℕ))
        → command (map string_bytes words.now) ≡ Ok (Builds name original traces)
        → MeansBuild name original traces
        (world (F.seen shelf.old) (I.seen input.old) (O.seen out.old) (R.seen report.old)) result.0
        (world (F.seen shelf.new) (I.seen input.new) (O.seen out.new) (R.seen report.new)) }
    ensures run { (steps : ℕ) (name : List ℕ) (args : List (List ℕ)) → command (map string_bytes words.now) ≡ Ok (Runs steps name args)
        → MeansRun steps name args (first_name (map string_bytes words.now))
        (world (F.seen shelf.old) (I.seen input.old) (O.seen out.old) (R.seen report.old)) result.0
        (world (F.seen shelf.new) (I.seen input.new) (O.seen out.new) (R.seen report.new)) }
    ensures trace { (steps : ℕ) (target original : List ℕ) (args : List (List ℕ))
        → command (map string_bytes words.now) ≡ Ok (Traces steps target original args)
        → MeansTrace steps target original args (first_name (map string_bytes words.now) + 1)
        (world (F.seen shelf.old) (I.seen input.old) (O.seen out.old) (R.seen report.old)) result.0
        (world (F.seen shelf.new) (I.seen input.new) (O.seen out.new) (R.seen report.new)) }
    ensures merge { (target original : List ℕ) (names : List (List ℕ))
        → command (map string_bytes words.now) ≡ Ok (Merges target original names)
        → MeansMerge target original names
        (world (F.seen shelf.old) (I.seen input.old) (O.seen out.old) (R.seen report.old)) result.0
        (world (F.seen shelf.new) (I.seen input.new) (O.seen out.new) (R.seen report.new)) }
    ensures show { (original : List ℕ) (names : List (List ℕ)) → command (map string_bytes words.now) ≡ Ok (Shows original names)
        → MeansShow original names
        (world (F.seen shelf.old) (I.seen input.old) (O.seen out.old) (R.seen report.old)) result.0
        (world (F.seen shelf.new) (I.seen input.new) (O.seen out.new) (R.seen report.new)) }
    ensures demo { (count : ℕ) → command (map string_bytes words.now) ≡ Ok (Demos count) → MeansDemo count
        (world (F.seen shelf.old) (I.seen input.old) (O.seen out.old) (R.seen report.old)) result.0
        (world (F.seen shelf.new) (I.seen input.new) (O.seen out.new) (R.seen report.new)) }
    ensures session { (original : List ℕ) → command (map string_bytes words.now) ≡ Ok (Sessions original)
        → MeansSession original
        (world (F.seen shelf.old) (I.seen input.old) (O.seen out.old) (R.seen report.old)) result.0
        (world (F.seen shelf.new) (I.seen input.new) (O.seen out.new) (R.seen report.new)) }
    ensures asm { (name text : List ℕ) → command (map string_bytes words.now) ≡ Ok (Assembles name text)
        → MeansAsm name text
        (world (F.seen shelf.old) (I.seen input.old) (O.seen out.old) (R.seen report.old)) result.0
        (world (F.seen shelf.new) (I.seen input.new) (O.seen out.new) (R.seen report.new)) }
    ensures spelled { AreSpelled }
    ensures only { AreOnly }
{
    plan_law();
    build_law();
    run_law();
    trace_law();
    merge_law();
    show_law();
    demo_law();
    session_law();
    asm_command_law();
    match read_command(words) {
        Ok(command) => {
            let first = first_name(words);
            Status(answer(alloc, command, first, shelf, input, out, report))
        }
        Err(word) => Status(tell_usage(report, word)),
    }
}
