//! A recompiler for static i386 executables.
//!
//! `build N E` reads the executable E and stores, as N, a file that does what E does. `run` and `trace` run an
//! executable in a machine of the program's own, `trace` and `merge` store the control-flow edges of runs, `show` lists
//! the blocks that they have seen, and `demo` shows all of this on a program that it makes.
#![tactic(auto)]

mod arguments;
#[cfg(test)]
mod tests;
mod top;
mod words;

use arguments::{read_arguments, tell_broken};
use br_real::{ErrorSink, FileShelf, InputSource, OutputSink};
use std::process;
use std::process::ExitCode;
use top::binrec;
use top_plan::tell;

/// Does what the words ask for over real files and the standard streams, and ends with the status.
///
/// A word that is not UTF-8 is a faulty command line. Where the words cannot be taken, memory is wanting, and the status
/// is 4.
fn main(rt: HostRuntime) -> ExitCode {
    let alloc = rt.alloc();
    let mut report = ErrorSink::new(rt.stderr());
    let Ok(arguments) = read_arguments(alloc, &rt) else {
        return ExitCode::from(tell(&mut report, b"memory\n", 4));
    };
    if let Some(position) = arguments.broken {
        return ExitCode::from(tell_broken(&mut report, &arguments.texts, position).0);
    }
    let mut shelf = FileShelf::new(alloc, &rt, process::id(rt.process()));
    let mut input = InputSource::new(rt.stdin());
    let mut out = OutputSink::new(rt.stdout());
    let status = binrec(
        alloc,
        &arguments.texts,
        &mut shelf,
        &mut input,
        &mut out,
        &mut report,
    );
    ExitCode::from(status.0)
}
