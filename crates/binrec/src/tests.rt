//! Whole commands over objects in memory.
mod arguments;
mod build;
mod demo;
mod each_failure;
mod failing_builds;
mod failing_runs;
mod failing_sessions;
mod listings;
mod outcome;
mod refusals;
mod run;
mod session;
mod traces;
mod words;

use crate::top::binrec;
use br_outside::{MemShelf, MemSink, MemSource};
use std::test::Fail;

/// An executable of 121 bytes that writes "hi" and a line feed, and exits with 0.
const HELLO: [u8; 121] = [
    0x7f, 0x45, 0x4c, 0x46, 0x01, 0x01, 0x01, 0x00, 0x00, 0x00, 0x00, 0x00, 0x00, 0x00, 0x00, 0x00,
    0x02, 0x00, 0x03, 0x00, 0x01, 0x00, 0x00, 0x00, 0x54, 0x80, 0x04, 0x08, 0x34, 0x00, 0x00, 0x00,
    0x00, 0x00, 0x00, 0x00, 0x00, 0x00, 0x00, 0x00, 0x34, 0x00, 0x20, 0x00, 0x01, 0x00, 0x00, 0x00,
    0x00, 0x00, 0x00, 0x00, 0x01, 0x00, 0x00, 0x00, 0x00, 0x00, 0x00, 0x00, 0x00, 0x80, 0x04, 0x08,
    0x00, 0x80, 0x04, 0x08, 0x79, 0x00, 0x00, 0x00, 0x79, 0x00, 0x00, 0x00, 0x05, 0x00, 0x00, 0x00,
    0x00, 0x10, 0x00, 0x00, 0xb8, 0x04, 0x00, 0x00, 0x00, 0xbb, 0x01, 0x00, 0x00, 0x00, 0xb9, 0x76,
    0x80, 0x04, 0x08, 0xba, 0x03, 0x00, 0x00, 0x00, 0xcd, 0x80, 0xb8, 0x01, 0x00, 0x00, 0x00, 0xbb,
    0x00, 0x00, 0x00, 0x00, 0xcd, 0x80, 0x68, 0x69, 0x0a,
];

/// What a command left: its status, its report, what it printed, the file under `N`, and whether the
/// input is as it was.
#[derive(Drop)]
struct Left {
    status: u8,
    report: String,
    printed: Vec<u8>,
    stored: Option<Vec<u8>>,
    untaken: bool,
}

impl Left {
    /// Whether this is the status and the report, and nothing was taken or printed.
    fn says(&self, status: u8, line: &str) -> bool {
        self.status == status
            && self.report.as_str() == line
            && self.printed.is_empty()
            && self.untaken
    }

    /// The same, and nothing was stored.
    fn gives_up(&self, status: u8, line: &str) -> bool {
        self.says(status, line) && self.stored.is_none()
    }
}

/// The numbers of the calls that fail, counted from 1 on each object.
#[derive(Clone, Copy)]
struct Failing<'a> {
    shelf: &'a [u32],
    input: &'a [u32],
    output: &'a [u32],
    report: &'a [u32],
}

/// No call fails.
const NONE: Failing<'static> = Failing {
    shelf: &[],
    input: &[],
    output: &[],
    report: &[],
};

/// Runs a command over a shelf whose name `E` holds these bytes.
fn left_by(rt: &HostRuntime, words: &[&str], content: &[u8]) -> Result<Left, Fail> {
    left_over(rt, words, &[("E", content)], NONE)
}

/// Runs a command over a shelf with these files.
fn left_of(rt: &HostRuntime, words: &[&str], files: &[(&str, &[u8])]) -> Result<Left, Fail> {
    left_over(rt, words, files, NONE)
}

/// The same as `left_by`, where some calls fail.
fn left_failing(
    rt: &HostRuntime,
    words: &[&str],
    content: &[u8],
    failing: Failing<'_>,
) -> Result<Left, Fail> {
    left_over(rt, words, &[("E", content)], failing)
}

/// Runs a command over these files, where some calls fail.
fn left_over(
    rt: &HostRuntime,
    words: &[&str],
    contents: &[(&str, &[u8])],
    failing: Failing<'_>,
) -> Result<Left, Fail> {
    let alloc = rt.alloc();
    let mut texts = Vec::new(alloc);
    for word in words {
        texts.push(String::from_str(alloc, word)?)?;
    }
    let mut files = Vec::new(alloc);
    for (name, content) in contents {
        files.push((String::from_str(alloc, name)?, content.to_vec(alloc)?))?;
    }
    let mut shelf = MemShelf::new(alloc, files, failing.shelf.to_vec(alloc)?);
    let mut input = MemSource::new(b"input".to_vec(alloc)?, failing.input.to_vec(alloc)?);
    let mut out = MemSink::new(alloc, failing.output.to_vec(alloc)?);
    let mut report = MemSink::new(alloc, failing.report.to_vec(alloc)?);
    let status = binrec(alloc, &texts, &mut shelf, &mut input, &mut out, &mut report);
    let stored = match shelf.get("N") {
        None => None,
        Some(bytes) => Some(bytes.to_vec(alloc)?),
    };
    Ok(Left {
        status: status.0,
        report: String::from_utf8(report.written().to_vec(alloc)?)?,
        stored,
        printed: out.written().to_vec(alloc)?,
        untaken: input.left() == b"input".as_slice(),
    })
}

/// The executable with other code and data behind its headers.
fn with_code(rt: &HostRuntime, code: &[u8]) -> Result<Vec<u8>, Fail> {
    let mut file = HELLO[..84].to_vec(rt.alloc())?;
    file.extend_from_slice(code)?;
    if file.len() > 200 {
        return Err("too long".into());
    }
    let size = file.len() as u8;
    file[68] = size;
    file[72] = size;
    Ok(file)
}
