//! What a command leaves of objects of which some calls fail.
use super::Failing;
use crate::top::binrec;
use br_outside::{MemShelf, MemSink, MemSource};
use std::test::Fail;

/// The status, the report, what was printed, what is left of the input, and the files.
#[derive(Drop)]
pub struct Outcome {
    pub status: u8,
    pub report: Vec<u8>,
    pub printed: Vec<u8>,
    pub left: Vec<u8>,
    shelf: MemShelf,
}

impl Outcome {
    /// Whether this is the status, the report and what was printed.
    pub fn says(&self, status: u8, report: &str, printed: &[u8]) -> bool {
        self.status == status
            && self.report.as_slice() == report.as_bytes()
            && self.printed.as_slice() == printed
    }

    /// Whether there is a file of this name.
    pub fn has(&self, name: &str) -> bool {
        self.shelf.get(name).is_some()
    }

    /// Whether the file of this name holds these bytes.
    pub fn holds(&self, name: &str, bytes: &[u8]) -> bool {
        match self.shelf.get(name) {
            Some(content) => content == bytes,
            None => false,
        }
    }

    /// Whether the name holds what the other name holds there.
    pub fn agrees(&self, name: &str, other: &Outcome, other_name: &str) -> bool {
        match (self.shelf.get(name), other.shelf.get(other_name)) {
            (Some(bytes), Some(others)) => bytes == others,
            (None, None) => true,
            _ => false,
        }
    }

    /// Whether each of these files is as it is given.
    pub fn keeps(&self, files: &[(&str, &[u8])]) -> bool {
        for (name, content) in files {
            if !self.holds(name, content) {
                return false;
            }
        }
        true
    }
}

/// Runs a command over these files and this input, of which some calls fail.
pub fn run_over(
    rt: &HostRuntime,
    words: &[&str],
    contents: &[(&str, &[u8])],
    input: &[u8],
    failing: Failing<'_>,
) -> Result<Outcome, Fail> {
    let alloc = rt.alloc();
    let mut texts = Vec::new(alloc);
    for word in words {
        texts.push(String::from_str(alloc, word)?)?;
    }
    let mut files = Vec::new(alloc);
    for (name, content) in contents {
        files.push((String::from_str(alloc, name)?, content.to_vec(alloc)?))?;
    }
    let mut shelf = MemShelf::new(alloc, files, failing.shelf.to_vec(alloc)?);
    let mut source = MemSource::new(input.to_vec(alloc)?, failing.input.to_vec(alloc)?);
    let mut out = MemSink::new(alloc, failing.output.to_vec(alloc)?);
    let mut report = MemSink::new(alloc, failing.report.to_vec(alloc)?);
    let status = binrec(
        alloc,
        &texts,
        &mut shelf,
        &mut source,
        &mut out,
        &mut report,
    );
    Ok(Outcome {
        status: status.0,
        report: report.written().to_vec(alloc)?,
        printed: out.written().to_vec(alloc)?,
        left: source.left().to_vec(alloc)?,
        shelf,
    })
}
