//! `session`.
use super::HELLO;
use super::traces::TRACE;
use crate::top::binrec;
use br_outside::{MemShelf, MemSink, MemSource};
use std::test::Fail;

/// What a session left: its status, its report, what it printed, and its files.
#[derive(Drop)]
struct Sitting {
    status: u8,
    report: String,
    printed: String,
    shelf: MemShelf,
}

impl Sitting {
    /// Whether this is the status, the report and what was printed.
    fn says(&self, status: u8, report: &str, printed: &str) -> bool {
        self.status == status && self.report.as_str() == report && self.printed.as_str() == printed
    }

    /// Whether both names hold the same bytes.
    fn has_both(&self, name: &str, other: &str) -> bool {
        match (self.shelf.get(name), self.shelf.get(other)) {
            (Some(bytes), Some(others)) => bytes == others,
            _ => false,
        }
    }
}

/// Runs a session of `HELLO`, whose trace is `T`, with this script, of which calls of the input with these numbers fail.
fn sat(rt: &HostRuntime, script: &[u8], failing: &[u32]) -> Result<Sitting, Fail> {
    let alloc = rt.alloc();
    let mut words = Vec::new(alloc);
    words.push(String::from_str(alloc, "session")?)?;
    words.push(String::from_str(alloc, "E")?)?;
    let mut files = Vec::new(alloc);
    files.push((String::from_str(alloc, "E")?, HELLO.to_vec(alloc)?))?;
    files.push((String::from_str(alloc, "T")?, TRACE.to_vec(alloc)?))?;
    let mut shelf = MemShelf::new(alloc, files, Vec::new(alloc));
    let mut input = MemSource::new(script.to_vec(alloc)?, failing.to_vec(alloc)?);
    let mut out = MemSink::new(alloc, Vec::new(alloc));
    let mut report = MemSink::new(alloc, Vec::new(alloc));
    let status = binrec(alloc, &words, &mut shelf, &mut input, &mut out, &mut report);
    Ok(Sitting {
        status: status.0,
        report: String::from_utf8(report.written().to_vec(alloc)?)?,
        printed: String::from_utf8(out.written().to_vec(alloc)?)?,
        shelf,
    })
}

#[test]
fn adds_removes_and_emits(rt: HostRuntime) -> Result<(), Fail> {
    let script = b"add T\nadd T\nremove 1\nemit N\nremove 1\n";
    let left = sat(&rt, script, &[])?;
    let printed = "added 1\nadded 2\nremoved 1\nemitted 5 795 8313 made 5\n";
    assert!(rt;
        left.says(2, "refused line 5 32 0\n", printed),
        "{}",
        left.printed.as_str()
    );
    Ok(())
}

#[test]
fn makes_only_new_blocks(rt: HostRuntime) -> Result<(), Fail> {
    let script = b"emit A\nadd T\nemit B\nemit C\n\nremove 01\nemit D";
    let left = sat(&rt, script, &[])?;
    let printed =
        "emitted 0 5 8313 made 0\nadded 1\nemitted 5 795 8313 made 5\nemitted 5 795 8313 made 0\nremoved 1\nemitted 0 5 8313 made 0\n";
    assert!(rt;
        left.says(0, "lines 7\n", printed),
        "{}",
        left.printed.as_str()
    );
    assert!(rt; left.has_both("A", "D"));
    assert!(rt; left.has_both("B", "C"));
    Ok(())
}

#[test]
fn refuses_lines(rt: HostRuntime) -> Result<(), Fail> {
    let stated: [(&[u8], u8, &str, &str); 8] = [
        (b"", 0, "lines 0\n", ""),
        (b"\n\n", 0, "lines 2\n", ""),
        (b"drop 1\n", 2, "refused line 1 31 0\n", ""),
        (b"add  T\n", 3, "outside shelf\n", ""),
        (b"remove 0\n", 2, "refused line 1 32 0\n", ""),
        (b"add E\n", 2, "refused line 1 21 0\n", ""),
        (
            b"emit N\nadd N\n",
            2,
            "refused line 2 21 0\n",
            "emitted 0 5 8313 made 0\n",
        ),
        (
            b"emit E\nemit N\n",
            0,
            "lines 2\n",
            "emitted 0 5 8313 made 0\nemitted 0 5 8313 made 0\n",
        ),
    ];
    for (script, status, report, printed) in stated {
        let left = sat(&rt, script, &[])?;
        assert!(rt; left.says(status, report, printed), "{}", report);
    }
    Ok(())
}

#[test]
fn a_source_that_fails(rt: HostRuntime) -> Result<(), Fail> {
    let script = b"add T\nadd";
    let left = sat(&rt, script, &[2])?;
    assert!(rt; left.says(3, "outside input\n", "added 1\n"));
    let left = sat(&rt, script, &[1])?;
    assert!(rt; left.says(3, "outside input\n", ""));
    Ok(())
}

#[test]
fn a_line_that_is_too_long(rt: HostRuntime) -> Result<(), Fail> {
    let mut script = b"\n".to_vec(rt.alloc())?;
    for _byte in 0..4201 {
        script.push(b'a')?;
    }
    let left = sat(&rt, script.as_slice(), &[])?;
    assert!(rt; left.says(2, "refused line 2 31 0\n", ""));
    Ok(())
}

#[test]
fn a_name_of_4096_bytes(rt: HostRuntime) -> Result<(), Fail> {
    let stated = [(4096, 0, "lines 1\n"), (4097, 2, "refused line 1 31 0\n")];
    for (count, status, report) in stated {
        let mut script = b"emit ".to_vec(rt.alloc())?;
        for _byte in 0..count {
            script.push(b'n')?;
        }
        let left = sat(&rt, script.as_slice(), &[])?;
        assert!(rt; left.status == status && left.report.as_str() == report);
    }
    Ok(())
}
