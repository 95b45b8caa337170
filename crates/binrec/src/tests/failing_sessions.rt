//! `session` over objects of which some calls fail: what was stored before stays.
use super::outcome::{Outcome, run_over};
use super::traces::TRACE;
use super::{Failing, HELLO, NONE};
use std::test::Fail;

/// `HELLO` as `E`, and its trace as `T`.
const FILES: [(&str, &[u8]); 2] = [("E", &HELLO), ("T", &TRACE)];

const SCRIPT: &[u8] = b"add T\nemit A\nremove 1\nemit B\n";

const ADDED: &[u8] = b"added 1\n";

const EMITTED: &[u8] = b"added 1\nemitted 5 795 8313 made 5\n";

const REMOVED: &[u8] = b"added 1\nemitted 5 795 8313 made 5\nremoved 1\n";

const ALL: &[u8] = b"added 1\nemitted 5 795 8313 made 5\nremoved 1\nemitted 0 5 8313 made 0\n";

/// Follows a script.
fn sat(rt: &HostRuntime, script: &[u8], failing: Failing<'_>) -> Result<Outcome, Fail> {
    run_over(rt, &["session", "E"], &FILES, script, failing)
}

/// Whether `A` is what `build` writes for the trace, and `B`, if it is to be there, what it writes for none.
fn stored(rt: &HostRuntime, left: &Outcome, both: bool) -> Result<bool, Fail> {
    let with = run_over(rt, &["build", "N", "E", "T"], &FILES, b"", NONE)?;
    let without = run_over(rt, &["build", "N", "E"], &FILES, b"", NONE)?;
    let second = if both {
        left.agrees("B", &without, "N")
    } else {
        !left.has("B")
    };
    Ok(left.has("A") && left.agrees("A", &with, "N") && second && left.keeps(&FILES))
}

#[test]
fn the_source_fails_after_an_emit(rt: HostRuntime) -> Result<(), Fail> {
    // behind the first piece of 4096 bytes, and at the end of a script that is shorter
    let mut long = b"add T\nemit A\n".to_vec(rt.alloc())?;
    for _line in 0..4096 {
        long.push(b'\n')?;
    }
    long.extend_from_slice(b"emit B\n")?;
    let failing = Failing {
        input: &[2],
        ..NONE
    };
    for script in [long.as_slice(), b"add T\nemit A\n"] {
        let left = sat(&rt, script, failing)?;
        assert!(rt;
            left.says(3, "outside input\n", EMITTED),
            "{}",
            script.len()
        );
        assert!(rt; stored(&rt, &left, false)?, "{}", script.len());
    }
    Ok(())
}

#[test]
fn the_output_fails(rt: HostRuntime) -> Result<(), Fail> {
    let line = "outside output\n";
    let failing = Failing {
        output: &[2],
        ..NONE
    };
    let left = sat(&rt, SCRIPT, failing)?;
    assert!(rt; left.says(3, line, ADDED) && stored(&rt, &left, false)?);
    let failing = Failing {
        output: &[4],
        ..NONE
    };
    let left = sat(&rt, SCRIPT, failing)?;
    assert!(rt; left.says(3, line, REMOVED) && stored(&rt, &left, true)?);
    Ok(())
}

#[test]
fn a_store_fails(rt: HostRuntime) -> Result<(), Fail> {
    let line = "outside shelf\n";
    let failing = Failing {
        shelf: &[3],
        ..NONE
    };
    let left = sat(&rt, SCRIPT, failing)?;
    assert!(rt; left.says(3, line, ADDED) && left.keeps(&FILES));
    assert!(rt; !left.has("A") && !left.has("B"));
    let failing = Failing {
        shelf: &[4],
        ..NONE
    };
    let left = sat(&rt, SCRIPT, failing)?;
    assert!(rt; left.says(3, line, REMOVED) && stored(&rt, &left, false)?);
    Ok(())
}

#[test]
fn the_report_fails(rt: HostRuntime) -> Result<(), Fail> {
    let failing = Failing {
        report: &[1],
        ..NONE
    };
    let left = sat(&rt, SCRIPT, failing)?;
    assert!(rt; left.says(3, "", ALL) && stored(&rt, &left, true)?);
    Ok(())
}

#[test]
fn an_absent_name_where_4096_are_live(rt: HostRuntime) -> Result<(), Fail> {
    let mut script = Vec::new(rt.alloc());
    for _line in 0..4096 {
        script.extend_from_slice(b"add T\n")?;
    }
    let count = script.len();
    // the fetch comes before the limit
    for (last, status, report) in [
        (b"add absent\n".as_slice(), 3, "outside shelf\n"),
        (b"add E\n", 2, "refused line 4097 21 0\n"),
        (b"add T\n", 7, "limit traces 4096\n"),
    ] {
        script.truncate(count);
        script.extend_from_slice(last)?;
        let left = sat(&rt, &script, NONE)?;
        assert!(rt;
            left.status == status && left.report.as_slice() == report.as_bytes(),
            "{}",
            report
        );
        assert!(rt;
            left.printed.as_slice().ends_with(b"\nadded 4096\n"),
            "{}",
            report
        );
    }
    Ok(())
}
