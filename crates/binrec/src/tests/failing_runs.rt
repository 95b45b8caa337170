//! `run`, `trace` and `merge` over objects of which some calls fail.
use super::each_failure::ECHO;
use super::outcome::{Outcome, run_over};
use super::{Failing, HELLO, NONE, with_code};
use std::test::Fail;

/// Runs the words over the guest, with 8 bytes of input.
fn echoed(
    rt: &HostRuntime,
    words: &[&str],
    code: &[u8],
    failing: Failing<'_>,
) -> Result<Outcome, Fail> {
    let guest = with_code(rt, code)?;
    run_over(rt, words, &[("G", guest.as_slice())], b"abcdefgh", failing)
}

#[test]
fn the_second_take_fails(rt: HostRuntime) -> Result<(), Fail> {
    let failing = Failing {
        input: &[2],
        ..NONE
    };
    let left = echoed(&rt, &["run", "G"], &ECHO, failing)?;
    assert!(rt; left.says(3, "outside input\n", b"abc"));
    assert!(rt; left.left.as_slice() == b"defgh".as_slice());
    let left = echoed(&rt, &["trace", "N", "G"], &ECHO, failing)?;
    assert!(rt; left.says(3, "outside input\n", b"abc") && !left.has("N"));
    Ok(())
}

#[test]
fn the_output_of_a_traced_run_fails(rt: HostRuntime) -> Result<(), Fail> {
    let words = ["trace", "N", "G"];
    let second = Failing {
        output: &[2],
        ..NONE
    };
    let left = echoed(&rt, &words, &ECHO, second)?;
    assert!(rt; left.says(3, "defoutside output\n", b"abc") && !left.has("N"));
    Ok(())
}

#[test]
fn a_traced_guest_faults_behind_its_output(rt: HostRuntime) -> Result<(), Fail> {
    // the read, the first write, and bytes that spell nothing
    let mut code = ECHO[..31].to_vec(rt.alloc())?;
    code.extend_from_slice(&[0x0f, 0x0b])?;
    let words = ["trace", "N", "G"];
    let left = echoed(&rt, &words, &code, NONE)?;
    let line = "fault illegal 08048073 steps 9 undefined 0 edges 1\n";
    assert!(rt; left.says(5, line, b"abc") && left.has("N"));
    let failing = Failing {
        report: &[1],
        ..NONE
    };
    let silent = echoed(&rt, &words, &code, failing)?;
    assert!(rt; silent.says(3, "", b"abc") && silent.agrees("N", &left, "N"));
    let failing = Failing {
        shelf: &[2],
        ..NONE
    };
    let lost = echoed(&rt, &words, &code, failing)?;
    assert!(rt; lost.says(3, "outside shelf\n", b"abc") && !lost.has("N"));
    Ok(())
}

#[test]
fn the_report_fails_at_what_the_guest_writes(rt: HostRuntime) -> Result<(), Fail> {
    for (numbers, report) in [(&[1u32][..], "outside report\n"), (&[1, 2], "")] {
        let failing = Failing {
            report: numbers,
            ..NONE
        };
        let left = echoed(&rt, &["run", "G"], &ECHO, failing)?;
        assert!(rt; left.says(3, report, b"abc"), "{}", report);
        let left = echoed(&rt, &["trace", "N", "G"], &ECHO, failing)?;
        assert!(rt;
            left.says(3, report, b"abc") && !left.has("N"),
            "{}",
            report
        );
    }
    Ok(())
}

/// The lines that name an object, where the report takes none.
#[test]
fn the_report_fails_at_another_failure(rt: HostRuntime) -> Result<(), Fail> {
    let failing = Failing {
        shelf: &[1],
        input: &[1],
        output: &[1],
        report: &[1],
    };
    let files: [(&str, &[u8]); 1] = [("E", &HELLO)];
    let commands: [&[&str]; 7] = [
        &["build", "N", "E"],
        &["run", "E"],
        &["trace", "N", "E"],
        &["merge", "N", "E"],
        &["show", "E"],
        &["session", "E"],
        &["demo", "1"],
    ];
    for words in commands {
        let left = run_over(&rt, words, &files, b"emit N\n", failing)?;
        assert!(rt; left.says(3, "", b"") && !left.has("N"), "{}", words.len());
    }
    Ok(())
}
