//! `run`.
use super::{Failing, HELLO, Left, NONE, left_by, left_failing, with_code};
use std::test::Fail;

/// Whether code that is run as a guest comes to this status, output and report, and stores nothing.
fn runs_as(
    rt: &HostRuntime,
    words: &[&str],
    code: &[u8],
    status: u8,
    printed: &[u8],
    line: &str,
) -> Result<bool, Fail> {
    let file = with_code(rt, code)?;
    let left = left_by(rt, words, &file)?;
    Ok(
        left.status == status
            && left.report.as_str() == line
            && left.printed.as_slice() == printed
            && left.stored.is_none(),
    )
}

/// Writes 3 bytes from an address, to a descriptor.
const WRITE: [u8; 22] = [
    0xb8, 4, 0, 0, 0, 0xbb, 1, 0, 0, 0, 0xb9, 0x7b, 0x80, 0x04, 0x08, 0xba, 3, 0, 0, 0, 0xcd, 0x80,
];

#[test]
fn runs_a_guest(rt: HostRuntime) -> Result<(), Fail> {
    let words = ["run", "E"];
    let line = "exit 0 steps 8 undefined 0\n";
    assert!(rt; runs_as(&rt, &words, &HELLO[84..], 0, b"hi\n", line)?);
    let line = "budget steps 7 undefined 0\n";
    let few = ["run", "--steps", "7", "E"];
    assert!(rt; runs_as(&rt, &few, &HELLO[84..], 6, b"hi\n", line)?);
    let cleared = [0x30, 0xc0, 0xb8, 1, 0, 0, 0, 0xcd, 0x80];
    let line = "exit 0 steps 3 undefined 0\n";
    assert!(rt; runs_as(&rt, &words, &cleared, 0, b"", line)?);
    // mul leaves ZF undefined, and jz reads it
    let multiplied = [0xf7, 0xe0, 0x74, 0, 0xb8, 1, 0, 0, 0, 0xcd, 0x80];
    let line = "exit 0 steps 4 undefined 1\n";
    assert!(rt; runs_as(&rt, &words, &multiplied, 0, b"", line)?);
    Ok(())
}

#[test]
fn stops_at_the_budget(rt: HostRuntime) -> Result<(), Fail> {
    let jump = [0xeb, 0xfe];
    for (steps, line) in [
        ("10", "budget steps 10 undefined 0\n"),
        ("0", "budget steps 0 undefined 0\n"),
    ] {
        let words = ["run", "--steps", steps, "E"];
        assert!(rt; runs_as(&rt, &words, &jump, 6, b"", line)?, "{}", line);
    }
    Ok(())
}

#[test]
fn tells_a_fault(rt: HostRuntime) -> Result<(), Fail> {
    let mut code = WRITE.to_vec(rt.alloc())?;
    // eax 1, edx 0, ecx 0, div ecx, and the text
    code.extend_from_slice(&[
        0xb8, 1, 0, 0, 0, 0xba, 0, 0, 0, 0, 0xb9, 0, 0, 0, 0, 0xf7, 0xf1,
    ])?;
    code.extend_from_slice(b"hi\n")?;
    let line = "fault divide 08048079 steps 9 undefined 0\n";
    assert!(rt; runs_as(&rt, &["run", "E"], &code, 5, b"hi\n", line)?);
    Ok(())
}

#[test]
fn reports_what_a_guest_writes_to_2(rt: HostRuntime) -> Result<(), Fail> {
    let mut file = HELLO;
    file[90] = 2;
    let left = left_by(&rt, &["run", "E"], &file)?;
    assert!(rt; left.gives_up(0, "hi\nexit 0 steps 8 undefined 0\n"));
    Ok(())
}

#[test]
fn refuses_a_guest(rt: HostRuntime) -> Result<(), Fail> {
    let mut file = HELLO;
    file[16] = 3;
    let left = left_by(&rt, &["run", "E"], &file)?;
    assert!(rt; left.gives_up(2, "refused word 1 4 16\n"));
    let left = left_by(&rt, &["run", "--steps", "9", "E"], &file)?;
    assert!(rt; left.gives_up(2, "refused word 3 4 16\n"));
    let left = left_by(&rt, &["run", "absent"], &file)?;
    assert!(rt; left.gives_up(3, "outside shelf\n"));
    Ok(())
}

/// Reads 3 bytes into the stack, and exits.
const READ: [u8; 31] = [
    0xb8, 3, 0, 0, 0, 0xbb, 0, 0, 0, 0, 0x89, 0xe1, 0xba, 3, 0, 0, 0, 0xcd, 0x80, 0xb8, 1, 0, 0, 0,
    0xbb, 0, 0, 0, 0, 0xcd, 0x80,
];

#[test]
fn names_what_failed_in_a_run(rt: HostRuntime) -> Result<(), Fail> {
    let words = ["run", "E"];
    let output = Failing {
        output: &[1],
        ..NONE
    };
    let left = left_failing(&rt, &words, &HELLO, output)?;
    assert!(rt; left.gives_up(3, "outside output\n"));
    let input = Failing {
        input: &[1],
        ..NONE
    };
    let left = left_failing(&rt, &words, &with_code(&rt, &READ)?, input)?;
    assert!(rt; left.gives_up(3, "outside input\n"));
    Ok(())
}

#[test]
fn answers_3_where_the_report_failed(rt: HostRuntime) -> Result<(), Fail> {
    let words = ["run", "E"];
    let report = Failing {
        report: &[1],
        ..NONE
    };
    let left = left_failing(&rt, &words, &HELLO, report)?;
    assert_eq!(rt; left.status, 3);
    assert_eq!(rt; left.report.as_str(), "");
    assert_eq!(rt; left.printed.as_slice(), b"hi\n".as_slice());
    // what the guest writes to 2 is not reported, but the line of the stop is
    let mut file = HELLO;
    file[90] = 2;
    let left = left_failing(&rt, &words, &file, report)?;
    assert!(rt; left.gives_up(3, "outside report\n"));
    Ok(())
}
