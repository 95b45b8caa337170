//! `demo`.
use super::{Failing, left_over};
use std::test::Fail;

/// The line of the demonstration with one function, worked out by another program over the same rules.
const LINE: &[u8] =
    b"demo 1 file 137 blocks 7 code 1310 image 8329 out 588139be 588139be steps 15 184\n";

/// The first call of each other object fails, and none is made.
#[test]
fn calls_the_output_alone(rt: HostRuntime) -> Result<(), Fail> {
    let failing = Failing {
        shelf: &[1],
        input: &[1],
        output: &[],
        report: &[1],
    };
    for number in ["1", "000000000000000001"] {
        let left = left_over(&rt, &["demo", number], &[], failing)?;
        assert_eq!(rt; left.status, 0);
        assert!(rt; left.printed.as_slice() == LINE);
        assert!(rt; left.report.is_empty() && left.untaken);
    }
    Ok(())
}

#[test]
fn an_output_that_fails(rt: HostRuntime) -> Result<(), Fail> {
    let failing = Failing {
        shelf: &[],
        input: &[],
        output: &[1],
        report: &[],
    };
    let left = left_over(&rt, &["demo", "1"], &[], failing)?;
    assert!(rt; left.says(3, "outside output\n"));
    Ok(())
}
