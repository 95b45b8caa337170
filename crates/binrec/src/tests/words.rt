//! The words of commands.
use super::{HELLO, left_by};
use std::test::Fail;

#[test]
fn reads_the_words(rt: HostRuntime) -> Result<(), Fail> {
    let stated: [(&[&str], &str); 21] = [
        (&[], "usage 0\n"),
        (&["built", "N", "E"], "usage 0\n"),
        (&["build"], "usage 1\n"),
        (&["build", "", "E"], "usage 1\n"),
        (&["build", ""], "usage 1\n"),
        (&["build", "N"], "usage 2\n"),
        (&["build", "N", ""], "usage 2\n"),
        (&["build", "N", "E", ""], "usage 3\n"),
        (&["build", "N", "E", "T", ""], "usage 4\n"),
        (&["show"], "usage 1\n"),
        (&["session", "E", "F"], "usage 2\n"),
        (&["demo"], "usage 1\n"),
        (&["demo", "0"], "usage 1\n"),
        (&["demo", "1001"], "usage 1\n"),
        (&["demo", "x"], "usage 1\n"),
        (&["demo", "+1"], "usage 1\n"),
        (&["demo", "0000000000000000001"], "usage 1\n"),
        (&["demo", "1", "2"], "usage 2\n"),
        (&["run"], "usage 1\n"),
        (&["run", "--steps", "x", "E"], "usage 2\n"),
        (&["run", "--steps", "1"], "usage 3\n"),
    ];
    for (words, line) in stated {
        assert!(rt; left_by(&rt, words, &HELLO)?.gives_up(1, line), "{}", line);
    }
    Ok(())
}

/// `build N E` and so many names of traces.
fn with_traces(rt: &HostRuntime, count: u32) -> Result<Vec<&'static str>, Fail> {
    let mut words = ["build", "N", "E"].to_vec(rt.alloc())?;
    for _trace in 0..count {
        words.push("absent")?;
    }
    Ok(words)
}

#[test]
fn limits_the_traces_of_build(rt: HostRuntime) -> Result<(), Fail> {
    let most = with_traces(&rt, 4096)?;
    assert!(rt; left_by(&rt, &most, &HELLO)?.gives_up(3, "outside shelf\n"));
    let more = with_traces(&rt, 4097)?;
    assert!(rt; left_by(&rt, &more, &HELLO)?.gives_up(1, "usage 4099\n"));
    Ok(())
}
