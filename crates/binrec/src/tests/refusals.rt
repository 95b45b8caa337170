//! `build` with traces that are refused, or too many: nothing is stored.
use super::traces::{TRACE, left_by_trace, long_trace};
use super::{HELLO, left_of};
use std::test::Fail;

/// Bytes that are written over those of a trace, and the refusal behind the position of its word.
const DAMAGES: [(usize, &[u8], &str); 6] = [
    (0, &[0], "21 0\n"),
    (8, &[0], "22 8\n"),
    (40, &[2], "23 52\n"),
    (40, &[0], "25 44\n"),
    (40, &[0x81, 0x84, 0x1e, 0x00], "26 40\n"),
    (39, &[0], "22 8\n"),
];

#[test]
fn refuses_damaged_traces_of_build(rt: HostRuntime) -> Result<(), Fail> {
    let alloc = rt.alloc();
    let words = ["build", "N", "E", "T"];
    for (at, bytes, end) in DAMAGES {
        let mut file = TRACE;
        for (offset, byte) in bytes.iter().enumerate() {
            if let Some(place) = file.get_mut(at.saturating_add(offset)) {
                *place = *byte;
            }
        }
        let line = format!(in alloc; "refused word 3 {end}")?;
        assert!(rt;
            left_by_trace(&rt, &words, &file)?.gives_up(2, line.as_str()),
            "{}",
            end
        );
        let second = [("E", HELLO.as_slice()), ("T", &TRACE), ("U", &file)];
        let line = format!(in alloc; "refused word 4 {end}")?;
        let left = left_of(&rt, &["build", "N", "E", "T", "U"], &second)?;
        assert!(rt; left.gives_up(2, line.as_str()), "{}", end);
    }
    Ok(())
}

#[test]
fn refuses_traces_of_another_length(rt: HostRuntime) -> Result<(), Fail> {
    let alloc = rt.alloc();
    let words = ["build", "N", "E", "T"];
    let left = left_by_trace(&rt, &words, &TRACE[..51])?;
    assert!(rt; left.gives_up(2, "refused word 3 23 51\n"));
    let mut longer = TRACE.to_vec(alloc)?;
    longer.push(0)?;
    let left = left_by_trace(&rt, &words, &longer)?;
    assert!(rt; left.gives_up(2, "refused word 3 25 52\n"));
    let mut twice = TRACE.to_vec(alloc)?;
    twice.extend_from_slice(&TRACE[44..])?;
    if let Some(count) = twice.get_mut(40) {
        *count = 2;
    }
    let left = left_by_trace(&rt, &words, &twice)?;
    assert!(rt; left.gives_up(2, "refused word 3 24 52\n"));
    Ok(())
}

#[test]
fn refuses_the_first_in_order(rt: HostRuntime) -> Result<(), Fail> {
    let left = left_by_trace(&rt, &["build", "N", "E", "absent"], &TRACE)?;
    assert!(rt; left.gives_up(3, "outside shelf\n"));
    let left = left_by_trace(&rt, &["build", "N", "T", "absent"], &TRACE)?;
    assert!(rt; left.gives_up(2, "refused word 2 2 0\n"));
    let left = left_by_trace(&rt, &["build", "N", "E", "E", "absent"], &TRACE)?;
    assert!(rt; left.gives_up(2, "refused word 3 21 0\n"));
    Ok(())
}

// Files of 16 MB: under `rt try` it wants `--seconds 600`.
#[test]
fn limits_the_traces_and_their_edges(rt: HostRuntime) -> Result<(), Fail> {
    let alloc = rt.alloc();
    let long = vec![in alloc; 0u8; 16777217]?;
    let left = left_by_trace(&rt, &["build", "N", "E", "T"], &long)?;
    assert!(rt; left.gives_up(7, "limit file 16777216\n"));
    let full = long_trace(alloc, 1, 2000000)?;
    let nine = [
        "build", "N", "E", "T", "T", "T", "T", "T", "T", "T", "T", "T",
    ];
    assert!(rt; left_by_trace(&rt, &nine, &full)?.gives_up(7, "limit edges 16777216\n"));
    Ok(())
}
