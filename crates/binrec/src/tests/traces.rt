//! Traces that are recorded and merged.
use super::{Failing, HELLO, Left, NONE, left_failing, left_of, with_code};
use std::alloc::{AllocError, Global};
use std::test::Fail;

/// The trace of a run of `HELLO`, which takes no jump: the digest is as sha256sum printed it.
pub const TRACE: [u8; 52] =
    *b"BRTRACE1\x91\xee\x0a\xdd\x03\xa3\x4f\x6a\x2a\x91\x13\xd3\x28\xd3\x2e\x4a\x5e\xbb\x3c\x21\x43\xc2\xd3\x7f\x1d\xfa\xd5\x99\xcf\xec\x3b\x7e\x01\x00\x00\x00\x00\x00\x00\x00\x54\x80\x04\x08";

/// Runs a command over a shelf with `HELLO` as `E`, and these bytes as `T`.
pub fn left_by_trace(rt: &HostRuntime, words: &[&str], trace: &[u8]) -> Result<Left, Fail> {
    left_of(rt, words, &[("E", &HELLO), ("T", trace)])
}

/// Whether these bytes were stored with this status, output and report.
fn stores(left: &Left, status: u8, printed: &[u8], line: &str, bytes: &[u8]) -> bool {
    let stored = match &left.stored {
        None => false,
        Some(stored) => stored.as_slice() == bytes,
    };
    stored
        && left.status == status
        && left.report.as_str() == line
        && left.printed.as_slice() == printed
        && left.untaken
}

/// The end of a trace file: how many pairs, and the pairs.
fn ends_in(left: &Left, end: &[u8]) -> bool {
    match &left.stored {
        None => false,
        Some(stored) => stored.get(40..) == Some(end),
    }
}

#[test]
fn traces_a_run(rt: HostRuntime) -> Result<(), Fail> {
    let left = left_by_trace(&rt, &["trace", "N", "E"], &[])?;
    let line = "exit 0 steps 8 undefined 0 edges 1\n";
    assert!(rt; stores(&left, 0, b"hi\n", line, &TRACE));
    Ok(())
}

#[test]
fn traces_to_the_budget(rt: HostRuntime) -> Result<(), Fail> {
    let jump = with_code(&rt, &[0xeb, 0xfe])?;
    let left = left_of(&rt, &["trace", "--steps", "10", "N", "E"], &[("E", &jump)])?;
    assert_eq!(rt; left.status, 6);
    assert_eq!(rt;
        left.report.as_str(),
        "budget steps 10 undefined 0 edges 2\n"
    );
    assert!(rt;
        ends_in(
            &left,
            b"\x02\x00\x00\x00\x00\x00\x00\x00\x54\x80\x04\x08\x54\x80\x04\x08\x54\x80\x04\x08"
        )
    );
    Ok(())
}

#[test]
fn traces_a_jump_that_is_not_taken(rt: HostRuntime) -> Result<(), Fail> {
    // cmp eax, eax; jnz; and bytes that spell nothing
    let code = with_code(&rt, &[0x39, 0xc0, 0x75, 0x00, 0x0f, 0x0b])?;
    let left = left_of(&rt, &["trace", "N", "E"], &[("E", &code)])?;
    assert_eq!(rt; left.status, 5);
    assert_eq!(rt;
        left.report.as_str(),
        "fault illegal 08048058 steps 3 undefined 0 edges 2\n"
    );
    assert!(rt;
        ends_in(
            &left,
            b"\x02\x00\x00\x00\x00\x00\x00\x00\x54\x80\x04\x08\x56\x80\x04\x08\x58\x80\x04\x08"
        )
    );
    Ok(())
}

#[test]
fn names_what_failed_in_a_traced_run(rt: HostRuntime) -> Result<(), Fail> {
    let left = left_failing(
        &rt,
        &["trace", "N", "E"],
        &HELLO,
        Failing {
            output: &[1],
            ..NONE
        },
    )?;
    assert!(rt; left.gives_up(3, "outside output\n"));
    let left = left_failing(
        &rt,
        &["trace", "N", "E"],
        &HELLO,
        Failing {
            shelf: &[2],
            ..NONE
        },
    )?;
    assert_eq!(rt; left.status, 3);
    assert_eq!(rt; left.report.as_str(), "outside shelf\n");
    assert_eq!(rt; left.printed.as_slice(), b"hi\n".as_slice());
    let left = left_by_trace(&rt, &["trace", "N", "absent"], &[])?;
    assert!(rt; left.gives_up(3, "outside shelf\n"));
    Ok(())
}

#[test]
fn merges_traces(rt: HostRuntime) -> Result<(), Fail> {
    let left = left_by_trace(&rt, &["merge", "N", "E", "T", "T"], &TRACE)?;
    assert!(rt; stores(&left, 0, b"", "merged 1\n", &TRACE));
    let left = left_by_trace(&rt, &["merge", "N", "E"], &TRACE)?;
    assert_eq!(rt; left.report.as_str(), "merged 0\n");
    assert!(rt; ends_in(&left, &[0, 0, 0, 0]));
    Ok(())
}

#[test]
fn refuses_damaged_traces(rt: HostRuntime) -> Result<(), Fail> {
    let alloc = rt.alloc();
    let words = ["merge", "N", "E", "T"];
    for (at, byte, line) in [
        (0usize, 0u8, "refused word 3 21 0\n"),
        (8, 0, "refused word 3 22 8\n"),
        (40, 2, "refused word 3 23 52\n"),
        (40, 0, "refused word 3 25 44\n"),
    ] {
        let mut file = TRACE;
        if let Some(place) = file.get_mut(at) {
            *place = byte;
        }
        assert!(rt;
            left_by_trace(&rt, &words, &file)?.gives_up(2, line),
            "{}",
            line
        );
    }
    let left = left_by_trace(&rt, &words, &TRACE[..51])?;
    assert!(rt; left.gives_up(2, "refused word 3 23 51\n"));
    let mut twice = TRACE.to_vec(alloc)?;
    twice.extend_from_slice(&TRACE[44..])?;
    if let Some(count) = twice.get_mut(40) {
        *count = 2;
    }
    assert!(rt; left_by_trace(&rt, &words, &twice)?.gives_up(2, "refused word 3 24 52\n"));
    let second = ["merge", "N", "E", "T", "E"];
    assert!(rt; left_by_trace(&rt, &second, &TRACE)?.gives_up(2, "refused word 4 21 0\n"));
    Ok(())
}

/// A trace of `HELLO` with so many pairs, whose sites go on from `start`.
pub fn long_trace(alloc: Global, start: u32, count: u32) -> Result<Vec<u8>, AllocError> {
    let mut file = TRACE[..40].to_vec(alloc)?;
    file.extend_from_slice(&count.to_le_bytes())?;
    for i in 0..count {
        file.extend_from_slice(&start.wrapping_add(i).to_le_bytes())?;
        file.extend_from_slice(&[0; 4])?;
    }
    Ok(file)
}

// Nine files of 16 MB: under `rt try` it wants `--seconds 600`.
#[test]
fn limits_the_edges(rt: HostRuntime) -> Result<(), Fail> {
    let alloc = rt.alloc();
    let full = long_trace(alloc, 1, 2000000)?;
    let nine = [
        "merge", "N", "E", "T", "T", "T", "T", "T", "T", "T", "T", "T",
    ];
    assert!(rt; left_by_trace(&rt, &nine, &full)?.gives_up(7, "limit edges 16777216\n"));
    let many = long_trace(alloc, 1, 2000001)?;
    let one = ["merge", "N", "E", "T"];
    assert!(rt; left_by_trace(&rt, &one, &many)?.gives_up(2, "refused word 3 26 40\n"));
    Ok(())
}

#[test]
fn limits_the_union(rt: HostRuntime) -> Result<(), Fail> {
    let alloc = rt.alloc();
    let first = long_trace(alloc, 1, 1500000)?;
    let second = long_trace(alloc, 1500001, 1500000)?;
    let files: [(&str, &[u8]); 3] = [("E", &HELLO), ("T", &first), ("U", &second)];
    let left = left_of(&rt, &["merge", "N", "E", "T", "U"], &files)?;
    assert!(rt; left.gives_up(7, "limit union 2000000\n"));
    Ok(())
}
