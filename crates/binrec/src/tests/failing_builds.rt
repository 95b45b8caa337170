//! `build` over objects of which some calls fail, and over several causes at once.
use super::outcome::run_over;
use super::traces::TRACE;
use super::{Failing, HELLO, NONE};
use sha2::{Digest, Sha256};
use std::alloc::{AllocError, Global};
use std::test::Fail;

const WORDS: [&str; 5] = ["build", "N", "E", "T", "U"];

/// `HELLO` as `E`, and its trace as `T` and `U`.
const FILES: [(&str, &[u8]); 3] = [("E", &HELLO), ("T", &TRACE), ("U", &TRACE)];

/// The same pair twice: refused with 24 at the second one.
fn unordered(alloc: Global) -> Result<Vec<u8>, AllocError> {
    let mut file = TRACE[..40].to_vec(alloc)?;
    file.extend_from_slice(&[2, 0, 0, 0])?;
    file.extend_from_slice(&TRACE[44..])?;
    file.extend_from_slice(&TRACE[44..])?;
    Ok(file)
}

/// Calls of the shelf with these numbers fail.
fn shelf(numbers: &[u32]) -> Failing<'_> {
    Failing {
        shelf: numbers,
        ..NONE
    }
}

#[test]
fn a_fetch_or_the_store_fails(rt: HostRuntime) -> Result<(), Fail> {
    for number in 1..=4u32 {
        let left = run_over(&rt, &WORDS, &FILES, b"", shelf(&[number]))?;
        assert!(rt; left.says(3, "outside shelf\n", b""), "{}", number);
        assert!(rt; left.keeps(&FILES) && !left.has("N"), "{}", number);
    }
    let left = run_over(&rt, &WORDS, &FILES, b"", shelf(&[5]))?;
    assert!(rt; left.says(0, "built 5 795 8313\n", b""));
    Ok(())
}

#[test]
fn the_store_over_another_name_fails(rt: HostRuntime) -> Result<(), Fail> {
    let words = ["build", "U", "E", "T", "U"];
    let left = run_over(&rt, &words, &FILES, b"", shelf(&[4]))?;
    assert!(rt; left.says(3, "outside shelf\n", b""));
    assert!(rt; left.holds("E", &HELLO) && left.holds("T", &TRACE) && !left.has("N"));
    Ok(())
}

#[test]
fn the_report_fails_after_the_store(rt: HostRuntime) -> Result<(), Fail> {
    let whole = run_over(&rt, &WORDS, &FILES, b"", NONE)?;
    let report = Failing {
        report: &[1],
        ..NONE
    };
    let left = run_over(&rt, &WORDS, &FILES, b"", report)?;
    assert!(rt; left.says(3, "", b""));
    assert!(rt; left.has("N") && left.agrees("N", &whole, "N") && left.keeps(&FILES));
    Ok(())
}

#[test]
fn a_refused_trace_before_one_that_is_absent(rt: HostRuntime) -> Result<(), Fail> {
    let twice = unordered(rt.alloc())?;
    let files: [(&str, &[u8]); 2] = [("E", &HELLO), ("T", twice.as_slice())];
    let line = "refused word 3 24 52\n";
    // a third fetch would fail, by its number and by its name
    for failing in [&[3u32][..], &[]] {
        let left = run_over(&rt, &WORDS, &files, b"", shelf(failing))?;
        assert!(rt; left.says(2, line, b"") && !left.has("N"), "{}", line);
    }
    Ok(())
}

#[test]
fn a_refused_trace_before_a_graph_that_is_too_large(rt: HostRuntime) -> Result<(), Fail> {
    let alloc = rt.alloc();
    // one segment of 65625 bytes, with a RET in front, and 65537 targets of it
    let mut file = HELLO[..84].to_vec(alloc)?;
    file.push(0xc3)?;
    for _nop in 0..65540 {
        file.push(0x90)?;
    }
    for place in [68usize, 72] {
        for (offset, byte) in 65625u32.to_le_bytes().iter().enumerate() {
            if let Some(field) = file.get_mut(place.saturating_add(offset)) {
                *field = *byte;
            }
        }
    }
    let wide = wide_trace(alloc, &file)?;
    let files: [(&str, &[u8]); 3] = [
        ("E", file.as_slice()),
        ("T", wide.as_slice()),
        ("U", &TRACE),
    ];
    let left = run_over(&rt, &WORDS, &files, b"", NONE)?;
    assert!(rt; left.says(2, "refused word 4 22 8\n", b"") && !left.has("N"));
    let left = run_over(&rt, &["build", "N", "E", "T"], &files, b"", NONE)?;
    assert!(rt; left.says(7, "limit blocks 65536\n", b"") && !left.has("N"));
    Ok(())
}

/// A trace of the file with 65537 targets of its first instruction.
fn wide_trace(alloc: Global, file: &[u8]) -> Result<Vec<u8>, AllocError> {
    let mut trace = TRACE[..8].to_vec(alloc)?;
    trace.extend_from_slice(&Sha256::digest(file))?;
    trace.extend_from_slice(&65537u32.to_le_bytes())?;
    for target in 0..65537u32 {
        trace.extend_from_slice(&0x08048054u32.to_le_bytes())?;
        trace.extend_from_slice(&0x08048055u32.saturating_add(target).to_le_bytes())?;
    }
    Ok(trace)
}
