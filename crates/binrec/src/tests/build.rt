//! `build`.
use super::{Failing, HELLO, NONE, left_by, left_failing};
use crate::top::binrec;
use br_outside::{CalmShelf, CalmSink, CalmSource};
use std::test::Fail;

#[test]
fn builds_the_image(rt: HostRuntime) -> Result<(), Fail> {
    let left = left_by(&rt, &["build", "N", "E"], &HELLO)?;
    assert!(rt; left.says(0, "built 0 5 8313\n"));
    let Some(stored) = left.stored.as_ref() else {
        panic!(rt; "nothing is stored");
    };
    assert_eq!(rt; stored.len(), 8313);
    let Some(jump) = stored.get(4096..4101) else {
        panic!(rt; "the file is too short");
    };
    assert_eq!(rt; jump, [0xe9, 0x4f, 0x80, 0x04, 0x07].as_slice());
    let Some(original) = stored.get(8192..) else {
        panic!(rt; "the file is too short");
    };
    assert_eq!(rt; original, HELLO.as_slice());
    Ok(())
}

/// Bytes that are written over those of the executable, and the refusal.
const DAMAGES: [(usize, &[u8], &str); 15] = [
    (0, &[0], "refused word 2 2 0\n"),
    (3, &[0], "refused word 2 2 3\n"),
    (4, &[2], "refused word 2 3 4\n"),
    (20, &[0], "refused word 2 3 20\n"),
    (16, &[3], "refused word 2 4 16\n"),
    (18, &[62], "refused word 2 5 18\n"),
    (40, &[51], "refused word 2 6 40\n"),
    (42, &[31], "refused word 2 6 42\n"),
    (44, &[3], "refused word 2 6 28\n"),
    (52, &[2], "refused word 2 7 52\n"),
    (76, &[7], "refused word 2 8 52\n"),
    (60, &[0x00, 0xf0, 0xff, 0x07], "refused word 2 9 52\n"),
    (24, &[0x79], "refused word 2 11 24\n"),
    (72, &[0x78], "refused word 2 12 52\n"),
    (72, &[0x01, 0x00, 0x00, 0x04], "refused word 2 13 52\n"),
];

#[test]
fn refuses_damaged_files(rt: HostRuntime) -> Result<(), Fail> {
    let words = ["build", "N", "E"];
    assert!(rt;
        left_by(&rt, &words, &[])?.gives_up(2, "refused word 2 1 0\n"),
        "{}",
        "refused word 2 1 0\n"
    );
    assert!(rt;
        left_by(&rt, &words, &HELLO[..51])?.gives_up(2, "refused word 2 1 51\n"),
        "{}",
        "refused word 2 1 51\n"
    );
    for (at, bytes, line) in DAMAGES {
        let mut file = HELLO;
        for (offset, byte) in bytes.iter().enumerate() {
            if let Some(place) = file.get_mut(at.saturating_add(offset)) {
                *place = *byte;
            }
        }
        assert!(rt; left_by(&rt, &words, &file)?.gives_up(2, line), "{}", line);
    }
    Ok(())
}

#[test]
fn refuses_the_second_header(rt: HostRuntime) -> Result<(), Fail> {
    let mut file = HELLO;
    file[44] = 2;
    file.copy_within(52..84, 84);
    let words = ["build", "N", "E"];
    assert!(rt;
        left_by(&rt, &words, &file)?.gives_up(2, "refused word 2 10 84\n"),
        "{}",
        "refused word 2 10 84\n"
    );
    file[76] = 7;
    file[84] = 3;
    assert!(rt;
        left_by(&rt, &words, &file)?.gives_up(2, "refused word 2 7 84\n"),
        "{}",
        "refused word 2 7 84\n"
    );
    Ok(())
}

#[test]
fn names_what_failed(rt: HostRuntime) -> Result<(), Fail> {
    let words = ["build", "N", "E"];
    for (words, failing) in [
        (words, &[1u32][..]),
        (words, &[2]),
        (["build", "N", "absent"], &[]),
    ] {
        assert!(rt;
            left_failing(
                &rt,
                &words,
                &HELLO,
                Failing {
                    shelf: failing,
                    ..NONE
                }
            )?
            .gives_up(3, "outside shelf\n")
        );
    }
    let left = left_failing(
        &rt,
        &words,
        &HELLO,
        Failing {
            report: &[1],
            ..NONE
        },
    )?;
    assert!(rt; left.says(3, ""));
    assert!(rt; left.stored.is_some());
    Ok(())
}

#[test]
fn limits_the_original(rt: HostRuntime) -> Result<(), Fail> {
    let words = ["build", "N", "E"];
    let mut file = vec![in rt.alloc(); 0u8; 16777216]?;
    assert!(rt;
        left_by(&rt, &words, &file)?.gives_up(2, "refused word 2 2 0\n"),
        "{}",
        "refused word 2 2 0\n"
    );
    file.push(0)?;
    assert!(rt;
        left_by(&rt, &words, &file)?.gives_up(7, "limit file 16777216\n"),
        "{}",
        "limit file 16777216\n"
    );
    Ok(())
}

#[test]
fn works_over_calm_objects(rt: HostRuntime) -> Result<(), Fail> {
    let alloc = rt.alloc();
    let mut words = Vec::new(alloc);
    for word in ["build", "-", "-"] {
        words.push(String::from_str(alloc, word)?)?;
    }
    let mut files = Vec::new(alloc);
    files.push((String::from_str(alloc, "-")?, HELLO.to_vec(alloc)?))?;
    let mut shelf = CalmShelf::new(alloc, files);
    let mut input = CalmSource::new(Vec::new(alloc));
    let mut out = CalmSink::new(alloc);
    let mut report = CalmSink::new(alloc);
    let status = binrec(alloc, &words, &mut shelf, &mut input, &mut out, &mut report);
    assert_eq!(rt; status.0, 0);
    assert_eq!(rt; report.written(), b"built 0 5 8313\n".as_slice());
    assert_eq!(rt; shelf.get("-").map(|bytes| bytes.len()), Some(8313));
    Ok(())
}
