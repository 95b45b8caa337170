//! Every call of every command fails once: the answer names the object, and what was done is a front part of the whole.
use super::outcome::{Outcome, run_over};
use super::traces::TRACE;
use super::{Failing, HELLO, NONE, with_code};
use std::test::Fail;

/// Reads 3 bytes, writes them to 1, reads 3 more, writes these to 2 and to 1, and exits with 0.
pub const ECHO: [u8; 79] = [
    0xb8, 3, 0, 0, 0, 0xbb, 0, 0, 0, 0, 0x89, 0xe1, 0xba, 3, 0, 0, 0, 0xcd, 0x80, // read
    0xb8, 4, 0, 0, 0, 0xbb, 1, 0, 0, 0, 0xcd, 0x80, // write
    0xb8, 3, 0, 0, 0, 0xbb, 0, 0, 0, 0, 0xcd, 0x80, // read
    0xb8, 4, 0, 0, 0, 0xbb, 2, 0, 0, 0, 0xcd, 0x80, // write
    0xb8, 4, 0, 0, 0, 0xbb, 1, 0, 0, 0, 0xcd, 0x80, // write
    0xb8, 1, 0, 0, 0, 0xbb, 0, 0, 0, 0, 0xcd, 0x80, // exit
];

/// An object of the outside.
#[derive(Clone, Copy)]
enum Object {
    Shelf,
    Input,
    Output,
    Report,
}

const OBJECTS: [(Object, &[u8]); 4] = [
    (Object::Shelf, b"outside shelf\n"),
    (Object::Input, b"outside input\n"),
    (Object::Output, b"outside output\n"),
    (Object::Report, b"outside report\n"),
];

/// A command with its input, the status and the report of the whole of it, the names that it stores in order, and how many calls it
/// makes of shelf, input, output and report.
#[derive(Clone, Copy)]
struct Stated<'a> {
    words: &'a [&'a str],
    input: &'a [u8],
    status: u8,
    report: &'a [u8],
    stores: &'a [&'a str],
    calls: [u32; 4],
}

/// The calls of one object with these numbers fail.
fn of_object<'a>(object: Object, numbers: &'a [u32]) -> Failing<'a> {
    match object {
        Object::Shelf => Failing {
            shelf: numbers,
            ..NONE
        },
        Object::Input => Failing {
            input: numbers,
            ..NONE
        },
        Object::Output => Failing {
            output: numbers,
            ..NONE
        },
        Object::Report => Failing {
            report: numbers,
            ..NONE
        },
    }
}

/// How many calls the whole command makes of an object.
fn calls_of(stated: &Stated<'_>, object: Object) -> u32 {
    match object {
        Object::Shelf => stated.calls[0],
        Object::Input => stated.calls[1],
        Object::Output => stated.calls[2],
        Object::Report => stated.calls[3],
    }
}

/// Whether what one left is a front part of what the whole left: the names that were stored are the first ones, what was printed is
/// how the whole begins, and of the input at most as much was taken.
fn is_front(left: &Outcome, whole: &Outcome, stores: &[&str]) -> bool {
    let mut ended = false;
    for name in stores {
        let has = left.has(name);
        if has && (ended || !left.agrees(name, whole, name)) {
            return false;
        }
        ended = !has;
    }
    whole.printed.as_slice().starts_with(&left.printed)
        && left.left.as_slice().ends_with(&whole.left)
}

/// Whether the report is how the whole one begins, and then this line.
fn names(report: &[u8], whole: &[u8], line: &[u8]) -> bool {
    match report.strip_suffix(line) {
        Some(before) => {
            whole.starts_with(before) && (before.len() < whole.len() || whole.is_empty())
        }
        None => false,
    }
}

/// Whether all is as the whole left it.
fn is_whole(left: &Outcome, whole: &Outcome, stores: &[&str]) -> bool {
    for name in stores {
        if !left.agrees(name, whole, name) {
            return false;
        }
    }
    left.status == whole.status
        && left.report.as_slice() == whole.report.as_slice()
        && left.printed.as_slice() == whole.printed.as_slice()
        && left.left.as_slice() == whole.left.as_slice()
}

/// Fails each call of one object in turn, and one past the last.
fn fails_in_turn(
    rt: &HostRuntime,
    stated: &Stated<'_>,
    files: &[(&str, &[u8])],
    whole: &Outcome,
    object: Object,
    line: &[u8],
) -> Result<bool, Fail> {
    let calls = calls_of(stated, object);
    for number in 1..=calls {
        let failing = [number];
        let left = run_over(
            rt,
            stated.words,
            files,
            stated.input,
            of_object(object, &failing),
        )?;
        // the last line of a report that fails is not told
        let last = matches!(object, Object::Report) && number == calls;
        let told = if last {
            left.report.len() < whole.report.len()
                && whole.report.as_slice().starts_with(&left.report)
        } else {
            names(&left.report, &whole.report, line)
        };
        if left.status != 3
            || !told
            || !is_front(&left, whole, stated.stores)
            || !left.keeps(files)
        {
            return Ok(false);
        }
    }
    let failing = [calls.saturating_add(1)];
    let left = run_over(
        rt,
        stated.words,
        files,
        stated.input,
        of_object(object, &failing),
    )?;
    Ok(is_whole(&left, whole, stated.stores) && left.keeps(files))
}

/// Whether the command does the whole of what is stated, and a front part of it where a call fails.
fn stands(rt: &HostRuntime, stated: &Stated<'_>, files: &[(&str, &[u8])]) -> Result<bool, Fail> {
    let whole = run_over(rt, stated.words, files, stated.input, NONE)?;
    let mut good = whole.status == stated.status && whole.report.as_slice() == stated.report;
    for name in stated.stores {
        good = good && whole.has(name);
    }
    for (object, line) in OBJECTS {
        good = good && fails_in_turn(rt, stated, files, &whole, object, line)?;
    }
    Ok(good)
}

/// How many of the commands stand, before the first that does not, over these files: `HELLO` as `E` with its trace as `T` and `U`,
/// `ECHO` as `G`, a source as `S`.
fn standing(rt: &HostRuntime, commands: &[Stated<'_>]) -> Result<usize, Fail> {
    let guest = with_code(rt, &ECHO)?;
    let files: [(&str, &[u8]); 5] = [
        ("E", &HELLO),
        ("T", &TRACE),
        ("U", &TRACE),
        ("G", guest.as_slice()),
        ("S", b"a:\n  jmp a\n"),
    ];
    for (number, stated) in commands.iter().enumerate() {
        if !stands(rt, stated, &files)? {
            return Ok(number);
        }
    }
    Ok(commands.len())
}

#[test]
fn builds_and_unions(rt: HostRuntime) -> Result<(), Fail> {
    let commands = [
        Stated {
            words: &["build", "N", "E", "T", "U"],
            input: b"",
            status: 0,
            report: b"built 5 795 8313\n",
            stores: &["N"],
            calls: [4, 0, 0, 1],
        },
        Stated {
            words: &["merge", "N", "E", "T", "U"],
            input: b"",
            status: 0,
            report: b"merged 1\n",
            stores: &["N"],
            calls: [4, 0, 0, 1],
        },
    ];
    assert_eq!(rt; standing(&rt, &commands)?, commands.len());
    Ok(())
}

#[test]
fn listings(rt: HostRuntime) -> Result<(), Fail> {
    let commands = [
        Stated {
            words: &["show", "E", "T"],
            input: b"",
            status: 0,
            report: b"shown 5\n",
            stores: &[],
            calls: [2, 0, 1, 1],
        },
        Stated {
            words: &["show", "E"],
            input: b"",
            status: 0,
            report: b"shown 0\n",
            stores: &[],
            calls: [1, 0, 0, 1],
        },
    ];
    assert_eq!(rt; standing(&rt, &commands)?, commands.len());
    Ok(())
}

#[test]
fn refusals(rt: HostRuntime) -> Result<(), Fail> {
    let commands = [
        Stated {
            words: &["build", "N", "T"],
            input: b"",
            status: 2,
            report: b"refused word 2 2 0\n",
            stores: &[],
            calls: [1, 0, 0, 1],
        },
        Stated {
            words: &["build", "N"],
            input: b"",
            status: 1,
            report: b"usage 2\n",
            stores: &[],
            calls: [0, 0, 0, 1],
        },
    ];
    assert_eq!(rt; standing(&rt, &commands)?, commands.len());
    Ok(())
}

#[test]
fn runs_and_traces(rt: HostRuntime) -> Result<(), Fail> {
    let commands = [
        Stated {
            words: &["run", "G"],
            input: b"abcdefgh",
            status: 0,
            report: b"defexit 0 steps 20 undefined 0\n",
            stores: &[],
            calls: [1, 2, 2, 2],
        },
        Stated {
            words: &["run", "--steps", "16", "G"],
            input: b"abcdefgh",
            status: 6,
            report: b"defbudget steps 16 undefined 0\n",
            stores: &[],
            calls: [1, 2, 1, 2],
        },
        Stated {
            words: &["trace", "N", "G"],
            input: b"abcdefgh",
            status: 0,
            report: b"defexit 0 steps 20 undefined 0 edges 1\n",
            stores: &["N"],
            calls: [2, 2, 2, 2],
        },
        Stated {
            words: &["trace", "--steps", "7", "N", "G"],
            input: b"abcdefgh",
            status: 6,
            report: b"budget steps 7 undefined 0 edges 1\n",
            stores: &["N"],
            calls: [2, 1, 0, 1],
        },
    ];
    assert_eq!(rt; standing(&rt, &commands)?, commands.len());
    Ok(())
}

#[test]
fn sessions(rt: HostRuntime) -> Result<(), Fail> {
    let commands = [
        Stated {
            words: &["session", "E"],
            input: b"add T\nemit A\nremove 1\nemit B\nadd U\nemit C",
            status: 0,
            report: b"lines 6\n",
            stores: &["A", "B", "C"],
            calls: [6, 3, 6, 1],
        },
        Stated {
            words: &["session", "E"],
            input: b"emit A\nadd E\nemit B\n",
            status: 2,
            report: b"refused line 2 21 0\n",
            stores: &["A"],
            calls: [3, 1, 1, 1],
        },
    ];
    assert_eq!(rt; standing(&rt, &commands)?, commands.len());
    Ok(())
}

#[test]
fn sources_and_demonstrations(rt: HostRuntime) -> Result<(), Fail> {
    let commands = [
        Stated {
            words: &["asm", "N", "S"],
            input: b"",
            status: 0,
            report: b"assembled 89\n",
            stores: &["N"],
            calls: [2, 0, 0, 1],
        },
        Stated {
            words: &["asm", "N", "E"],
            input: b"",
            status: 2,
            report: b"refused word 2 41 1\n",
            stores: &[],
            calls: [1, 0, 0, 1],
        },
        Stated {
            words: &["demo", "1"],
            input: b"",
            status: 0,
            report: b"",
            stores: &[],
            calls: [0, 0, 1, 0],
        },
    ];
    assert_eq!(rt; standing(&rt, &commands)?, commands.len());
    Ok(())
}
