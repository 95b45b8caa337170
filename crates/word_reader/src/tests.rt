//! Words that are stated elsewhere, and one command of each kind.
use crate::{Command, first_name, read_words};
use std::test::Fail;

/// The position of the first wrong word, or 9999 where the words are a command.
fn wrong(rt: &HostRuntime, text: &[&str]) -> Result<u32, Fail> {
    let mut words = Vec::new(rt.alloc());
    for word in text {
        words.push(String::from_str(rt.alloc(), word)?)?;
    }
    match read_words(&words) {
        Ok(_) => Ok(9999),
        Err(usage) => Ok(usage.at),
    }
}

#[test]
fn stated_words(rt: HostRuntime) -> Result<(), Fail> {
    assert_eq!(rt; wrong(&rt, &[])?, 0);
    assert_eq!(rt; wrong(&rt, &["build", "N"])?, 2);
    assert_eq!(rt; wrong(&rt, &["run", "--steps", "x", "E"])?, 2);
    assert_eq!(rt;
        wrong(&rt, &["run", "--steps", "1234567890123456789", "E"])?,
        2
    );
    assert_eq!(rt; wrong(&rt, &["demo", "0"])?, 1);
    assert_eq!(rt; wrong(&rt, &["demo", "1001"])?, 1);
    assert_eq!(rt; wrong(&rt, &["session", "E", "F"])?, 2);
    assert_eq!(rt; wrong(&rt, &["build", "", "E"])?, 1);
    assert_eq!(rt; wrong(&rt, &["asm", "N"])?, 2);
    assert_eq!(rt; wrong(&rt, &["asm", "N", ""])?, 2);
    assert_eq!(rt; wrong(&rt, &["asm", "N", "a", "b"])?, 3);
    assert_eq!(rt; wrong(&rt, &["run", "E", "", "--steps"])?, 9999);
    assert_eq!(rt; wrong(&rt, &["show", "E", "T", "T"])?, 9999);
    assert_eq!(rt; wrong(&rt, &["merge", "T", "E"])?, 9999);
    assert_eq!(rt; wrong(&rt, &["session", "E"])?, 9999);
    assert_eq!(rt; wrong(&rt, &["demo", "1000"])?, 9999);
    assert_eq!(rt; wrong(&rt, &["asm", "N", "a"])?, 9999);
    Ok(())
}

#[test]
fn steps_are_read(rt: HostRuntime) -> Result<(), Fail> {
    let mut words = Vec::new(rt.alloc());
    for word in ["trace", "--steps", "17", "T", "E", "a"] {
        words.push(String::from_str(rt.alloc(), word)?)?;
    }
    assert_eq!(rt; first_name(&words), 3);
    match read_words(&words) {
        Ok(Command::Trace { steps, t, e, args }) => {
            assert_eq!(rt; steps, 17);
            assert_eq!(rt; t, "T");
            assert_eq!(rt; e, "E");
            assert_eq!(rt; args.len(), 1);
        }
        _ => return Err("no trace".into()),
    }
    Ok(())
}
