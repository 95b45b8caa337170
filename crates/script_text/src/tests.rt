//! Lines of each form, and lines that are refused.
use crate::{BadLine, Order, read_line};
use std::test::Fail;

#[test]
fn forms(rt: HostRuntime) {
    assert!(rt; read_line(b"") == Ok(Order::Nothing));
    assert!(rt; read_line(b"add T1") == Ok(Order::Add("T1")));
    assert!(rt; read_line(b"add  a b") == Ok(Order::Add(" a b")));
    assert!(rt; read_line(b"emit N") == Ok(Order::Emit("N")));
    assert!(rt; read_line(b"emit \xc3\xa9") == Ok(Order::Emit("\u{e9}")));
    assert!(rt; read_line(b"remove 1") == Ok(Order::Remove(1)));
    assert!(rt; read_line(b"remove 000000012") == Ok(Order::Remove(12)));
    assert!(rt; read_line(b"remove 999999999") == Ok(Order::Remove(999999999)));
    assert!(rt; read_line(b"remove 0") == Ok(Order::Remove(0)));
}

#[test]
fn refused(rt: HostRuntime) {
    assert!(rt; read_line(b"drop 1") == Err(BadLine));
    assert!(rt; read_line(b" ") == Err(BadLine));
    assert!(rt; read_line(b"add") == Err(BadLine));
    assert!(rt; read_line(b"add ") == Err(BadLine));
    assert!(rt; read_line(b"Add T") == Err(BadLine));
    assert!(rt; read_line(b"add\tT") == Err(BadLine));
    assert!(rt; read_line(b"emit \xff") == Err(BadLine));
    assert!(rt; read_line(b"remove") == Err(BadLine));
    assert!(rt; read_line(b"remove ") == Err(BadLine));
    assert!(rt; read_line(b"remove -1") == Err(BadLine));
    assert!(rt; read_line(b"remove 1 ") == Err(BadLine));
    assert!(rt; read_line(b"remove 1234567890") == Err(BadLine));
}

/// Whether a line is refused.
fn is_bad(line: &[u8]) -> bool {
    read_line(line) == Err(BadLine)
}

#[test]
fn long_names(rt: HostRuntime) -> Result<(), Fail> {
    let mut line = Vec::new(rt.alloc());
    line.extend_from_slice(b"add ")?;
    for _ in 0..4096 {
        line.push(b'x')?;
    }
    assert!(rt; !is_bad(line.as_slice()));
    line.push(b'x')?;
    assert!(rt; is_bad(line.as_slice()));
    Ok(())
}
