use crate::{Form, Transfer, form_of, is_label, put_form, size_of_form};
use std::alloc::AllocError;

/// An address, and that of the label that is gone to.
const AT: u32 = 0x0804_8054;

/// A line and the bytes that it gives, where its label stands at [`AT`] too.
const ROWS: [(&str, &[u8]); 19] = [
    ("", &[]),
    ("a:", &[]),
    ("_1:", &[]),
    ("byte:", &[]),
    ("dword:", &[]),
    ("  nop", &[0x90]),
    ("  mov eax, 0x00000004", &[0xb8, 4, 0, 0, 0]),
    ("  mov ecx, 0x08048076", &[0xb9, 0x76, 0x80, 4, 8]),
    ("  int 0x80", &[0xcd, 0x80]),
    ("  byte 68690a", &[0x68, 0x69, 0x0a]),
    ("  byte ff", &[0xff]),
    ("  jmp a", &[0xe9, 0xfb, 0xff, 0xff, 0xff]),
    ("  jmp byte", &[0xe9, 0xfb, 0xff, 0xff, 0xff]),
    ("  call _1", &[0xe8, 0xfb, 0xff, 0xff, 0xff]),
    ("  jo a", &[0x0f, 0x80, 0xfa, 0xff, 0xff, 0xff]),
    ("  jg a", &[0x0f, 0x8f, 0xfa, 0xff, 0xff, 0xff]),
    ("  jmp 0x08048054", &[0xe9, 0xfb, 0xff, 0xff, 0xff]),
    ("  jmp eax", &[0xff, 0xe0]),
    ("  ret", &[0xc3]),
];

/// Lines of no form.
const NONE: [&str; 46] = [
    " ",
    "  ",
    "eax:",
    "ax:",
    "al:",
    "A:",
    "1a:",
    ":",
    "a: ",
    " a:",
    "a::",
    "a-b:",
    "a",
    "\tnop",
    " nop",
    "   nop",
    "nop",
    "  nop ",
    "  nop\r",
    "  byte 6",
    "  byte 6A",
    "  byte 68 69",
    "  byte 0x68",
    "  byte ",
    "  byte",
    "  byte  68",
    "  byte 686",
    "  jmp 8048054",
    "  jmp al",
    "  jmp esp:",
    "  jmp  a",
    "  jmp a ",
    "  jmp 1",
    "  jmp",
    "  jz A",
    "  inc a",
    "  jc a",
    "  push 0x01",
    "  ret 0x0000",
    "  mov eax, [eax]",
    "  lea eax, dword [eax]",
    "  mov eax, dword [eax*3]",
    "  mov eax, dword [esp*1]",
    "  mov  eax, 0x00000001",
    "  mov eax, 4",
    "  mov eax, a",
];

/// The bytes that a line gives, and how many its form says, where it has one.
fn bytes_of(rt: &HostRuntime, line: &[u8]) -> Result<Option<(Vec<u8>, u32)>, AllocError> {
    let Some(form) = form_of(line, AT) else {
        return Ok(None);
    };
    let mut out = Vec::new(rt.alloc());
    put_form(&mut out, &form, AT, AT)?;
    Ok(Some((out, size_of_form(&form))))
}

/// So many times a character, with text before and behind it.
fn repeated(
    rt: &HostRuntime,
    front: &str,
    c: u8,
    count: usize,
    behind: &str,
) -> Result<Vec<u8>, AllocError> {
    let mut line = front.as_bytes().to_vec(rt.alloc())?;
    for _ in 0..count {
        line.push(c)?;
    }
    line.extend_from_slice(behind.as_bytes())?;
    Ok(line)
}

#[test]
fn gives_the_bytes_of_each_form(rt: HostRuntime) -> Result<(), AllocError> {
    for (line, bytes) in ROWS {
        let (found, size) = bytes_of(&rt, line.as_bytes())?.expect(&rt, "a form");
        assert_eq!(rt; found.as_slice(), bytes, "{line}");
        assert_eq!(rt; size as usize, bytes.len(), "{line}");
    }
    Ok(())
}

#[test]
fn finds_no_other_form(rt: HostRuntime) {
    for line in NONE {
        assert!(rt; form_of(line.as_bytes(), AT).is_none(), "{line}");
    }
    assert!(rt; form_of(b"\x80:", AT).is_none());
    assert!(rt; form_of(b"  nop\x80", AT).is_none());
    assert!(rt; form_of(b"  jmp a\x80", AT).is_none());
}

#[test]
fn keeps_the_limits_of_a_line(rt: HostRuntime) -> Result<(), AllocError> {
    let label = repeated(&rt, "", b'a', 64, ":")?;
    assert!(rt; form_of(&label, AT).is_some());
    let label = repeated(&rt, "", b'a', 65, ":")?;
    assert!(rt; form_of(&label, AT).is_none());
    let bytes = repeated(&rt, "  byte ", b'0', 128, "")?;
    assert!(rt; form_of(&bytes, AT).is_some());
    let bytes = repeated(&rt, "  byte ", b'0', 130, "")?;
    assert!(rt; form_of(&bytes, AT).is_none());
    Ok(())
}

#[test]
fn tells_labels(rt: HostRuntime) {
    for label in ["a", "_", "z9", "eaxx", "e", "word", "mov"] {
        assert!(rt; is_label(label.as_bytes()), "{label}");
    }
    for other in ["", "0a", "esp", "di", "bh", "a b", "a.b"] {
        assert!(rt; !is_label(other.as_bytes()), "{other}");
    }
}

#[test]
fn names_the_label_that_is_gone_to(rt: HostRuntime) {
    let Some(Form::Goes(kind, label)) = form_of(b"  jnz far_1", AT) else {
        panic!(rt; "no transfer");
    };
    assert_eq!(rt; kind, Transfer::Jcc(5));
    assert_eq!(rt; label, b"far_1".as_slice());
}
