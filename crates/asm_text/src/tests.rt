//! Sources and what they give, as the definition of a source says by hand.
ghost use Rattle.std.specs.Prelude.{◌≤◌, length};
ghost use Rattle.asm_text.specs.declared.limits.TheConstants.{SOURCE_LIMIT};

use crate::{AsmError, assemble};
use std::alloc::Global;
use std::test::Fail;

/// The program of the first use, and its file.
const HELLO: &[u8] = b"  mov eax, 0x00000004
  mov ebx, 0x00000001
  mov ecx, 0x08048076
  mov edx, 0x00000003
  int 0x80
  mov eax, 0x00000001
  mov ebx, 0x00000000
  int 0x80
  byte 68690a
";

const HELLO_CODE: [u8; 37] = [
    0xB8, 4, 0, 0, 0, 0xBB, 1, 0, 0, 0, 0xB9, 0x76, 0x80, 4, 8, 0xBA, 3, 0, 0, 0, 0xCD, 0x80, 0xB8,
    1, 0, 0, 0, 0xBB, 0, 0, 0, 0, 0xCD, 0x80, 0x68, 0x69, 0x0A,
];

/// What stands behind the headers of a file.
fn code(file: &Vec<u8>) -> &[u8] {
    if file.len() > 84 { &file[84..] } else { &[] }
}

/// What a source is refused with, or none.
fn refusal(alloc: Global, source: &[u8]) -> (u8, u32)
    requires { length source.now ≤ SOURCE_LIMIT }
{
    match assemble(alloc, source) {
        Ok(_) => (0, 0),
        Err(AsmError::Refused { number, line }) => (number, line),
        Err(AsmError::Memory) => (255, 0),
    }
}

#[test]
fn a_program(rt: HostRuntime) -> Result<(), Fail> {
    let file = assemble(rt.alloc(), HELLO)?;
    assert_eq!(rt; file.len(), 121);
    assert_eq!(rt; file.get(68).copied(), Some(121));
    assert!(rt; code(&file) == HELLO_CODE.as_slice());
    Ok(())
}

#[test]
fn labels(rt: HostRuntime) -> Result<(), Fail> {
    let alloc = rt.alloc();
    let file = assemble(alloc, b"a:\n  jmp a\n")?;
    assert!(rt; code(&file) == [0xE9, 0xFB, 0xFF, 0xFF, 0xFF].as_slice());
    let file = assemble(alloc, b"  jo a\na:\n")?;
    assert!(rt; code(&file) == [0x0F, 0x80, 0, 0, 0, 0].as_slice());
    let file = assemble(alloc, b"byte:\n  call byte")?;
    assert!(rt; code(&file) == [0xE8, 0xFB, 0xFF, 0xFF, 0xFF].as_slice());
    // the last label stands behind the last byte; empty lines give nothing
    let file = assemble(alloc, b"\n  jmp dword\n  nop\n\ndword:")?;
    assert!(rt; code(&file) == [0xE9, 1, 0, 0, 0, 0x90].as_slice());
    Ok(())
}

#[test]
fn no_lf_at_the_end(rt: HostRuntime) -> Result<(), Fail> {
    let file = assemble(rt.alloc(), b"  nop")?;
    assert_eq!(rt; file.len(), 85);
    Ok(())
}

#[test]
fn refusals(rt: HostRuntime) {
    let alloc = rt.alloc();
    assert_eq!(rt; refusal(alloc, b"a:\n  nop\na:\n"), (42, 3));
    assert_eq!(rt; refusal(alloc, b"a:\na:\n  foo\n"), (42, 2));
    assert_eq!(rt; refusal(alloc, b"a:\n  foo\na:\n"), (41, 2));
    assert_eq!(rt; refusal(alloc, b"  jmp b"), (43, 1));
    assert_eq!(rt; refusal(alloc, b"\n  jz c\n  jmp b\nc:"), (43, 3));
    assert_eq!(rt; refusal(alloc, b"  jmp b\n  foo\n"), (41, 2));
    assert_eq!(rt; refusal(alloc, b"  nop\n\n\x80"), (41, 3));
    assert_eq!(rt; refusal(alloc, b""), (44, 0));
    assert_eq!(rt; refusal(alloc, b"\n\n\n"), (44, 0));
    assert_eq!(rt; refusal(alloc, b"a:"), (44, 0));
}

#[test]
fn lines_of_no_form(rt: HostRuntime) {
    let lines: [&[u8]; 21] = [
        b"  mov eax, 4",
        b"eax:",
        b"A:",
        b"1a:",
        b":",
        b"a: ",
        b"\t nop",
        b"  nop ",
        b"  nop\r\n",
        b"  byte 6",
        b"  byte 6A",
        b"  byte 68 69",
        b"  jmp 8048054",
        b"  jmp al",
        b"  push 0x01",
        b"  ret 0x0000",
        b"  mov eax, [eax]",
        b"  lea eax, dword [eax]",
        b"  lea eax, [eax*3]",
        b"  lea eax, [esp*1]",
        b"  mov  eax, 0x00000001",
    ];
    for line in lines {
        assert_eq!(rt; refusal(rt.alloc(), line), (41, 1));
    }
}
