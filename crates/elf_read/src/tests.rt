//! Files that are accepted and files that are refused. The expected answers were written by hand.
ghost use Rattle.std.specs.Prelude.{◌≡◌, ◌≤◌, ◌<◌, length};
ghost use Rattle.elf_read.specs.declared.limits.TheConstants.{GUEST_FILE_LIMIT};

use crate::{ElfError, Reach, exec_bytes, in_exec, read_elf};
use byteorder::{ByteOrder, LittleEndian};
use std::process::Abort;
use std::test::Fail;

/// A program that writes `hi` and a line feed, in one segment of headers and code.
const HELLO: [u8; 121] = [
    0x7f, 0x45, 0x4c, 0x46, 1, 1, 1, 0, 0, 0, 0, 0, 0, 0, 0, 0, 2, 0, 3, 0, 1, 0, 0, 0, 0x54, 0x80,
    0x04, 0x08, 0x34, 0, 0, 0, 0, 0, 0, 0, 0, 0, 0, 0, 0x34, 0, 0x20, 0, 1, 0, 0, 0, 0, 0, 0, 0, 1,
    0, 0, 0, 0, 0, 0, 0, 0, 0x80, 0x04, 0x08, 0, 0x80, 0x04, 0x08, 0x79, 0, 0, 0, 0x79, 0, 0, 0, 5,
    0, 0, 0, 0, 0x10, 0, 0, 0xb8, 4, 0, 0, 0, 0xbb, 1, 0, 0, 0, 0xb9, 0x76, 0x80, 0x04, 0x08, 0xba,
    3, 0, 0, 0, 0xcd, 0x80, 0xb8, 1, 0, 0, 0, 0xbb, 0, 0, 0, 0, 0xcd, 0x80, 0x68, 0x69, 0x0a,
];

/// The number and the place of a refusal, (0, 0) for a file that is accepted.
fn answer(rt: &HostRuntime, bytes: &[u8], reach: Reach) -> (u8, u32)
    requires { length bytes.now ≤ GUEST_FILE_LIMIT }
{
    match read_elf(rt.alloc(), bytes, reach) {
        Ok(_) => (0, 0),
        Err(ElfError::Refused { number, place }) => (number, place),
        Err(ElfError::Memory) => (255, 0),
    }
}

/// The answer for the program above with one byte changed.
fn changed(rt: &HostRuntime, at: usize, to: u8) -> (u8, u32)
    requires { at < 121 }
{
    let mut bytes = HELLO;
    bytes[at] = to;
    answer(rt, &bytes, Reach::Original)
}

#[test]
fn reads_a_program(rt: HostRuntime) {
    let exe = read_elf(rt.alloc(), &HELLO, Reach::Guest).expect(&rt, "accepted");
    assert_eq!(rt; exe.entry, 0x08048054);
    assert_eq!(rt; exe.brk_start, 0x08049000);
    assert_eq!(rt; exe.segments.len(), 1);
    let mut code = [9; 15];
    assert_eq!(rt; exec_bytes(&exe, 0x08048076, &mut code), 3);
    assert_eq!(rt;
        code,
        [0x68, 0x69, 0x0a, 9, 9, 9, 9, 9, 9, 9, 9, 9, 9, 9, 9]
    );
    assert_eq!(rt; exec_bytes(&exe, 0x08048079, &mut code), 0);
    assert!(rt; in_exec(&exe, 0x08048000));
    assert!(rt; !in_exec(&exe, 0x08048079));
}

#[test]
fn refuses_files(rt: HostRuntime) {
    assert_eq!(rt; answer(&rt, &HELLO, Reach::Original), (0, 0));
    assert_eq!(rt; answer(&rt, &[], Reach::Original), (1, 0));
    assert_eq!(rt; answer(&rt, &HELLO[..51], Reach::Original), (1, 51));
    assert_eq!(rt; changed(&rt, 0, 0), (2, 0));
    assert_eq!(rt; changed(&rt, 20, 2), (3, 20));
    assert_eq!(rt; changed(&rt, 16, 3), (4, 16));
    assert_eq!(rt; changed(&rt, 18, 62), (5, 18));
    assert_eq!(rt; changed(&rt, 44, 3), (6, 28));
    assert_eq!(rt; changed(&rt, 76, 7), (8, 52));
    assert_eq!(rt; changed(&rt, 68, 0x7a), (9, 52));
    assert_eq!(rt; changed(&rt, 24, 0x79), (11, 24));
    assert_eq!(rt; changed(&rt, 72, 0x70), (12, 52));
}

#[test]
fn reads_a_lower_program_as_a_guest(rt: HostRuntime) {
    let mut bytes = HELLO;
    for at in [24, 60, 64] {
        bytes[at + 1] = 0xf0;
        bytes[at + 2] = 0xff;
        bytes[at + 3] = 0x07;
    }
    assert_eq!(rt; answer(&rt, &bytes, Reach::Original), (9, 52));
    assert_eq!(rt; answer(&rt, &bytes, Reach::Guest), (0, 0));
}

/// Writes the fields of a program header.
fn put(bytes: &mut [u8; 256], index: usize, fields: [u32; 8])
    requires { index < 6 }
{
    for k in 0..8 {
        LittleEndian::write_u32(&mut bytes[52 + 32 * index + 4 * k..], fields[k]);
    }
}

/// The file header of the program above, with room for six program headers.
fn file_with(count: u8) -> [u8; 256] {
    let mut bytes = [0; 256];
    bytes[..52].copy_from_slice(&HELLO[..52]);
    bytes[44] = count;
    bytes
}

#[test]
fn refuses_an_interpreter_first(rt: HostRuntime) {
    let mut bytes = file_with(2);
    put(
        &mut bytes,
        0,
        [1, 0, 0x08048000, 0x08048000, 121, 121, 7, 4096],
    );
    put(&mut bytes, 1, [3, 0, 0, 0, 0, 0, 0, 0]);
    assert_eq!(rt; answer(&rt, &bytes, Reach::Original), (7, 84));
    put(&mut bytes, 1, [1, 0, 0x08048078, 0, 0, 1, 4, 4096]);
    assert_eq!(rt; answer(&rt, &bytes, Reach::Original), (8, 52));
    put(&mut bytes, 0, [1, 0, 0x08048000, 0, 121, 121, 5, 4096]);
    assert_eq!(rt; answer(&rt, &bytes, Reach::Original), (10, 84));
    put(&mut bytes, 1, [1, 0, 0x09000000, 0, 0, 67108864, 4, 4096]);
    assert_eq!(rt; answer(&rt, &bytes, Reach::Original), (13, 84));
}

#[test]
fn reads_the_segments_of_usual_tools(rt: HostRuntime) {
    let mut bytes = file_with(6);
    put(
        &mut bytes,
        0,
        [1, 0, 0x08048000, 0x08048000, 0x40, 0x40, 4, 4096],
    );
    put(&mut bytes, 1, [1, 0x40, 0x08048040, 0, 0x30, 0x30, 5, 4096]);
    put(&mut bytes, 2, [1, 0x70, 0x0804a000, 0, 0x10, 0x10, 4, 4096]);
    put(
        &mut bytes,
        3,
        [1, 0x80, 0x0804c000, 0, 0x20, 0x1001, 6, 4096],
    );
    put(&mut bytes, 4, [4, 0, 0, 0, 0, 0, 4, 4]);
    put(&mut bytes, 5, [0x6474e551, 0, 0, 0, 0, 0, 6, 16]);
    let exe = read_elf(rt.alloc(), &bytes, Reach::Original).expect(&rt, "accepted");
    assert_eq!(rt; exe.segments.len(), 4);
    assert_eq!(rt; exe.brk_start, 0x0804e000);
}
