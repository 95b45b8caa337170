//! The layout of a written file. The expected numbers were worked out by hand.
use crate::write_joined;
use br_word::Perms;
use elf_read::{Bytes, Reach, Segment, read_elf};
use std::process::Abort;
use std::test::Fail;

const CODE: Perms = Perms {
    read: true,
    write: false,
    exec: true,
};

const DATA: Perms = Perms {
    read: true,
    write: true,
    exec: false,
};

#[test]
fn lays_out_a_file(rt: HostRuntime) {
    let code = vec![in rt.alloc(); 0xe9, 0x4f, 0x80, 0x04, 0x07].expect(&rt, "memory");
    let rest = vec![in rt.alloc(); 0x7f; 121].expect(&rt, "memory");
    let own = [
        Segment {
            start: 0x01000000,
            size: 5,
            perms: CODE,
            bytes: Bytes::of(code),
        },
        Segment {
            start: 0x07000000,
            size: 65536,
            perms: DATA,
            bytes: Bytes::of(Vec::new(rt.alloc())),
        },
    ];
    let original = [Segment {
        start: 0x08048000,
        size: 121,
        perms: CODE,
        bytes: Bytes::of(rest),
    }];
    let file = write_joined(rt.alloc(), &own, &original, 0x01000000).expect(&rt, "memory");
    assert_eq!(rt; file.len(), 8313);
    assert_eq!(rt; file[4096], 0xe9);
    assert_eq!(rt; file[4101], 0);
    assert_eq!(rt; file[8192], 0x7f);
    assert_eq!(rt; file[56], 0);
    assert_eq!(rt; file[57], 0x10);
    let exe = read_elf(rt.alloc(), file.as_slice(), Reach::Guest).expect(&rt, "accepted");
    assert_eq!(rt; exe.segments.len(), 3);
    assert_eq!(rt; exe.brk_start, 0x08049000);
}
