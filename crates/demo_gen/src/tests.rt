//! The smallest demonstration, worked out by hand.
use crate::demo_exe;
use std::test::Fail;

#[test]
fn one_function(rt: HostRuntime) -> Result<(), Fail> {
    let file = demo_exe(rt.alloc(), 1)?;
    assert_eq!(rt; file.len(), 137);
    let code = [
        0xB8, 1, 0, 0, 0, 0xE8, 0x20, 0, 0, 0, 0x50, 0xB8, 4, 0, 0, 0, 0xBB, 1, 0, 0, 0, 0x89,
        0xE1, 0xBA, 4, 0, 0, 0, 0xCD, 0x80, 0xB8, 1, 0, 0, 0, 0xBB, 0, 0, 0, 0, 0xCD, 0x80, 0x81,
        0xC0, 0xA6, 0x7E, 0xC6, 0x41, 0x78, 0x02, 0xF7, 0xD0, 0xC3,
    ];
    assert!(rt; &file[84..] == code.as_slice());
    assert_eq!(rt; file[68], 137);
    assert_eq!(rt; file[72], 137);
    Ok(())
}
