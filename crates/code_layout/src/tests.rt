//! Where addresses lie, and code that is linked so. The numbers were worked out by hand.
use crate::{CODE_START, Layout, Places};
use std::test::Fail;

#[test]
fn an_address_lies_where_its_pair_says(rt: HostRuntime) -> Result<(), Fail> {
    let list = vec![in rt.alloc(); (0x0804_8054, 1), (0x0804_8056, 2), (0xffff_ffff, 3)]?;
    let out = Places::of(list);
    assert_eq!(rt; out.place_of(0x0804_8054), 1);
    assert_eq!(rt; out.place_of(0x0804_8056), 2);
    assert_eq!(rt; out.place_of(0xffff_ffff), 3);
    // below the first, between two and above one
    assert_eq!(rt; out.place_of(0), 0);
    assert_eq!(rt; out.place_of(0x0804_8055), 0x0804_8055);
    assert_eq!(rt; out.place_of(0xffff_fffe), 0xffff_fffe);
    Ok(())
}

#[test]
fn without_pairs_each_lies_at_itself(rt: HostRuntime) {
    let out = Places::none(rt.alloc());
    assert_eq!(rt; out.place_of(0x0804_8054), 0x0804_8054);
}

#[test]
fn a_jump_to_the_original_goes_to_its_place(rt: HostRuntime) -> Result<(), Fail> {
    // jmp 08048054, and the same to 16 bytes behind it
    let layout: Layout<()> = Layout::of(rt.alloc(), 0x0804_8054, false)?;
    let code = layout.code_with(&Places::none(rt.alloc()));
    assert!(rt; code.as_slice() == [0xe9, 0x4f, 0x80, 0x04, 0x07].as_slice());

    let layout: Layout<()> = Layout::of(rt.alloc(), 0x0804_8054, false)?;
    let list = vec![in rt.alloc(); (0x0804_8054, CODE_START + 21)]?;
    let code = layout.code_with(&Places::of(list));
    assert!(rt; code.as_slice() == [0xe9, 16, 0, 0, 0].as_slice());
    Ok(())
}
