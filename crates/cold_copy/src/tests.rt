//! Pieces behind fragments. Their lengths were worked out by hand: CAPTURE has 101 bytes, RESTORE 118.
use crate::behind::{dispatcher, reentries};
use crate::joining::joined;
use crate::pieces::Starts;
use std::process::Abort;
use std::test::Fail;

#[test]
fn two_lists_of_places_become_one(rt: HostRuntime) -> Result<(), Fail> {
    let first = [(1, 10), (4, 40)];
    let second = [(2, 20), (3, 30), (5, 50)];
    let all = joined(rt.alloc(), &first, &second)?;
    assert_eq!(rt;
        all.as_slice(),
        [(1, 10), (2, 20), (3, 30), (4, 40), (5, 50)].as_slice()
    );
    Ok(())
}

#[test]
fn each_re_entry_is_a_capture_and_a_jump(rt: HostRuntime) -> Result<(), Fail> {
    let again = reentries(rt.alloc(), &[0x0804_8054, 0x0804_8060], 7).expect(&rt, "pieces");
    assert_eq!(rt; (again.pieces.len(), again.len), (2, 7 + 2 * 106));
    Ok(())
}

#[test]
fn the_dispatcher_knows_blocks_and_copies(rt: HostRuntime) -> Result<(), Fail> {
    let starts = Starts {
        blocks: &[0x0804_8054],
        cold: &[0x0804_8060],
    };
    // the load; two comparisons and a jump for the halves; a jump to the block; RESTORE and a jump to the copy; RESTORE and a jump by the slot
    let turn = dispatcher(rt.alloc(), &starts, 0).expect(&rt, "pieces");
    assert_eq!(rt; (turn.pieces.len(), turn.len), (1, 6 + 46 + 5 + 123 + 124));
    Ok(())
}
