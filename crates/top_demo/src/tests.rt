//! The command over sinks in memory. The lines were worked out by another program over the same rules.
use crate::demo_command;
use br_outside::{CalmSink, MemSink};
use std::test::Fail;
use top_plan::{Finish, Halt, Object};

#[test]
fn one_function(rt: HostRuntime) -> Result<(), Fail> {
    let alloc = rt.alloc();
    let mut out = CalmSink::new(alloc);
    let outcome = demo_command(alloc, &mut out, 1).map_err(|_| Fail::from("halted"))?;
    assert_eq!(rt; outcome.finish, Finish::Done);
    assert!(rt; outcome.line.is_none());
    let line =
        b"demo 1 file 137 blocks 7 code 1310 image 8329 out 588139be 588139be steps 15 184\n";
    assert!(rt; out.written() == line.as_slice());
    Ok(())
}
