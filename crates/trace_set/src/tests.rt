//! Two traces that share an edge, and numbers that are spent.
use crate::{ADDITION_LIMIT, SetError, TraceSet, Unknown};
use br_word::Steps;
use std::test::Fail;
use trace_file::Edges;

#[test]
fn comes_and_goes(rt: HostRuntime) -> Result<(), Fail> {
    let alloc = rt.alloc();
    let mut set = TraceSet::new(alloc);
    assert_eq!(rt;
        set.add(&Edges::of_list(vec![in alloc; (0, 7), (5, 1)]?))?,
        1
    );
    assert_eq!(rt; set.add(&Edges::of_list(vec![in alloc; (0, 7)]?))?, 2);
    assert_eq!(rt; set.count(0, 7), 2);
    assert_eq!(rt; set.count(5, 1), 1);
    assert_eq!(rt; set.count(5, 2), 0);
    let mut steps = Steps::new(());
    assert!(rt; set.remove(1, &mut steps) == Ok(()));
    assert!(rt; set.remove(1, &mut steps) == Err(Unknown));
    assert_eq!(rt; set.edges()?.as_slice(), [(0, 7)].as_slice());
    Ok(())
}

#[test]
fn spends_its_numbers(rt: HostRuntime) -> Result<(), Fail> {
    let none = Edges::new(rt.alloc());
    let mut set = TraceSet::new(rt.alloc());
    let mut steps = Steps::new(());
    for number in 1..ADDITION_LIMIT + 1 {
        assert!(rt; set.add(&none) == Ok(number));
        assert!(rt; set.remove(number, &mut steps) == Ok(()));
    }
    assert!(rt; set.add(&none) == Err(SetError::Spent));
    Ok(())
}
