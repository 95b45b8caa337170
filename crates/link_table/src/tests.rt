//! A table of one row and one column, worked by hand, and a full one.
ghost use Rattle.std.specs.Prelude.{◌≡◌, ◌<◌, true, false, length, slice_index_or};

use crate::{LIMIT, LinkError, Links};
use std::test::Fail;

#[test]
fn names_in_turn(rt: HostRuntime) -> Result<(), Fail> {
    let mut links = Links::new(rt.alloc());
    assert_eq!(rt; links.fresh_row()?, 0);
    assert_eq!(rt; links.fresh_row()?, 1);
    assert_eq!(rt; links.fresh_column()?, 0);
    Ok(())
}

#[test]
fn a_node_in_its_row(rt: HostRuntime) -> Result<(), Fail> {
    let alloc = rt.alloc();
    let mut links = Links::new(alloc);
    let row = links.fresh_row()?;
    let column = links.fresh_column()?;
    let node = links.add(row, column, 7)?;
    let across: Vec<(u32, u64)> = links.row(row).collect(alloc)?;
    assert_eq!(rt; across.as_slice(), [(node, 7)].as_slice());
    Ok(())
}

/// Adds nodes to a row and a column until one is refused, and answers how many there are.
fn fill(links: &mut Links, row: u32, column: u32) -> (u32, LinkError)
    requires row { slice_index_or links.old.alive row false ≡ true }
    requires column { column < length links.old.columns }
{
    let mut count = 0;
    while count <= LIMIT {
        match links.add(row, column, 0) {
            Ok(_) => count += 1,
            Err(error) => return (count, error),
        }
    }
    (count, LinkError::Memory)
}

#[test]
fn full_at_the_limit(rt: HostRuntime) -> Result<(), Fail> {
    let mut links = Links::new(rt.alloc());
    let row = links.fresh_row()?;
    let column = links.fresh_column()?;
    assert!(rt; fill(&mut links, row, column) == (LIMIT, LinkError::Full));
    Ok(())
}
