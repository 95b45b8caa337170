use crate::{Line, LineError, LineReader};
use br_outside::{CalmSource, MemSource};
use std::alloc::AllocError;

#[test]
fn lines_come_in_order(rt: HostRuntime) -> Result<(), AllocError> {
    let alloc = rt.alloc();
    let mut source = CalmSource::new(b"ab\n\ncde".to_vec(alloc)?);
    let mut reader = LineReader::new();
    let mut text = Vec::new(alloc);
    for _ in 0..5 {
        match reader.next_line(alloc, &mut source, 2) {
            Ok(Line::Whole(line)) => {
                text.extend_from_slice(line.as_slice())?;
                text.push(b';')?;
            }
            Ok(Line::Long) => text.push(b'L')?,
            Ok(Line::End) => text.push(b'E')?,
            Err(_) => text.push(b'F')?,
        }
    }
    assert_eq!(rt; text.as_slice(), b"ab;;LEE".as_slice());
    Ok(())
}

#[test]
fn a_failure_comes_where_no_line_is_held(rt: HostRuntime) -> Result<(), AllocError> {
    let alloc = rt.alloc();
    let mut source = MemSource::new(b"a\nb".to_vec(alloc)?, vec![in alloc; 2u32]?);
    let mut reader = LineReader::new();
    let first = reader.next_line(alloc, &mut source, 4);
    assert!(rt; matches!(&first, Ok(Line::Whole(_))));
    assert_eq!(rt; reader.ahead(), 1);
    let second = reader.next_line(alloc, &mut source, 4);
    assert_eq!(rt; second.err(), Some(LineError::Failed));
    let third = reader.next_line(alloc, &mut source, 4);
    assert!(rt; matches!(&third, Ok(Line::End)));
    Ok(())
}
