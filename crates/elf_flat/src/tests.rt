//! The headers of a small file, as `readelf -h -l` shows them.
use crate::flat_headers;
use std::test::Fail;

#[test]
fn headers_of_a_length(rt: HostRuntime) -> Result<(), Fail> {
    let headers = flat_headers(0x0102_0304);
    assert!(rt; &headers[..4] == b"\x7fELF".as_slice());
    assert!(rt; &headers[24..28] == [0x54, 0x80, 0x04, 0x08].as_slice());
    assert!(rt;
        &headers[60..76] == [0, 0x80, 4, 8, 0, 0x80, 4, 8, 4, 3, 2, 1, 4, 3, 2, 1].as_slice()
    );
    Ok(())
}
