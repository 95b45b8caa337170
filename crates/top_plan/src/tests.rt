use crate::{
    Cause, Finish, Halt, Limit, Object, Outcome, fetch_file, print_text, store_file, tell_halt,
    tell_outcome, tell_usage,
};
use br_outside::{CalmShelf, CalmSink, MemSink};
use std::alloc::AllocError;

#[test]
fn files_come_and_go(rt: HostRuntime) -> Result<(), AllocError> {
    let alloc = rt.alloc();
    let mut shelf = CalmShelf::new(alloc, Vec::new(alloc));
    assert_eq!(rt; store_file(&mut shelf, "n", b"abc"), Ok(()));
    match fetch_file(alloc, &mut shelf, "n", 3) {
        Ok(bytes) => assert_eq!(rt; bytes.as_slice(), b"abc".as_slice()),
        Err(halt) => assert_eq!(rt; halt, Halt::Memory),
    }
    let long = fetch_file(alloc, &mut shelf, "n", 2).err();
    assert_eq!(rt; long, Some(Halt::Because(Cause::Limited(Limit::File(2)))));
    let absent = fetch_file(alloc, &mut shelf, "m", 2).err();
    assert_eq!(rt; absent, Some(Halt::Outside(Object::Shelf)));
    Ok(())
}

#[test]
fn ends_are_reported(rt: HostRuntime) -> Result<(), AllocError> {
    let alloc = rt.alloc();
    let mut report = CalmSink::new(alloc);
    let refused = Cause::RefusedWord {
        word: 4294967295,
        number: 4294967295,
        place: 4294967295,
    };
    assert_eq!(rt; tell_halt(&mut report, Halt::Because(refused)), 2);
    assert_eq!(rt;
        tell_halt(
            &mut report,
            Halt::Because(Cause::Limited(Limit::Code(100663296)))
        ),
        7
    );
    assert_eq!(rt; tell_usage(&mut report, 10), 1);
    assert_eq!(rt; tell_halt(&mut report, Halt::Memory), 4);
    let silent = Outcome {
        finish: Finish::Done,
        line: None,
    };
    assert_eq!(rt; tell_outcome(&mut report, &silent), 0);
    let text =
        b"refused word 4294967295 4294967295 4294967295\nlimit code 100663296\nusage 10\nmemory\n";
    assert_eq!(rt; report.written(), text.as_slice());
    Ok(())
}

#[test]
fn an_output_that_fails(rt: HostRuntime) -> Result<(), AllocError> {
    let alloc = rt.alloc();
    let mut out = MemSink::new(alloc, vec![in alloc; 1u32]?);
    assert_eq!(rt; print_text(&mut out, b""), Ok(()));
    assert_eq!(rt;
        print_text(&mut out, b"ab"),
        Err(Halt::Outside(Object::Output))
    );
    assert_eq!(rt; print_text(&mut out, b"cd"), Ok(()));
    assert_eq!(rt; out.written(), b"cd".as_slice());
    Ok(())
}
