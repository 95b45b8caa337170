//! Words of the command line that need not be text.
use crate::arguments::{read_arguments, tell_broken};
use br_outside::MemSink;
use std::env::{Env, FillError};
use std::test::Fail;

/// A command line of these words.
#[derive(Clone, Copy)]
struct Line<'a> {
    words: &'a [&'a [u8]],
}

impl Env for Line<'_> {
    fn arg(&self, i: usize, buf: &mut [u8]) -> Result<usize, FillError> {
        let Some(word) = self.words.get(i) else {
            return Err(FillError::NotPresent);
        };
        let Some(front) = buf.get_mut(..word.len()) else {
            return Err(FillError::TooLong);
        };
        front.copy_from_slice(word);
        Ok(word.len())
    }

    fn var(&self, _name: &str, _buf: &mut [u8]) -> Result<usize, FillError> {
        Err(FillError::NotPresent)
    }

    fn var_at(&self, _i: usize, _buf: &mut [u8]) -> Result<usize, FillError> {
        Err(FillError::NotPresent)
    }
}

#[test]
fn takes_words_of_text(rt: HostRuntime) -> Result<(), Fail> {
    let alloc = rt.alloc();
    let long = vec![in alloc; b'x'; 70000]?;
    let line = Line {
        words: &[b"binrec", b"run", b"\xc3\xa4", b"", &long],
    };
    let read = read_arguments(alloc, &line)?;
    assert!(rt; read.broken.is_none());
    assert_eq!(rt; read.texts.len(), 4);
    assert_eq!(rt;
        read.texts.get(1).map(|word| word.as_bytes()),
        Some(b"\xc3\xa4".as_slice())
    );
    assert_eq!(rt; read.texts.get(2).map(|word| word.len()), Some(0));
    assert_eq!(rt; read.texts.get(3).map(|word| word.len()), Some(70000));
    Ok(())
}

#[test]
fn refuses_words_that_are_no_text(rt: HostRuntime) -> Result<(), Fail> {
    let alloc = rt.alloc();
    let stated: [(&[&[u8]], &str); 5] = [
        (&[b"binrec", b"\xff"], "usage 0\n"),
        (&[b"binrec", b"build", b"\xc3", b"E"], "usage 1\n"),
        (
            &[b"binrec", b"run", b"E", b"a", b"\xed\xa0\x80"],
            "usage 3\n",
        ),
        (&[b"binrec", b"frob", b"\xff"], "usage 0\n"),
        (&[b"binrec", b"show", b"", b"\xff"], "usage 1\n"),
    ];
    for (words, line) in stated {
        let read = read_arguments(alloc, &Line { words })?;
        let Some(position) = read.broken else {
            panic!(rt; "{}", line);
        };
        let mut report = MemSink::new(alloc, Vec::new(alloc));
        let status = tell_broken(&mut report, &read.texts, position);
        assert_eq!(rt; status.0, 1);
        assert_eq!(rt; report.written(), line.as_bytes());
    }
    Ok(())
}
