//! The standard streams, or any other reader and writer.
ghost use Rattle.std.specs.Prelude.{◌≡◌, None, false};

use crate::copying::{read_once, write_whole};
use br_outside::{Failed, Sink, SinkError, Source};
use std::io::{Read, Write};

/// A source over a reader, as the standard input.
#[derive(Drop)]
pub struct InputSource<T> {
    input: T,
    faults: u64,
}

impl<T: Read> InputSource<T> {
    /// A source of what the reader gives from now on, with the count 0.
    pub fn new(input: T) -> InputSource<T>
        ensures { ⟦<InputSource<T> as Source>⟧.seen result ≡ record { bytes = None; faults = 0; calm = false } }
    {
        InputSource { input, faults: 0 }
    }
}

impl<T: Read> Source for InputSource<T> {
    ghost use Rattle.std.specs.Prelude.{None, false};

    ghost seen = { λ s. record { bytes = None; faults = s.faults; calm = false } };

    /// Takes what one read gives, at most 4096 bytes.
    fn take(&mut self, into: &mut [u8]) -> Result<usize, Failed> {
        let mut piece = [0u8; 4096];
        let room = into.len().min(piece.len());
        let answer = read_once(&mut self.input, &mut piece[..room]);
        self.faults = self.faults.saturating_add(u64::from(answer.is_none()));
        let count = answer.ok_or(Failed)?;
        into[..count].copy_from_slice(&piece[..count]);
        Ok(count)
    }
}

/// A sink over a writer, as the standard output. Each piece is flushed.
#[derive(Drop)]
pub struct OutputSink<T> {
    output: T,
    faults: u64,
}

impl<T: Write> OutputSink<T> {
    /// A sink to the writer, with the count 0.
    pub fn new(output: T) -> OutputSink<T>
        ensures { ⟦<OutputSink<T> as Sink>⟧.seen result ≡ record { bytes = None; faults = 0; calm = false } }
    {
        OutputSink { output, faults: 0 }
    }
}

impl<T: Write> Sink for OutputSink<T> {
    ghost use Rattle.std.specs.Prelude.{None, false};

    ghost seen = { λ s. record { bytes = None; faults = s.faults; calm = false } };

    fn give(&mut self, piece: &[u8]) -> Result<(), SinkError> {
        let written = write_whole(&mut self.output, piece);
        self.faults = self.faults.saturating_add(u64::from(!written));
        if written {
            Ok(())
        } else {
            Err(SinkError::Failed)
        }
    }
}

/// A sink over a writer for reports, as the standard error. Each piece is flushed.
#[derive(Drop)]
pub struct ErrorSink<T> {
    output: OutputSink<T>,
}

impl<T: Write> ErrorSink<T> {
    /// A sink to the writer, with the count 0.
    pub fn new(output: T) -> ErrorSink<T>
        ensures { ⟦<ErrorSink<T> as Sink>⟧.seen result ≡ record { bytes = None; faults = 0; calm = false } }
    {
        ErrorSink {
            output: OutputSink::new(output),
        }
    }
}

impl<T: Write> Sink for ErrorSink<T> {
    ghost use Rattle.std.specs.Prelude.{None, false};

    ghost seen = { λ s. record { bytes = None; faults = s.output.faults; calm = false } };

    fn give(&mut self, piece: &[u8]) -> Result<(), SinkError> {
        self.output.give(piece)
    }
}

#[cfg(test)]
mod tests {
    use super::*;
    use std::fs;
    use std::fs::File;

    #[test]
    fn streams_of_files(rt: HostRuntime) -> std::io::Result<()> {
        let name = "streamed_by_br_real";
        let mut sink = OutputSink::new(File::create(&rt, name)?);
        assert_eq!(rt; sink.give(b"abc"), Ok(()));
        assert_eq!(rt; sink.give(b"de"), Ok(()));

        let mut source = InputSource::new(File::open(&rt, name)?);
        let mut piece = [9u8; 4];
        assert_eq!(rt; source.take(&mut piece), Ok(4));
        assert_eq!(rt; piece, *b"abcd");
        assert_eq!(rt; source.take(&mut piece), Ok(1));
        assert_eq!(rt; piece, *b"ebcd");
        assert_eq!(rt; source.take(&mut piece), Ok(0));
        assert_eq!(rt; source.faults, 0);

        // A file that is open for one way only fails in the other.
        let mut source = InputSource::new(File::create(&rt, "written_by_br_real")?);
        assert_eq!(rt; source.take(&mut piece), Err(Failed));
        assert_eq!(rt; source.faults, 1);
        let mut sink = ErrorSink::new(File::open(&rt, name)?);
        assert_eq!(rt; sink.give(b"x"), Err(SinkError::Failed));
        assert_eq!(rt; sink.output.faults, 1);
        fs::remove_file(&rt, "written_by_br_real")?;
        fs::remove_file(&rt, name)
    }

    #[test]
    fn standard_streams(rt: HostRuntime) {
        let mut source = InputSource::new(rt.stdin());
        let mut sink = OutputSink::new(rt.stdout());
        let mut report = ErrorSink::new(rt.stderr());
        assert_eq!(rt; source.take(&mut [0u8; 0]), Ok(0));
        assert_eq!(rt; sink.give(b""), Ok(()));
        assert_eq!(rt; report.give(b""), Ok(()));
    }
}
