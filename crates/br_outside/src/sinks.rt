//! Sinks in memory.
ghost use Rattle.std.specs.Prelude.{◌≡◌, ◌↔◌, ℕ, [], OnErr, IsErrOf};
ghost use Rattle.br_outside.specs.Outside.{Gave};
ghost use Rattle.br_outside.specs.Failing.{NextFails, after_call};
ghost use Rattle.br_outside.specs.Forms.{mem_written, calm_written, sink_calls, mem_sink_view, calm_sink_view, give_failed};
ghost use Rattle.br_outside.specs.declared.errors.SinkError.TheVariants as sink_errors;

use crate::errors::SinkError;
use crate::failing::Failing;
use crate::traits::Sink;
use std::alloc::Global;

/// Bytes in memory that go, with calls that fail.
#[derive(Drop)]
pub struct MemSink {
    bytes: Vec<u8>,
    failing: Failing,
}

impl MemSink {
    /// A sink to which nothing was written, whose calls with these numbers, counted from 1, fail. A call past number
    /// 4294967295 is not made to fail by the list. What is written is held in memory of `alloc`.
    pub fn new(alloc: Global, failing: Vec<u32>) -> MemSink
        ensures written { mem_written result ≡ [] }
        ensures calls { sink_calls result ≡ record { numbers = failing; calls = 0; faults = 0 } }
    {
        MemSink {
            bytes: Vec::new(alloc),
            failing: Failing::new(failing),
        }
    }

    /// What was written, from the first byte on.
    pub fn written(&self) -> &[u8]
        ensures { result.now ≡ mem_written self.now }
    {
        &self.bytes
    }
}

impl Sink for MemSink {
    ghost use Rattle.br_outside.specs.Forms.{mem_sink_view};

    ghost seen = { mem_sink_view };

    /// Fails exactly where this call's number is listed; then nothing is written.
    fn give(&mut self, piece: &[u8]) -> Result<(), SinkError>
        ensures gave { Gave piece.now result (mem_sink_view self.old) (mem_sink_view self.new) }
        ensures failed { IsErrOf result sink_errors.Failed ↔ NextFails (sink_calls self.old) }
        ensures counted { sink_calls self.new ≡ after_call (sink_calls self.old) (give_failed result) }
        ensures stays { OnErr result (mem_written self.new ≡ mem_written self.old) }
    {
        if self.failing.next_fails() {
            return Err(SinkError::Failed);
        }
        self.bytes.extend_from_slice(piece)?;
        Ok(())
    }
}

/// Bytes in memory that go, without faults.
#[derive(Drop)]
pub struct CalmSink {
    bytes: Vec<u8>,
}

impl CalmSink {
    /// A sink to which nothing was written. What is written is held in memory of `alloc`.
    pub fn new(alloc: Global) -> CalmSink
        ensures { calm_written result ≡ [] }
    {
        CalmSink {
            bytes: Vec::new(alloc),
        }
    }

    /// What was written, from the first byte on.
    pub fn written(&self) -> &[u8]
        ensures { result.now ≡ calm_written self.now }
    {
        &self.bytes
    }
}

impl Sink for CalmSink {
    ghost use Rattle.br_outside.specs.Forms.{calm_sink_view};

    ghost seen = { calm_sink_view };

    fn give(&mut self, piece: &[u8]) -> Result<(), SinkError> {
        self.bytes.extend_from_slice(piece)?;
        Ok(())
    }
}

#[cfg(test)]
mod tests {
    use super::*;
    use std::alloc::AllocError;

    fn give_both<S: Sink>(sink: &mut S) -> (Result<(), SinkError>, Result<(), SinkError>) {
        (sink.give(b"ab"), sink.give(b"cd"))
    }

    #[test]
    fn writes_in_order(rt: HostRuntime) -> Result<(), AllocError> {
        let alloc = rt.alloc();
        let mut sink = CalmSink::new(alloc);
        assert_eq!(rt; give_both(&mut sink), (Ok(()), Ok(())));
        assert_eq!(rt; sink.written(), b"abcd".as_slice());

        let mut sink = MemSink::new(alloc, vec![in alloc; 1u32]?);
        assert_eq!(rt; give_both(&mut sink), (Err(SinkError::Failed), Ok(())));
        assert_eq!(rt; sink.written(), b"cd".as_slice());
        Ok(())
    }
}
