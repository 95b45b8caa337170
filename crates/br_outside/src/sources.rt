//! Sources in memory.
ghost use Rattle.std.specs.Prelude.{◌≡◌, ◌↔◌, ◌<◌, ◌≤◌, ℕ, min, take, drop, length, vec_len, IfOk, IsErr};
ghost use Rattle.std.specs.Result.{is_err};
ghost use Rattle.br_outside.specs.Outside.{Took};

use crate::errors::Failed;
use crate::failing::Failing;
use crate::traits::Source;

/// Fills a front part of a piece with as many of the bytes as it has room for, and answers their number.
fn copy_front(bytes: &[u8], into: &mut [u8]) -> usize
    ensures count { result ≡ min (length bytes.now) (length into.old) }
    ensures front { take result into.new ≡ take result bytes.now }
    ensures rest { drop result into.new ≡ drop result into.old }
{
    let count = bytes.len().min(into.len());
    into[..count].copy_from_slice(&bytes[..count]);
    count
}

/// Bytes in memory that come, with calls that fail.
#[derive(Drop)]
pub struct MemSource {
    bytes: Vec<u8>,
    at: usize,
    failing: Failing,
    ghost within: { at ≤ vec_len bytes },
}

impl MemSource {
    ghost use Rattle.br_outside.specs.Forms.{mem_left, source_calls};

    /// A source of these bytes, whose calls with these numbers, counted from 1, fail. A call past number 4294967295
    /// is not made to fail by the list.
    pub fn new(bytes: Vec<u8>, failing: Vec<u32>) -> MemSource
        ensures left { mem_left result ≡ bytes.items }
        ensures calls { source_calls result ≡ record { numbers = failing; calls = 0; faults = 0 } }
    {
        MemSource {
            bytes,
            at: 0,
            failing: Failing::new(failing),
        }
    }

    /// The bytes that were not taken yet.
    pub fn left(&self) -> &[u8]
        ensures { result.now ≡ mem_left self.now }
    {
        &self.bytes[self.at..]
    }
}

impl Source for MemSource {
    ghost use Rattle.br_outside.specs.Failing.{NextFails, after_call};
    ghost use Rattle.br_outside.specs.Forms.{mem_left, source_calls, mem_source_view};

    ghost seen = { mem_source_view };

    /// Takes as many bytes as the piece has room for. Fails exactly where this call's number is listed.
    fn take(&mut self, into: &mut [u8]) -> Result<usize, Failed>
        ensures took { Took into.old into.new result (mem_source_view self.old) (mem_source_view self.new) }
        ensures failed { IsErr result ↔ NextFails (source_calls self.old) }
        ensures counted { source_calls self.new ≡ after_call (source_calls self.old) (is_err result) }
        ensures fills { IfOk result (λ count. count ≡ min (length (mem_left self.old)) (length into.old)) }
    {
        if self.failing.next_fails() {
            return Err(Failed);
        }
        let count = copy_front(&self.bytes[self.at..], into);
        self.at += count;
        Ok(count)
    }
}

/// Bytes in memory that come, without faults.
#[derive(Drop)]
pub struct CalmSource {
    bytes: Vec<u8>,
    at: usize,
    ghost within: { at ≤ vec_len bytes },
}

impl CalmSource {
    ghost use Rattle.br_outside.specs.Forms.{calm_left};

    /// A source of these bytes.
    pub fn new(bytes: Vec<u8>) -> CalmSource
        ensures { calm_left result ≡ bytes.items }
    {
        CalmSource { bytes, at: 0 }
    }

    /// The bytes that were not taken yet.
    pub fn left(&self) -> &[u8]
        ensures { result.now ≡ calm_left self.now }
    {
        &self.bytes[self.at..]
    }
}

impl Source for CalmSource {
    ghost use Rattle.br_outside.specs.Forms.{calm_left, calm_source_view};

    ghost seen = { calm_source_view };

    /// Takes as many bytes as the piece has room for.
    fn take(&mut self, into: &mut [u8]) -> Result<usize, Failed>
        ensures took { Took into.old into.new result (calm_source_view self.old) (calm_source_view self.new) }
        ensures fills { IfOk result (λ count. count ≡ min (length (calm_left self.old)) (length into.old)) }
    {
        let count = copy_front(&self.bytes[self.at..], into);
        self.at += count;
        Ok(count)
    }
}

#[cfg(test)]
mod tests {
    use super::*;
    use std::alloc::AllocError;

    fn second_taken<S: Source>(source: &mut S) -> (Result<usize, Failed>, [u8; 4]) {
        let mut piece = [7u8; 4];
        let _first = source.take(&mut piece[..2]);
        piece = [7; 4];
        let answer = source.take(&mut piece);
        (answer, piece)
    }

    #[test]
    fn takes_in_order(rt: HostRuntime) -> Result<(), AllocError> {
        let alloc = rt.alloc();
        let mut source = CalmSource::new(b"abcd".to_vec(alloc)?);
        assert_eq!(rt; second_taken(&mut source), (Ok(2), *b"cd\x07\x07"));
        assert_eq!(rt; source.left(), b"".as_slice());
        assert_eq!(rt; source.take(&mut [0u8; 3]), Ok(0));

        let failing = vec![in alloc; 2u32]?;
        let mut source = MemSource::new(b"abcd".to_vec(alloc)?, failing);
        assert_eq!(rt; second_taken(&mut source), (Err(Failed), [7; 4]));
        assert_eq!(rt; source.left(), b"cd".as_slice());
        assert_eq!(rt; second_taken(&mut source), (Ok(0), [7; 4]));
        Ok(())
    }
}
