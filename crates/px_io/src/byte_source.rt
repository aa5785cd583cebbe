ghost use Rattle.std.specs.Prelude.{◌≡◌, Some};
ghost use Rattle.px_io.specs.ByteSource.{left, Gives};

use crate::sink::Failed;
use crate::source::Source;

/// A source in memory: its bytes, the most that it gives in a call, and the calls of `read` that fail, counted
/// from 0. A call that may give nothing, though there is room and bytes are left, is a fault.
#[derive(Drop)]
pub struct ByteSource {
    bytes: Vec<u8>,
    // How many of them were read.
    at: usize,
    most: usize,
    failing: Vec<u64>,
    calls: u64,
    faults: u64,
}

impl ByteSource {
    ghost use Rattle.px_io.specs.ByteSource.{left, given, fails, IsNew};

    /// A source of these bytes, none of which was read. Takes no memory.
    pub fn new(bytes: Vec<u8>, most: usize, failing: Vec<u64>) -> ByteSource
        ensures { IsNew result bytes.items most failing.items }
    {
        ByteSource {
            bytes,
            at: 0,
            most,
            failing,
            calls: 0,
            faults: 0,
        }
    }

    /// The bytes that are still to come. Takes no memory.
    pub fn left(&self) -> &[u8]
        ensures { result.now ≡ left self.now }
    {
        &self.bytes[self.at.min(self.bytes.len())..]
    }

    // How many bytes a read gives that has room for so many.
    fn given(&self, room: usize) -> usize
        ensures { result ≡ given self.now room }
    {
        room.min(self.most).min(self.left().len())
    }

    // Whether a read with room for so many bytes fails now.
    fn fails(&self, room: usize) -> bool
        ensures { result ≡ fails self.now room }
    {
        self.failing.contains(&self.calls)
            || (self.given(room) == 0 && room > 0 && !self.left().is_empty())
    }
}

impl Source for ByteSource {
    ghost told = { λ s. Some (left s) };

    ghost gives = { Gives };

    ghost count = { λ s. s.faults };

    fn faults(&self) -> u64 {
        self.faults
    }

    fn read(&mut self, into: &mut [u8]) -> Result<usize, Failed> {
        let fails = self.fails(into.len());
        let count = self.given(into.len());
        self.calls = self.calls.saturating_add(1);
        if fails {
            self.faults = self.faults.saturating_add(1);
            return Err(Failed);
        }
        into[..count].copy_from_slice(&self.left()[..count]);
        self.at += count;
        Ok(count)
    }
}
