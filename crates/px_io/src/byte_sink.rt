ghost use Rattle.std.specs.Prelude.{◌≡◌, Some, IfOk};
ghost use Rattle.px_io.specs.ByteSink.{Takes};

use crate::sink::{ErrorOutput, Failed, Output, Sink};
use std::alloc::{AllocError, Global};

/// A sink in memory: its bytes, the most that it takes in a call, and the calls of `write` that fail,
/// counted from 0. A call at which no room is left for a piece that isn't empty is a fault.
#[derive(Drop)]
pub struct ByteSink {
    bytes: Vec<u8>,
    most: usize,
    failing: Vec<u64>,
    calls: u64,
    faults: u64,
}

impl ByteSink {
    ghost use Rattle.px_io.specs.ByteSink.{written, taken, fails, IsNew};

    /// An empty sink with room for `room` bytes, so that its writes take no memory.
    pub fn new(
        alloc: Global,
        room: usize,
        most: usize,
        failing: Vec<u64>,
    ) -> Result<ByteSink, AllocError>
        ensures { IfOk result (λ s. IsNew s room most failing.items) }
    {
        Ok(ByteSink {
            bytes: Vec::with_capacity(alloc, room)?,
            most,
            failing,
            calls: 0,
            faults: 0,
        })
    }

    /// The bytes that were written.
    pub fn bytes(&self) -> &[u8]
        ensures { result.now ≡ written self.now }
    {
        &self.bytes
    }

    // How many bytes of a piece have room and may be taken in a call.
    fn taken(&self, piece: &[u8]) -> usize
        ensures { result ≡ taken self.now piece.now }
    {
        let room = self.bytes.capacity().saturating_sub(self.bytes.len());
        piece.len().min(self.most).min(room)
    }

    // Whether a write of this piece fails now.
    fn fails(&self, piece: &[u8]) -> bool
        ensures { result ≡ fails self.now piece.now }
    {
        self.failing.contains(&self.calls) || (self.taken(piece) == 0 && !piece.is_empty())
    }
}

impl Sink for ByteSink {
    ghost told = { λ s. Some s.bytes.items };

    ghost takes = { Takes };

    ghost count = { λ s. s.faults };

    fn faults(&self) -> u64 {
        self.faults
    }

    fn write(&mut self, piece: &[u8]) -> Result<usize, Failed> {
        let fails = self.fails(piece);
        let count = self.taken(piece);
        self.calls = self.calls.saturating_add(1);
        if fails {
            self.faults = self.faults.saturating_add(1);
            return Err(Failed);
        }
        match self.bytes.extend_from_slice(&piece[..count]) {
            Ok(()) => Ok(count),
            Err(_) => {
                self.faults = self.faults.saturating_add(1);
                Err(Failed)
            }
        }
    }
}

impl Output for ByteSink {}

impl ErrorOutput for ByteSink {}
