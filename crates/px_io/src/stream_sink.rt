ghost use Rattle.std.specs.Prelude.{◌≡◌, ⊤};

use crate::sink::{ErrorOutput, Failed, Output, Sink};
use std::io::Write;
use std::rt::{Stderr, Stdout};

/// A sink over a stream. It tells what its stream contains, where the stream's type says that: standard output
/// and error say nothing, and are the trusted edge. A write that takes nothing of a piece that isn't empty is a
/// fault.
#[derive(Drop)]
pub struct StreamSink<W: Write + Drop> {
    stream: W,
    faults: u64,
}

impl<W: Write + Drop> StreamSink<W> {
    pub fn new(stream: W) -> StreamSink<W>
        ensures unfailed { result.faults ≡ 0 }
        ensures same { W.contents result.stream ≡ W.contents stream }
    {
        StreamSink { stream, faults: 0 }
    }
}

impl<W: Write + Drop> Sink for StreamSink<W> {
    ghost told = { λ s. W.contents s.stream };

    ghost takes = { λ s piece answer t. ⊤ };

    ghost count = { λ s. s.faults };

    fn faults(&self) -> u64 {
        self.faults
    }

    fn write(&mut self, piece: &[u8]) -> Result<usize, Failed> {
        match self.stream.write(piece) {
            Ok(count) if count > 0 || piece.is_empty() => Ok(count),
            _ => {
                self.faults = self.faults.saturating_add(1);
                Err(Failed)
            }
        }
    }
}

impl Output for StreamSink<Stdout> {}

impl ErrorOutput for StreamSink<Stderr> {}
