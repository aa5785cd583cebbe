ghost use Rattle.std.specs.Prelude.{◌≡◌, ⊤};

use crate::sink::Failed;
use crate::source::Source;
use std::io::Read;

/// A source over a stream. It tells what its stream has left, where the stream's type says that: standard input says
/// nothing, and is the trusted edge.
#[derive(Drop)]
pub struct StreamSource<R: Read + Drop> {
    stream: R,
    faults: u64,
}

impl<R: Read + Drop> StreamSource<R> {
    pub fn new(stream: R) -> StreamSource<R>
        ensures unfailed { result.faults ≡ 0 }
        ensures same { R.remaining result.stream ≡ R.remaining stream }
    {
        StreamSource { stream, faults: 0 }
    }
}

impl<R: Read + Drop> Source for StreamSource<R> {
    ghost told = { λ s. R.remaining s.stream };

    ghost gives = { λ s room answer t. ⊤ };

    ghost count = { λ s. s.faults };

    fn faults(&self) -> u64 {
        self.faults
    }

    fn read(&mut self, into: &mut [u8]) -> Result<usize, Failed> {
        match self.stream.read(into) {
            Ok(count) => Ok(count),
            Err(_) => {
                self.faults = self.faults.saturating_add(1);
                Err(Failed)
            }
        }
    }
}
