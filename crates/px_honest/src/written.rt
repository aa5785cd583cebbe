ghost use Rattle.std.specs.Prelude.{◌≡◌, [], ⊤, Some};

use px_io::{Failed, Sink};
use std::alloc::Global;

/// A sink in memory that grows. Want of memory is a fault.
#[derive(Drop)]
pub(crate) struct Written {
    pub(crate) bytes: Vec<u8>,
    faults: u64,
}

impl Written {
    /// Nothing was written. Takes no memory.
    pub(crate) fn new(alloc: Global) -> Written
        ensures { result.bytes.items ≡ [] }
    {
        Written {
            bytes: Vec::new(alloc),
            faults: 0,
        }
    }
}

impl Sink for Written {
    ghost told = { λ s. Some s.bytes.items };

    ghost takes = { λ s piece answer t. ⊤ };

    ghost count = { λ s. s.faults };

    fn faults(&self) -> u64 {
        self.faults
    }

    fn write(&mut self, piece: &[u8]) -> Result<usize, Failed> {
        match self.bytes.extend_from_slice(piece) {
            Ok(()) => Ok(piece.len()),
            Err(_) => {
                self.faults = self.faults.saturating_add(1);
                Err(Failed)
            }
        }
    }
}
