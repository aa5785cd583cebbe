ghost use Rattle.std.specs.Prelude.{◌≡◌, []};

use crate::Output;
use px_history::History;

/// Counts bytes: the number is 2^64 - 1 where there are more. Takes no memory.
#[derive(Drop)]
pub struct ByteCount {
    pub given: History<u8>,
}

impl ByteCount {
    /// Nothing was put.
    pub fn new() -> ByteCount
        ensures { result.given.items ≡ [] }
    {
        ByteCount {
            given: History::new(),
        }
    }
}

impl Output for ByteCount {
    ghost use Rattle.std.specs.Prelude.{◌≡◌, ◌+◌, ◌-◌, ◌^◌, min, length};

    type Target = u64;

    ghost written = { λ s. s.given.items };

    ghost reaches = { λ from s to. to ≡ min (from + length s.given.items) (2 ^ 64 - 1) };

    fn put(&mut self, target: &mut u64, bytes: &[u8]) {
        self.given.add(bytes);
        *target = target.saturating_add(bytes.len() as u64);
    }
}
