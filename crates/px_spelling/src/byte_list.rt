ghost use Rattle.std.specs.Prelude.{◌≡◌, [], false};

use crate::Output;
use px_history::History;

/// Puts bytes at the end of a list, as long as there is memory.
#[derive(Drop)]
pub struct ByteList {
    /// There was no memory for some.
    pub lost: bool,
    pub given: History<u8>,
}

impl ByteList {
    /// Nothing was put. Takes no memory.
    pub fn new() -> ByteList
        ensures lost { result.lost ≡ false }
        ensures given { result.given.items ≡ [] }
    {
        ByteList {
            lost: false,
            given: History::new(),
        }
    }
}

impl Output for ByteList {
    ghost use Rattle.std.specs.Prelude.{◌≡◌, ◌++◌, false};

    type Target = Vec<u8>;

    ghost written = { λ s. s.given.items };

    ghost reaches = { λ from s to. s.lost ≡ false → to.items ≡ from.items ++ s.given.items };

    fn put(&mut self, target: &mut Vec<u8>, bytes: &[u8]) {
        self.given.add(bytes);
        if self.lost {
            return;
        }
        if target.extend_from_slice(bytes).is_err() {
            self.lost = true;
        }
    }
}
