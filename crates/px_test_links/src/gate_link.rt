ghost use Rattle.std.specs.Prelude.{◌≡◌, ⊤, Some};

use crate::pair::{Pair, Side};
use px_honest::HonestLink;
use px_io::Failed;
use px_pieces::Honest;
use px_pool::Link;
use std::sync::Wait;

/// A link of a pair, to a worker in place without domains: its first reply waits until its partner was sent its first
/// request. So neither answers where one exchange comes after the other. The partner's second request is not waited for: it
/// comes after the partner's first reply, which waits for this link. Where it looked as often as it may, the worker dies,
/// and the end comes in place of the reply.
#[derive(Drop)]
pub struct GateLink {
    link: HonestLink,
    pair: Pair,
    side: Side,
    looks: u32,
    // It has waited.
    open: bool,
}

impl GateLink {
    /// A link over which nothing passed, which looks so often at most. Takes no memory.
    pub(crate) fn new(link: HonestLink, pair: Pair, side: Side, looks: u32) -> GateLink
        ensures { result.link ≡ link }
    {
        GateLink {
            link,
            pair,
            side,
            looks,
            open: false,
        }
    }

    /// The bytes that it gave. Takes no memory.
    pub fn given(&self) -> &[u8]
        ensures { result.now ≡ self.now.link.talk.given }
    {
        self.link.given()
    }
}

impl Link for GateLink {
    type Word = Honest;

    ghost told = { λ l. Some l.link.talk };

    ghost takes = { λ l bytes answer m. ⊤ };

    ghost answers = { λ l room answer m. ⊤ };

    ghost count = { λ l. l.link.faults };

    fn faults(&self) -> u64 {
        self.link.faults()
    }

    fn send<R: Wait>(&mut self, rt: &R, bytes: &[u8]) -> Result<(), Failed> {
        self.link.put(bytes)?;
        self.pair.ask(rt, self.side);
        Ok(())
    }

    fn receive<R: Wait>(&mut self, rt: &R, into: &mut [u8]) -> Result<usize, Failed> {
        if !self.open {
            self.open = true;
            if !self.pair.wait_for_partner(rt, self.side, self.looks) {
                self.link.die();
            }
        }
        Ok(self.link.give(into))
    }
}
