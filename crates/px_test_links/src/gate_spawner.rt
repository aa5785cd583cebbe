ghost use Rattle.std.specs.Prelude.{◌≡◌, ⊤, Some, IfSome};
ghost use Rattle.px_pool.specs.Talks.{nothing};
ghost use Rattle.px_pool.specs.Counting.{numbers_of};

use crate::GateLink;
use crate::pair::{Pair, Side};
use px_honest::HonestLink;
use px_io::Failed;
use px_pool::{Spawner, Tally};
use std::alloc::Global;
use std::sync::Wait;

/// Starts links in pairs: the first and the second are partners, the third and the fourth, and so on. A start without memory
/// for the link fails.
#[derive(Drop)]
pub struct GateSpawner {
    alloc: Global,
    // How often a link looks for its partner at most.
    looks: u32,
    // The pair of the link that was started last, while it has no partner.
    alone: Option<Pair>,
    tally: Tally,
}

impl GateSpawner {
    /// No link was started. Each looks so often for its partner at most. Takes no memory.
    pub fn new(alloc: Global, looks: u32) -> GateSpawner
        ensures { result.tally ≡ record { running = 0; started = 0; given = 0; faults = 0 } }
    {
        GateSpawner {
            alloc,
            looks,
            alone: None,
            tally: Tally::new(),
        }
    }
}

// The next link, if there is memory for it: the partner of the one that has none, or the first of a pair.
fn next_link(alloc: Global, looks: u32, alone: &mut Option<Pair>) -> Option<GateLink>
    ensures { IfSome result (λ l. l.link.talk ≡ nothing) }
{
    let link = HonestLink::new(alloc, Vec::new(alloc), 2, None).ok()?;
    let (pair, side) = next_place(alloc, alone)?;
    Some(GateLink::new(link, pair, side, looks))
}

// The pair and the side of the next link, if there is memory for them.
fn next_place(alloc: Global, alone: &mut Option<Pair>) -> Option<(Pair, Side)> {
    if let Some(pair) = alone.take() {
        return Some((pair, Side::Second));
    }
    let pair = Pair::new(alloc).ok()?;
    *alone = Some(pair.again().ok()?);
    Some((pair, Side::First))
}

impl Spawner for GateSpawner {
    type Link = GateLink;

    ghost told = { λ s. Some (numbers_of s.tally) };

    ghost starts = { λ s answer t. ⊤ };

    ghost ends = { λ s t. ⊤ };

    ghost links = { λ s. s.tally.running };

    ghost count = { λ s. s.tally.faults };

    fn faults(&self) -> u64
        ensures { result ≡ self.now.tally.faults }
    {
        self.tally.faults()
    }

    fn running(&self) -> u64
        ensures { result ≡ self.now.tally.running }
    {
        self.tally.running()
    }

    fn start<R: Wait>(
        &mut self,
        _rt: &R,
        _program: &str,
        _number: u32,
    ) -> Result<GateLink, Failed> {
        if self.tally.is_full() {
            self.tally.fail();
            return Err(Failed);
        }
        match next_link(self.alloc, self.looks, &mut self.alone) {
            Some(link) => {
                self.tally.start();
                Ok(link)
            }
            None => {
                self.tally.fail();
                Err(Failed)
            }
        }
    }

    fn end<R: Wait>(&mut self, _rt: &R, link: GateLink) {
        self.tally.end(link.given());
    }
}
