ghost use Rattle.std.specs.Prelude.{◌≡◌, ⊤, Some, IfSome};
ghost use Rattle.px_pool.specs.Talks.{nothing};
ghost use Rattle.px_pool.specs.Counting.{numbers_of};

use crate::HonestLink;
use px_io::Failed;
use px_pool::{Spawner, Tally};
use px_terms::Domain;
use std::alloc::Global;
use std::sync::Wait;
use std::vec::IntoIter;

/// What one link is given: the domains of its worker, by rising kinds, up to which version this knows them, and how many bytes
/// the link gives at most.
#[derive(Drop)]
pub struct Plan {
    pub domains: Vec<Box<dyn Domain>>,
    pub known: u8,
    pub dies_at: Option<u64>,
}

/// Starts a link for each plan, in order. A start beyond them fails, as does one without memory for the link, which spends
/// its plan.
#[derive(Drop)]
pub struct HonestSpawner {
    alloc: Global,
    plans: IntoIter<Plan, Global>,
    tally: Tally,
}

impl HonestSpawner {
    /// No link was started. Takes no memory.
    pub fn new(alloc: Global, plans: Vec<Plan>) -> HonestSpawner
        ensures { result.tally ≡ record { running = 0; started = 0; given = 0; faults = 0 } }
    {
        HonestSpawner {
            alloc,
            plans: plans.into_iter(),
            tally: Tally::new(),
        }
    }
}

// The link of the next plan, if there is one and there is memory for it.
fn next_link(alloc: Global, plans: &mut IntoIter<Plan, Global>) -> Option<HonestLink>
    ensures { IfSome result (λ l. l.talk ≡ nothing) }
{
    let plan = plans.next()?;
    HonestLink::new(alloc, plan.domains, plan.known, plan.dies_at).ok()
}

impl Spawner for HonestSpawner {
    type Link = HonestLink;

    ghost told = { λ s. Some (numbers_of s.tally) };

    ghost starts = { λ s answer t. ⊤ };

    ghost ends = { λ s t. ⊤ };

    ghost links = { λ s. s.tally.running };

    ghost count = { λ s. s.tally.faults };

    fn faults(&self) -> u64 {
        self.tally.faults()
    }

    fn running(&self) -> u64 {
        self.tally.running()
    }

    fn start<R: Wait>(
        &mut self,
        _rt: &R,
        _program: &str,
        _number: u32,
    ) -> Result<HonestLink, Failed> {
        if self.tally.is_full() {
            self.tally.fail();
            return Err(Failed);
        }
        match next_link(self.alloc, &mut self.plans) {
            Some(link) => {
                self.tally.start();
                Ok(link)
            }
            None => {
                self.tally.fail();
                Err(Failed)
            }
        }
    }

    fn end<R: Wait>(&mut self, _rt: &R, link: HonestLink) {
        self.tally.end(link.given());
    }
}
