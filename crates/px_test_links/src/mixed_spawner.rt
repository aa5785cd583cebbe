ghost use Rattle.std.specs.Prelude.{◌≡◌, ◌+◌, ◌-◌, ◌^◌, min, Some, IfSome};
ghost use Rattle.std.specs.Vec.Iter.{into_iter_items};
ghost use Rattle.px_pool.specs.Talks.{nothing};
ghost use Rattle.px_pool.specs.Counting.{numbers_of};
ghost use Rattle.px_test_links.specs.MixedLinks.{talk_of};
ghost use Rattle.px_test_links.specs.MixedSpawners.{Follows};

use crate::MixedLink;
use px_honest::{HonestLink, Plan};
use px_io::Failed;
use px_pool::{Script, ScriptLink, Spawner, Tally};
use std::alloc::Global;
use std::sync::Wait;
use std::vec::IntoIter;

/// What a link is to be.
#[derive(Drop)]
pub enum MixedPlan {
    Script(Script),
    InPlace(Plan),
}

/// Starts a link for each plan, in order. Of these calls, counted from 0, the start fails, and spends no plan. A start
/// beyond the plans fails too, as does one without memory for the link, which spends its plan.
#[derive(Drop)]
pub struct MixedSpawner {
    alloc: Global,
    plans: IntoIter<MixedPlan, Global>,
    failing: Vec<u64>,
    calls: u64,
    tally: Tally,
}

impl MixedSpawner {
    ghost use Rattle.px_test_links.specs.MixedSpawners.{IsNew, fails, left};

    /// No link was started. Takes no memory.
    pub fn new(alloc: Global, plans: Vec<MixedPlan>, failing: Vec<u64>) -> MixedSpawner
        ensures { IsNew result plans.items failing.items }
    {
        MixedSpawner {
            alloc,
            plans: plans.into_iter(),
            failing,
            calls: 0,
            tally: Tally::new(),
        }
    }

    // Whether this call of `start` fails. It is counted.
    fn fails_now(&mut self) -> bool
        ensures fails { result ≡ fails self.old }
        ensures tally { self.new.tally ≡ self.old.tally }
        ensures failing { self.new.failing ≡ self.old.failing }
        ensures counted { self.new.calls ≡ min (self.old.calls + 1) (2 ^ 64 - 1) }
        ensures left { left self.new ≡ left self.old }
    {
        let call = self.calls;
        self.calls = call.saturating_add(1);
        self.failing.contains(&call)
    }
}

// The link of the next plan, if there is one and there is memory for it.
fn next_link(alloc: Global, plans: &mut IntoIter<MixedPlan, Global>) -> Option<MixedLink>
    ensures fresh { IfSome result (λ l. talk_of l ≡ nothing) }
    ensures follows { Follows (into_iter_items plans.old) result (into_iter_items plans.new) }
{
    match plans.next()? {
        MixedPlan::Script(script) => Some(MixedLink::Script(ScriptLink::new(alloc, script))),
        MixedPlan::InPlace(plan) => {
            let link = HonestLink::new(alloc, plan.domains, plan.known, plan.dies_at).ok()?;
            Some(MixedLink::InPlace(link))
        }
    }
}

impl Spawner for MixedSpawner {
    type Link = MixedLink;

    ghost use Rattle.px_test_links.specs.MixedSpawners.{Starts, Ends};

    ghost told = { λ s. Some (numbers_of s.tally) };

    ghost starts = { Starts };

    ghost ends = { Ends };

    ghost links = { λ s. s.tally.running };

    ghost count = { λ s. s.tally.faults };

    fn faults(&self) -> u64 {
        self.tally.faults()
    }

    fn running(&self) -> u64 {
        self.tally.running()
    }

    fn start<R: Wait>(
        &mut self,
        _rt: &R,
        _program: &str,
        _number: u32,
    ) -> Result<MixedLink, Failed> {
        if self.fails_now() {
            self.tally.fail();
            return Err(Failed);
        }
        if self.tally.is_full() {
            self.tally.fail();
            return Err(Failed);
        }
        match next_link(self.alloc, &mut self.plans) {
            Some(link) => {
                self.tally.start();
                Ok(link)
            }
            None => {
                self.tally.fail();
                Err(Failed)
            }
        }
    }

    fn end<R: Wait>(&mut self, _rt: &R, link: MixedLink) {
        self.tally.end(link.given());
    }
}
