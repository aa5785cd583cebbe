ghost use Rattle.std.specs.Prelude.{◌≡◌, ◌+◌, ◌-◌, ◌^◌, ◌<◌, ◌≤◌, ◌∷◌, ◌↔◌, min, Some, IsSome, IsNone, IfSome};
ghost use Rattle.px_pool.specs.Counting.{numbers_of};

use crate::{Script, ScriptLink, Spawner, Tally};
use px_io::Failed;
use std::alloc::Global;
use std::sync::Wait;
use std::vec::IntoIter;

/// Starts links in memory: the scripts of these, in order, and the starts that fail, counted from 0. A start for which
/// no script is left fails.
#[derive(Drop)]
pub struct ScriptSpawner {
    alloc: Global,
    scripts: IntoIter<Script, Global>,
    failing: Vec<u64>,
    calls: u64,
    tally: Tally,
}

impl ScriptSpawner {
    ghost use Rattle.px_pool.specs.ScriptSpawner.{IsNew, Fails, left};

    /// A spawner that has started nothing. Takes no memory.
    pub fn new(alloc: Global, scripts: Vec<Script>, failing: Vec<u64>) -> ScriptSpawner
        ensures { IsNew result scripts.items failing.items }
    {
        ScriptSpawner {
            alloc,
            scripts: scripts.into_iter(),
            failing,
            calls: 0,
            tally: Tally::new(),
        }
    }

    // The script of the next link, unless its start fails.
    fn next_script(&mut self) -> Option<Script>
        ensures tally { self.new.tally ≡ self.old.tally }
        ensures counted { IsSome result → self.old.tally.started < 2 ^ 64 - 1 }
        ensures running { self.old.tally.running ≤ self.old.tally.started }
        ensures failing { self.new.failing ≡ self.old.failing }
        ensures calls { self.new.calls ≡ min (self.old.calls + 1) (2 ^ 64 - 1) }
        ensures fails { IsNone result ↔ Fails self.old }
        ensures next { IfSome result (λ script. left self.old ≡ script ∷ left self.new) }
        ensures unspent { IsNone result → left self.new ≡ left self.old }
    {
        let call = self.calls;
        self.calls = call.saturating_add(1);
        if self.tally.is_full() {
            return None;
        }
        if self.failing.contains(&call) {
            return None;
        }
        self.scripts.next()
    }
}

impl Spawner for ScriptSpawner {
    type Link = ScriptLink;

    ghost use Rattle.px_pool.specs.ScriptSpawner.{Starts, Ends};

    ghost told = { λ s. Some (numbers_of s.tally) };

    ghost starts = { Starts };

    ghost ends = { Ends };

    ghost links = { λ s. s.tally.running };

    ghost count = { λ s. s.tally.faults };

    fn faults(&self) -> u64 {
        self.tally.faults()
    }

    fn running(&self) -> u64 {
        self.tally.running()
    }

    fn start<R: Wait>(
        &mut self,
        _rt: &R,
        _program: &str,
        _number: u32,
    ) -> Result<ScriptLink, Failed> {
        match self.next_script() {
            Some(script) => {
                self.tally.start();
                Ok(ScriptLink::new(self.alloc, script))
            }
            None => {
                self.tally.fail();
                Err(Failed)
            }
        }
    }

    fn end<R: Wait>(&mut self, _rt: &R, link: ScriptLink) {
        self.tally.end(link.given());
    }
}
