ghost use Rattle.std.specs.Prelude.{◌≡◌, ℕ, ◌+◌, ◌-◌, ◌^◌, ◌<◌, ◌≤◌, ◌↔◌, IsTrue, Some};
ghost use Rattle.px_io.specs.Faults.{RoseOnce};
ghost use Rattle.px_pool.specs.Starts.{Counts, CountsEnded, HasFrames};
ghost use Rattle.px_pool.specs.Counting.{numbers_of};

use crate::whole_frames::whole_frames;
use std::marker::Model;

/// What a spawner counts: the links that run, those that were started, the whole frames that ended ones gave, and the
/// starts that failed.
#[derive(Drop)]
pub struct Tally {
    running: u64,
    started: u64,
    given: u128,
    faults: u64,
}

impl Model for Tally {
    ghost use Rattle.std.specs.Prelude.{◌-◌, ◌*◌, ◌≤◌};
    ghost use Rattle.px_pool.specs.Counting.{Counted};

    ghost Value = { Counted };

    ghost view = { λ t. record { running = t.running; started = t.started; given = t.given; faults = t.faults } };

    // Each ended link gave fewer frames than a slice has bytes.
    ghost invariant = { λ t. (t.running ≤ t.started) × (t.given ≤ 18446744073709551615 * (t.started - t.running)) };
}

impl Tally {
    /// Nothing was counted.
    pub fn new() -> Tally
        ensures { result ≡ record { running = 0; started = 0; given = 0; faults = 0 } }
    {
        Tally {
            running: 0,
            started: 0,
            given: 0,
            faults: 0,
        }
    }

    /// How many links run.
    pub fn running(&self) -> u64
        ensures { result ≡ self.now.running }
    {
        self.running
    }

    /// How many starts have failed, or 2^64 - 1 where there were more.
    pub fn faults(&self) -> u64
        ensures { result ≡ self.now.faults }
    {
        self.faults
    }

    /// Whether as many links were started as can be counted.
    pub fn is_full(&self) -> bool
        ensures full { IsTrue result ↔ 2 ^ 64 - 1 ≤ self.now.started }
        ensures running { self.now.running ≤ self.now.started }
    {
        self.started == u64::MAX
    }

    /// One link more was started.
    pub fn start(&mut self)
        requires { self.old.started < 2 ^ 64 - 1 }
        ensures running { self.new.running ≡ self.old.running + 1 }
        ensures counts { Counts (Some (numbers_of self.old)) (Some (numbers_of self.new)) 0 1 }
        ensures faults { self.new.faults ≡ self.old.faults }
    {
        self.running += 1;
        self.started += 1;
    }

    /// One start more has failed.
    pub fn fail(&mut self)
        ensures running { self.new.running ≡ self.old.running }
        ensures counts { Counts (Some (numbers_of self.old)) (Some (numbers_of self.new)) 0 0 }
        ensures never_falls { self.old.faults ≤ self.new.faults }
        ensures rose { RoseOnce self.old.faults self.new.faults }
    {
        self.faults = self.faults.saturating_add(1);
    }

    /// One link has ended, which gave these bytes in all.
    pub fn end(&mut self, given: &[u8])
        requires { 0 < self.old.running }
        ensures running { self.new.running + 1 ≡ self.old.running }
        ensures counts { (n : ℕ) × HasFrames given.now n × Counts (Some (numbers_of self.old)) (Some (numbers_of self.new)) n 0 }
        ensures faults { self.new.faults ≡ self.old.faults }
    {
        self.running -= 1;
        self.given += u128::from(whole_frames(given));
    }
}
