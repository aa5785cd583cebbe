ghost use Rattle.std.specs.Prelude.{◌≡◌, ◌⊎◌, ◌+◌, ◌∷◌, ◌++◌, ◌<◌, ◌≤◌, [], ℕ, true, false, length, IfOk, IfSome, IfNone};
ghost use Rattle.px_pool.specs.Starts.{CountsEnded};
ghost use Rattle.px_drivers.specs.Drivers.{counted, published, IsKept, AreDriven};
ghost use Rattle.px_drivers.specs.Crews.{Standing, standing, in_all, all_published, AreShared, Joins, MayGoOn, FirstMayGoOn, GoOn, IsAccount, IsAccountOf, IsAccountWith};
ghost use Rattle.px_drivers.specs.Rounds.{IsEnd};

use crate::driver::{Past, next_version};
use crate::driving::round;
use crate::{Driver, DriverState, Leaving, Rounds};
use px_book::{Book, Receipt};
use px_io::Failed;
use px_pool::{Link, Spawner};
use px_terms::{Items, NoMemory};
use px_wire::SHARED;
use std::alloc::Global;
use std::marker::Model;
use std::sync::ledger::Ledger;
use std::sync::{Condvar, Mutex, Wait};
use std::thread::Threads;

/// How many links a worker may lose.
const MOST_LOSSES: u32 = 4;

/// The workers of rounds: the drivers that go on, and what came of the others. The room for all of them was taken.
pub(crate) struct Crew<S: Spawner, L: Ledger> {
    drivers: Vec<Driver<S::Link, L>>,
    // Of each worker that published and doesn't go on, joined.
    receipts: Vec<Receipt<L>>,
    left: Vec<(u32, Leaving)>,
    // How many workers there may be, and how many of them may still join.
    workers: u32,
    room: u32,
}

impl<S: Spawner, L: Ledger> Model for Crew<S, L> {
    ghost use Rattle.std.specs.Coded.{codes};
    ghost use Rattle.std.specs.Prelude.{◌+◌, ◌≤◌, length};
    ghost use Rattle.std.specs.Vec.{vec_capacity};
    ghost use Rattle.px_callgraph.specs.contracts.jobs.Job as job_row;
    ghost use Rattle.px_drivers.specs.Crews.{CrewParts, HaveLostFew};

    ghost Value = { CrewParts };

    ghost coded = { Prim.hlevel (codes, job_row.the_row.coded) };

    ghost view = { λ c. record { drivers = c.drivers.items; receipts = c.receipts.items; left = c.left.items; workers = c.workers; room = c.room } };

    ghost invariant = { λ c. (c.workers ≤ vec_capacity c.drivers)
        × (c.workers ≤ vec_capacity c.receipts)
        × (c.workers ≤ vec_capacity c.left)
        × (length c.drivers.items + length c.receipts.items + c.room ≤ c.workers)
        × (length c.drivers.items + length c.left.items + c.room ≤ c.workers)
        × HaveLostFew c.drivers.items };
}

impl<S: Spawner, L: Ledger> Crew<S, L> {
    /// No workers, and the room for so many.
    pub(crate) fn new(alloc: Global, workers: u32) -> Result<Crew<S, L>, NoMemory>
        ensures { IfOk result (λ c. c ≡ record { drivers = []; receipts = []; left = []; workers = workers; room = workers }) }
    {
        let many = workers as usize;
        let receipts = Vec::with_capacity(alloc, many)?;
        let left = Vec::with_capacity(alloc, many)?;
        let drivers = Vec::with_capacity(alloc, many)?;
        Ok(Crew {
            drivers,
            receipts,
            left,
            workers,
            room: workers,
        })
    }

    /// Starts all workers that may join. Each is asked in version 2.
    pub(crate) fn start_all<R: Wait>(&mut self, rt: &R, spawner: &mut S, program: &str)
        ensures workers { self.new.workers ≡ self.old.workers }
        ensures shared { AreShared self.old.drivers → AreShared self.new.drivers }
        ensures account { (a : Standing) → IsAccount a (standing (S.told spawner.old) (S.links spawner.old) (S.count spawner.old)) self.old → IsAccount a (standing (S.told spawner.new) (S.links spawner.new) (S.count spawner.new)) self.new }
    {
        let many = self.room;
        for number in 0..many {
            let past = Past {
                losses: 0,
                receipts: None,
            };
            self.hire(rt, spawner, program, number, SHARED, past);
        }
    }

    // Starts a link for a worker with this past, which is asked in this version, or leaves the worker. Whether the link was
    // started.
    fn hire<R: Wait>(
        &mut self,
        rt: &R,
        spawner: &mut S,
        program: &str,
        number: u32,
        version: u8,
        past: Past<L>,
    ) -> bool
        requires room { 0 < self.old.room }
        requires version { (version ≡ 1) ⊎ (version ≡ 2) }
        requires losses { past.losses < 4 }
        ensures workers { self.new.workers ≡ self.old.workers }
        ensures room { self.new.room + 1 ≡ self.old.room }
        ensures links { length self.new.drivers + S.links spawner.old ≡ length self.old.drivers + S.links spawner.new }
        ensures published { all_published self.new ≡ all_published self.old + counted past.receipts }
        ensures asked { result ≡ true → Joins number version self.old.drivers self.new.drivers }
        ensures left { result ≡ false → self.new.drivers ≡ self.old.drivers }
        ensures account { (a : Standing) → IsAccountOf a (standing (S.told spawner.old) (S.links spawner.old) (S.count spawner.old)) self.old.drivers (in_all self.old.receipts + counted past.receipts) self.old.left past.losses → IsAccount a (standing (S.told spawner.new) (S.links spawner.new) (S.count spawner.new)) self.new }
    {
        match spawner.start(rt, program, number) {
            Ok(link) => {
                self.join(Driver::again(number, version, link, past));
                true
            }
            Err(Failed) => {
                self.leave(number, Leaving::Start, past);
                false
            }
        }
    }

    // Takes on a driver.
    fn join(&mut self, driver: Driver<S::Link, L>)
        requires room { 0 < self.old.room }
        requires losses { driver.losses < 4 }
        ensures workers { self.new.workers ≡ self.old.workers }
        ensures room { self.new.room + 1 ≡ self.old.room }
        ensures drivers { self.new.drivers ≡ self.old.drivers ++ driver ∷ [] }
        ensures receipts { self.new.receipts ≡ self.old.receipts }
        ensures left { self.new.left ≡ self.old.left }
    {
        self.room -= 1;
        self.drivers.push_reserved(driver);
    }

    // Leaves a worker with this past.
    fn leave(&mut self, number: u32, why: Leaving, past: Past<L>)
        requires { 0 < self.old.room }
        ensures workers { self.new.workers ≡ self.old.workers }
        ensures room { self.new.room + 1 ≡ self.old.room }
        ensures drivers { self.new.drivers ≡ self.old.drivers }
        ensures receipts { in_all self.new.receipts ≡ in_all self.old.receipts + counted past.receipts }
        ensures left { self.new.left ≡ self.old.left ++ (number, why) ∷ [] }
    {
        self.room -= 1;
        self.left.push_reserved((number, why));
        if let Some(receipts) = past.receipts {
            self.receipts.push_reserved(receipts);
        }
    }

    // The first driver, if there is one.
    fn first(&mut self) -> Option<Driver<S::Link, L>>
        ensures workers { self.new.workers ≡ self.old.workers }
        ensures some { IfSome result (λ d. (self.old.drivers ≡ d ∷ self.new.drivers) × (self.new.room ≡ self.old.room + 1) × (d.losses < 4)) }
        ensures none { IfNone result ((self.new ≡ self.old) × (self.old.drivers ≡ [])) }
        ensures receipts { self.new.receipts ≡ self.old.receipts }
        ensures left { self.new.left ≡ self.old.left }
    {
        if self.drivers.is_empty() {
            return None;
        }
        self.room += 1;
        Some(self.drivers.remove(0))
    }

    /// Ends each link that was lost, and starts those workers again, but for those that lost their fourth link. Whether one was
    /// started again.
    pub(crate) fn start_again<R: Wait>(&mut self, rt: &R, spawner: &mut S, program: &str) -> bool
        requires links { length self.old.drivers ≤ S.links spawner.old }
        ensures links { length self.new.drivers ≤ S.links spawner.new }
        ensures workers { self.new.workers ≡ self.old.workers }
        ensures versions { GoOn self.old.drivers self.new.drivers }
        ensures account { (a : Standing) → IsAccount a (standing (S.told spawner.old) (S.links spawner.old) (S.count spawner.old)) self.old → IsAccount a (standing (S.told spawner.new) (S.links spawner.new) (S.count spawner.new)) self.new }
    {
        let mut some = false;
        for done in 0..self.drivers.len() {
            some |= self.first_goes_on(rt, spawner, program);
        }
        some
    }

    // What comes of the first driver after a round, if there is one. Whether its worker was started again.
    fn first_goes_on<R: Wait>(&mut self, rt: &R, spawner: &mut S, program: &str) -> bool
        requires links { length self.old.drivers ≤ S.links spawner.old }
        ensures links { length self.new.drivers ≤ S.links spawner.new }
        ensures workers { self.new.workers ≡ self.old.workers }
        ensures versions { FirstMayGoOn self.old.drivers self.new.drivers }
        ensures account { (a : Standing) → IsAccount a (standing (S.told spawner.old) (S.links spawner.old) (S.count spawner.old)) self.old → IsAccount a (standing (S.told spawner.new) (S.links spawner.new) (S.count spawner.new)) self.new }
    {
        match self.first() {
            Some(driver) => self.go_on(rt, spawner, program, driver),
            None => false,
        }
    }

    // What comes of a driver after a round. Whether its worker was started again. A worker whose link ended before a byte of a reply
    // came is asked in version 1 from then on, and any other as before.
    fn go_on<R: Wait>(
        &mut self,
        rt: &R,
        spawner: &mut S,
        program: &str,
        driver: Driver<S::Link, L>,
    ) -> bool
        requires room { 0 < self.old.room }
        requires links { 0 < S.links spawner.old }
        requires losses { driver.losses < 4 }
        ensures workers { self.new.workers ≡ self.old.workers }
        ensures links { length self.new.drivers + S.links spawner.old ≡ length self.old.drivers + 1 + S.links spawner.new }
        ensures published { all_published self.new ≡ all_published self.old + published driver }
        ensures versions { MayGoOn driver self.old.drivers self.new.drivers }
        ensures account { (a : Standing) → IsAccountOf a (standing (S.told spawner.old) (S.links spawner.old) (S.count spawner.old)) (driver ∷ self.old.drivers) (in_all self.old.receipts) self.old.left 0 → IsAccount a (standing (S.told spawner.new) (S.links spawner.new) (S.count spawner.new)) self.new }
    {
        let number = driver.number;
        let version = next_version(driver.version, driver.state());
        match driver.state() {
            DriverState::Ready => {
                self.join(driver);
                false
            }
            DriverState::NoMemory => {
                let past = end(rt, spawner, driver);
                self.leave(number, Leaving::NoMemory, past);
                false
            }
            DriverState::Lost(_) => {
                let past = end(rt, spawner, driver);
                if past.losses == MOST_LOSSES {
                    self.leave(number, Leaving::Losses, past);
                    return false;
                }
                self.hire(rt, spawner, program, number, version, past)
            }
        }
    }

    // Ends the link of a driver that has nothing more to do.
    fn dismiss<R: Wait>(&mut self, rt: &R, spawner: &mut S, driver: Driver<S::Link, L>)
        requires room { 0 < self.old.room }
        requires links { 0 < S.links spawner.old }
        requires losses { driver.losses < 4 }
        ensures workers { self.new.workers ≡ self.old.workers }
        ensures fewer { S.links spawner.new + 1 ≡ S.links spawner.old }
        ensures drivers { self.new.drivers ≡ self.old.drivers }
        ensures published { all_published self.new ≡ all_published self.old + published driver }
        ensures left { self.new.left ≡ self.old.left }
        ensures account { (a : Standing) (most : ℕ) → IsAccountWith a (standing (S.told spawner.old) (S.links spawner.old) (S.count spawner.old)) (driver ∷ self.old.drivers) (in_all self.old.receipts) self.old.left 0 most → IsAccountWith a (standing (S.told spawner.new) (S.links spawner.new) (S.count spawner.new)) self.new.drivers (in_all self.new.receipts) self.new.left 0 most }
    {
        let past = end(rt, spawner, driver);
        self.room -= 1;
        if let Some(receipts) = past.receipts {
            self.receipts.push_reserved(receipts);
        }
    }

    /// Ends the links that run still.
    pub(crate) fn finish<R: Wait>(self, rt: &R, spawner: &mut S) -> Rounds<L>
        requires links { length self.drivers ≤ S.links spawner.old }
        ensures published { in_all result.receipts ≡ all_published self }
        ensures end { (a : Standing) → IsAccount a (standing (S.told spawner.old) (S.links spawner.old) (S.count spawner.old)) self → IsEnd self.workers a (standing (S.told spawner.new) (S.links spawner.new) (S.count spawner.new)) result.receipts result.left }
    {
        // Proofs see here that no driver's worker lost four links.
        let _ = &self.drivers;
        let mut crew = self;
        while let Some(driver) = crew.first() {
            crew.dismiss(rt, spawner, driver);
        }
        let Crew {
            drivers,
            receipts,
            left,
            workers: _,
            room: _,
        } = crew;
        drivers.destroy_empty();
        Rounds {
            receipts: Items::from_vec(receipts),
            left: Items::from_vec(left),
        }
    }
}

impl<S: Spawner, L: Ledger + Send + Sync> Crew<S, L> {
    /// Runs a round of the drivers.
    pub(crate) fn round<R: Threads + Wait + Sync>(
        &mut self,
        rt: &R,
        alloc: Global,
        book: &Mutex<Book<<S::Link as Link>::Word, L>>,
        wake: &Condvar,
    )
        ensures workers { self.new.workers ≡ self.old.workers }
        ensures driven { AreDriven self.old.drivers self.new.drivers }
        ensures account { (a b : Standing) → IsAccount a b self.old → IsAccount a b self.new }
    {
        round(rt, alloc, book, wake, &mut self.drivers);
    }
}

// Ends the link of a driver, which is one more that its worker had.
fn end<R: Wait, S: Spawner, L: Ledger>(
    rt: &R,
    spawner: &mut S,
    driver: Driver<S::Link, L>,
) -> Past<L>
    requires links { 0 < S.links spawner.old }
    requires losses { driver.losses < 4 }
    ensures fewer { S.links spawner.new + 1 ≡ S.links spawner.old }
    ensures given { CountsEnded (S.told spawner.old) (S.told spawner.new) driver.told }
    ensures count { S.count spawner.new ≡ S.count spawner.old }
    ensures losses { result.losses ≡ driver.losses + 1 }
    ensures receipts { counted result.receipts ≡ published driver }
    ensures kept { IsKept driver }
{
    let (link, past) = driver.retire();
    spawner.end(rt, link);
    let Past { losses, receipts } = past;
    Past {
        losses: losses + 1,
        receipts,
    }
}
