ghost use Rattle.std.specs.Prelude.{◌≡◌, true, IfSome};
ghost use Rattle.px_drivers.specs.declared.driver.DriverState.TheVariants as stands;
ghost use Rattle.px_drivers.specs.Drivers.{GoesOn, IsDriven, AreDriven};

use crate::driver::joined;
use crate::{Driver, DriverState};
use px_book::{Book, Receipt};
use px_callgraph::Job;
use px_pieces::{Honesty, Lost, Piece, Who};
use px_pool::{Link, exchange};
use px_terms::NoMemory;
use std::alloc::Global;
use std::sync::ledger::Ledger;
use std::sync::{Condvar, Mutex, Wait};
use std::thread;
use std::thread::Threads;

/// Runs the drivers, each in a thread of its own where one can be made. Each claims, exchanges, and publishes or loses,
/// again and again, until nothing is left for it to claim and nothing is held, or until a claim or an exchange is refused.
/// One that is lost does nothing.
///
/// It may wait for workers for ever.
pub fn round<R: Threads + Wait + Sync, K: Link, L: Ledger + Send + Sync>(
    rt: &R,
    alloc: Global,
    book: &Mutex<Book<K::Word, L>>,
    wake: &Condvar,
    drivers: &mut [Driver<K, L>],
)
    ensures { AreDriven drivers.old drivers.new }
{
    let threads = drivers.len();
    if threads > 0 {
        thread::for_each_mut(
            rt,
            drivers,
            threads,
            &|_, driver| drive(rt, alloc, book, wake, driver),
        );
    }
}

// The round of one driver.
fn drive<R: Wait, K: Link, L: Ledger>(
    rt: &R,
    alloc: Global,
    book: &Mutex<Book<K::Word, L>>,
    wake: &Condvar,
    driver: &mut Driver<K, L>,
)
    ensures { IsDriven driver.old driver.new }
{
    match driver.state {
        DriverState::Lost(_) => {}
        DriverState::Ready | DriverState::NoMemory => {
            driver.state = DriverState::Ready;
            work(rt, alloc, book, wake, driver);
        }
    }
}

// Claims and exchanges until there is an end of it.
fn work<R: Wait, K: Link, L: Ledger>(
    rt: &R,
    alloc: Global,
    book: &Mutex<Book<K::Word, L>>,
    wake: &Condvar,
    driver: &mut Driver<K, L>,
)
    requires { driver.old.state ≡ stands.Ready }
    ensures { GoesOn driver.old driver.new }
{
    for _ in rt.forever() {
        match claim_or_wait(rt, book, wake, Who::Worker(driver.number)) {
            Ok(Some(job)) => {
                if !turn(rt, alloc, book, wake, driver, job) {
                    return;
                }
            }
            Ok(None) => return,
            Err(NoMemory) => {
                driver.state = DriverState::NoMemory;
                return;
            }
        }
    }
}

// The job of the next procedure. While there is none and something is held, it waits for what comes of that; where nothing is
// held, there will be none.
fn claim_or_wait<R: Wait, H: Honesty, L: Ledger>(
    rt: &R,
    book: &Mutex<Book<H, L>>,
    wake: &Condvar,
    who: Who,
) -> Result<Option<Job>, NoMemory> {
    let mut guard = book.lock(rt);
    for _ in rt.forever() {
        if let Some(job) = guard.claim(who)? {
            return Ok(Some(job));
        }
        if !guard.held_elsewhere() {
            return Ok(None);
        }
        guard = wake.wait(rt, guard);
    }
    Ok(None)
}

// One exchange for a job that was claimed, with the lock let go, and what comes of it. Whether the driver may claim again.
fn turn<R: Wait, K: Link, L: Ledger>(
    rt: &R,
    alloc: Global,
    book: &Mutex<Book<K::Word, L>>,
    wake: &Condvar,
    driver: &mut Driver<K, L>,
    job: Job,
) -> bool
    requires { driver.old.state ≡ stands.Ready }
    ensures ready { result ≡ true → driver.new.state ≡ stands.Ready }
    ensures later { GoesOn driver.old driver.new }
{
    match exchange(rt, alloc, &mut driver.link, &job, driver.version) {
        Ok(piece) => {
            let receipt = publish(rt, book, wake, job.ticket, piece);
            driver.receipts = joined(driver.receipts.take(), receipt);
            true
        }
        Err(why) => {
            lose(rt, book, wake, job.ticket, why);
            driver.state = DriverState::Lost(why);
            driver.kept = Some(job);
            false
        }
    }
}

// Publishes a piece, and wakes all who wait. A piece that isn't due is dropped.
fn publish<R: Wait, H: Honesty, L: Ledger>(
    rt: &R,
    book: &Mutex<Book<H, L>>,
    wake: &Condvar,
    ticket: u64,
    piece: Piece<H>,
) -> Option<Receipt<L>>
    ensures { IfSome result (λ receipt. receipt ≡ 1) }
{
    let published = book.lock(rt).publish(ticket, piece);
    wake.notify_all();
    published.ok()
}

// Lets what is held under a ticket wait again, and wakes all who wait.
fn lose<R: Wait, H: Honesty, L: Ledger>(
    rt: &R,
    book: &Mutex<Book<H, L>>,
    wake: &Condvar,
    ticket: u64,
    why: Lost,
) {
    let _lost = book.lock(rt).lose(ticket, why);
    wake.notify_all();
}
