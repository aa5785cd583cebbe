ghost use Rattle.std.specs.Prelude.{◌≡◌, IfOk, OnErr};
ghost use Rattle.px_drivers.specs.Crews.{standing};
ghost use Rattle.px_drivers.specs.Rounds.{IsEnd};

use crate::Rounds;
use crate::crew::Crew;
use px_book::Book;
use px_pool::{Link, Spawner};
use px_terms::NoMemory;
use std::alloc::Global;
use std::sync::ledger::Ledger;
use std::sync::{Condvar, Mutex, Wait};
use std::thread::Threads;

/// Starts so many workers and runs rounds of their drivers. After each round, each link that was lost is ended and its
/// worker started again, until one has lost four links; where none was started again, the rounds are over, and all
/// links are ended. The program is what a worker runs where it is a child.
///
/// A worker is asked in version 2. Once a link of it ended before a byte of a reply came, it is asked in version 1 for the rest of the
/// rounds: so one that knows no other version answers from its second link on. No other loss changes the version.
///
/// `NoMemory` comes before a worker is started. It may wait for workers for ever.
pub fn rounds<R: Threads + Wait + Sync, S: Spawner, L: Ledger + Send + Sync>(
    rt: &R,
    alloc: Global,
    spawner: &mut S,
    program: &str,
    workers: u32,
    book: &Mutex<Book<<S::Link as Link>::Word, L>>,
    wake: &Condvar,
) -> Result<Rounds<L>, NoMemory>
    ensures end { IfOk result (λ e. IsEnd workers (standing (S.told spawner.old) (S.links spawner.old) (S.count spawner.old)) (standing (S.told spawner.new) (S.links spawner.new) (S.count spawner.new)) e.receipts e.left) }
    ensures unstarted { OnErr result (spawner.new ≡ spawner.old) }
{
    let mut crew = Crew::new(alloc, workers)?;
    crew.start_all(rt, spawner, program);
    for _ in rt.forever() {
        crew.round(rt, alloc, book, wake);
        if !crew.start_again(rt, spawner, program) {
            break;
        }
    }
    Ok(crew.finish(rt, spawner))
}
