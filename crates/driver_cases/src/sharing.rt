ghost use Rattle.std.specs.Prelude.{◌≡◌, ◌<◌, length};
ghost use Rattle.px_callgraph.specs.CallGraphs.{bodies_in, IsGraphOf};

use crate::accounts::{Account, account_of};
use crate::programs::Loaded;
use anyhow::{Result, bail};
use px_base::Limits;
use px_book::Book;
use px_drivers::rounds;
use px_findings::{DeskParts, desk_parts};
use px_pool::{Link, Spawner};
use px_terms::{BlockType, Items};
use std::alloc::Global;
use std::marker::Brand;
use std::sync::ledger::{Blank, Ledger};
use std::sync::{Condvar, Mutex, Wait};
use std::thread::Threads;

/// How many procedures a program may have.
const MOST: u32 = 9_999;

/// What rounds of so many workers come to, over a new book of the program. The file is what a worker runs where it is a child.
pub fn shared<R: Threads + Wait + Sync, S: Spawner>(
    rt: &R,
    alloc: Global,
    spawner: &mut S,
    file: &String,
    loaded: &Loaded,
    workers: u32,
) -> Result<Account> {
    let parts = desk_parts(alloc, &loaded.program)?;
    if parts.kept > MOST {
        bail!("too many procedures");
    }
    let types = loaded.program.types.copy(alloc)?;
    shared_by::<Brand, R, S>(
        rt,
        alloc,
        Blank::new(10_000),
        spawner,
        file,
        parts,
        types,
        workers,
    )
}

fn shared_by<L: Ledger + Send + Sync, R: Threads + Wait + Sync, S: Spawner>(
    rt: &R,
    alloc: Global,
    blank: Blank,
    spawner: &mut S,
    file: &String,
    parts: DeskParts,
    types: Items<BlockType>,
    workers: u32,
) -> Result<Account>
    requires name { blank.name ≡ L.name }
    requires parts { blank.parts ≡ L.parts }
    requires enough { parts.kept < L.parts }
    requires many { length parts.bodies ≡ parts.kept }
    requires kept { length parts.graph ≡ parts.kept }
    requires graph { IsGraphOf (bodies_in parts.bodies) parts.graph }
{
    let (total, all) = blank.open::<L>();
    let DeskParts {
        bodies,
        graph,
        kept,
        out,
    } = parts;
    let limits = Limits::new(3, 64, 10_000)?;
    let kinds = Items::new(alloc);
    let book: Book<<S::Link as Link>::Word, L> = Book::new(
        alloc, total, all, bodies, graph, types, limits, kinds, kept, out,
    )?;
    let book = Mutex::new(book);
    let end = rounds(rt, alloc, spawner, file, workers, &book, &Condvar::new())?;
    let book = book.lock(rt);
    let (receipts, left) = (end.receipts.as_slice(), end.left.as_slice());
    account_of(alloc, book.history(), receipts, left, spawner.running())
}
