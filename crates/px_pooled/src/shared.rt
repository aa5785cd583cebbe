ghost use Rattle.std.specs.Prelude.{◌≡◌, ◌<◌, ◌≤◌, map, IfOk, IfSome, [], All};
ghost use Rattle.px_syntax.specs.ProgramTree.{ProgramTree};
ghost use Rattle.px_findings.specs.Found.{AreFoundBy, AreFound};
ghost use Rattle.px_drivers.specs.Crews.{in_all};
ghost use Rattle.px_pooled.specs.Words.{of_workers, Gave, IsCounted};
ghost use Rattle.px_pooled.specs.Making.{ArePartsOf, AreOfParent};

use crate::parent::go_on;
use crate::parts::{Parts, agrees, book_of};
use crate::pooled::Pool;
use crate::tally::tally_of;
use px_book::{Book, Receipt, desk_tallies};
use px_drivers::rounds;
use px_pieces::{Findings, Honest, Honesty, desk_histories};
use px_pool::{Link, Spawner};
use px_terms::{Domain, NoMemory};
use std::alloc::Global;
use std::sync::ledger::{Blank, Ledger};
use std::sync::{Condvar, Mutex, Wait};
use std::thread::Threads;

/// What workers and the parent find over one book of these parts, or none where the book counts as no work.
pub(crate) fn with_workers<L: Ledger + Send + Sync, R: Threads + Wait + Sync, S: Spawner>(
    rt: &R,
    alloc: Global,
    blank: Blank,
    own: &Parts,
    parts: Parts,
    pool: &Pool,
    spawner: &mut S,
    domains: &mut Vec<Box<dyn Domain>>,
) -> Result<Option<Findings>, NoMemory>
    requires name { blank.name ≡ L.name }
    requires parts { blank.parts ≡ L.parts }
    requires enough { parts.desk.kept < L.parts }
    requires own { (P : ProgramTree) × ArePartsOf P own.now.limits (map (λ b. number b) domains.old.items) own.now }
    requires same { (P : ProgramTree) × ArePartsOf P own.now.limits (map (λ b. number b) domains.old.items) parts }
    requires clear { All (λ b. holds b []) domains.old.items }
    ensures found { IfOk result (λ o. IfSome o (λ f. (P : ProgramTree) → ArePartsOf P own.now.limits (map (λ b. number b) domains.old.items) own.now → AreFoundBy S.Link.Word.says P own.now.limits (map (λ b. number b) domains.old.items) f)) }
    ensures all { IfOk result (λ o. IfSome o (λ f. IsCounted f)) }
    ensures given { IfOk result (λ o. IfSome o (λ f. Gave (S.told spawner.old) (S.told spawner.new) (of_workers f.events))) }
    ensures running { S.links spawner.new ≡ S.links spawner.old }
    ensures told { Gave (S.told spawner.old) (S.told spawner.new) 0 }
    ensures clear { All (λ b. holds b []) domains.new.items }
    ensures kinds { map (λ b. number b) domains.new.items ≡ map (λ b. number b) domains.old.items }
{
    let (total, all) = blank.open::<L>();
    let book: Book<<S::Link as Link>::Word, L> = book_of(alloc, total, all, parts)?;
    let book = Mutex::new(book);
    let end = rounds(
        rt,
        alloc,
        spawner,
        program_of(pool),
        pool.workers,
        &book,
        &Condvar::new(),
    )?;
    let receipts = counted(end.receipts.as_slice());
    taken(alloc, book.into_inner(), own, receipts, domains)
}

// The name of the program that a worker runs where it is a child.
fn program_of(pool: &Pool) -> &str {
    match &pool.program {
        Some(name) => name.as_str(),
        None => "",
    }
}

// How many publications receipts count, or 2^64 - 1 where that is more.
fn counted<L: Ledger>(receipts: &[Receipt<L>]) -> u64
    ensures { result ≤ in_all receipts.now }
{
    let mut all = 0u64;
    for receipt in receipts {
        all = all.saturating_add(receipt.count());
    }
    all
}

// What a book comes to after rounds, when the parent has done the rest; none, where it isn't of the parent's own parts, or
// something is still held, or the workers published not as much as the receipts count.
fn taken<H: Honesty, L: Ledger>(
    alloc: Global,
    book: Book<H, L>,
    own: &Parts,
    receipts: u64,
    domains: &mut Vec<Box<dyn Domain>>,
) -> Result<Option<Findings>, NoMemory>
    requires own { (P : ProgramTree) × ArePartsOf P own.now.limits (map (λ b. number b) domains.old.items) own.now }
    requires clear { All (λ b. holds b []) domains.old.items }
    ensures found { IfOk result (λ o. IfSome o (λ f. (P : ProgramTree) → ArePartsOf P own.now.limits (map (λ b. number b) domains.old.items) own.now → AreFoundBy H.says P own.now.limits (map (λ b. number b) domains.old.items) f)) }
    ensures all { IfOk result (λ o. IfSome o (λ f. IsCounted f)) }
    ensures receipts { IfOk result (λ o. IfSome o (λ f. of_workers f.events ≡ receipts)) }
    ensures clear { All (λ b. holds b []) domains.new.items }
    ensures kinds { map (λ b. number b) domains.new.items ≡ map (λ b. number b) domains.old.items }
{
    desk_histories();
    desk_tallies();
    let mut book = book;
    if !agrees(&book, own) {
        return Ok(None);
    }
    go_on(alloc, &mut book, own.desk.kept, domains)?;
    if tally_of(book.history()).by_workers != receipts {
        return Ok(None);
    }
    Ok(book.finish().ok())
}

/// What the parent finds alone over a book of these parts.
pub(crate) fn alone<L: Ledger>(
    alloc: Global,
    blank: Blank,
    parts: Parts,
    domains: &mut Vec<Box<dyn Domain>>,
) -> Result<Findings, NoMemory>
    requires name { blank.name ≡ L.name }
    requires parts { blank.parts ≡ L.parts }
    requires enough { parts.desk.kept < L.parts }
    requires own { (P : ProgramTree) × ArePartsOf P parts.limits (map (λ b. number b) domains.old.items) parts }
    requires clear { All (λ b. holds b []) domains.old.items }
    ensures found { IfOk result (λ f. (P : ProgramTree) → ArePartsOf P parts.limits (map (λ b. number b) domains.old.items) parts → AreFound P parts.limits (map (λ b. number b) domains.old.items) f) }
    ensures all { IfOk result (λ f. IsCounted f) }
    ensures alone { IfOk result (λ f. AreOfParent f.events) }
    ensures clear { All (λ b. holds b []) domains.new.items }
    ensures kinds { map (λ b. number b) domains.new.items ≡ map (λ b. number b) domains.old.items }
{
    desk_histories();
    desk_tallies();
    let (total, all) = blank.open::<L>();
    let kept = parts.desk.kept;
    let mut book: Book<Honest, L> = book_of(alloc, total, all, parts)?;
    go_on(alloc, &mut book, kept, domains)?;
    match book.finish() {
        Ok(findings) => Ok(findings),
        Err(_) => unreachable!(),
    }
}
