ghost use Rattle.std.specs.Prelude.{◌≡◌};

use crate::calls::{Call, Change};
use crate::programs::{Program, bodies, graph};
use crate::texts::{parts_text, status_text};
use anyhow::{Context, Result, bail};
use px_base::{Limits, ProcId};
use px_book::{Book, NotHeld, PublishFault, Receipt};
use px_callgraph::{Job, copy_job};
use px_core::Body;
use px_pieces::{Lost, Piece, Unknown, Who};
use px_terms::Items;
use std::alloc::Global;
use std::sync::ledger::{Book as Total, Ledger, Share};

/// How many procedures a program may have.
const MOST: u32 = 9_999;

/// A book, and what came of the calls so far.
#[derive(Drop)]
pub struct Case<L: Ledger> {
    program: Program,
    // None once it is finished.
    book: Option<Book<Unknown, L>>,
    // What was claimed.
    jobs: Vec<Job>,
    // All receipts, joined.
    receipts: Option<Receipt<L>>,
}

impl<L: Ledger> Case<L> {
    /// The book of a program, without block types and domains.
    pub fn new(alloc: Global, total: Total<L>, all: Share<L>, program: Program) -> Result<Case<L>>
        requires total { total.total ≡ 0 }
        requires amount { all.amount ≡ 0 }
        requires parts { all.parts ≡ 10000 }
    {
        let bodies = bodies(alloc, &program)?;
        let kept = u32::try_from(bodies.len())?;
        if kept > MOST {
            bail!("too many procedures");
        }
        let graph = graph(alloc, &program, bodies.as_slice(), kept)?;
        let book = Book::new(
            alloc,
            total,
            all,
            bodies,
            graph,
            Items::new(alloc),
            Limits::new(3, 64, 10000)?,
            Items::new(alloc),
            kept,
            Items::from_slice(alloc, &program.out)?,
        )?;
        Ok(Case {
            program,
            book: Some(book),
            jobs: Vec::new(alloc),
            receipts: None,
        })
    }

    /// What the book answers.
    pub fn answer(&mut self, alloc: Global, call: Call) -> Result<String> {
        match call {
            Call::Claim(who) => self.claim(alloc, who),
            Call::Publish { ticket, claimed } => {
                let job = self.claimed(alloc, claimed)?;
                self.publish(alloc, ticket, job)
            }
            Call::Other { ticket } => {
                let mut job = self.claimed(alloc, ticket)?;
                job.body.slots = 7;
                self.publish(alloc, ticket, job)
            }
            Call::Lose { ticket, why } => self.lose(alloc, ticket, why),
            Call::Status(proc) => self.status(alloc, proc),
            Call::Settled(proc) => self.settled(alloc, proc),
            Call::Held => yes_or_no(alloc, self.open()?.held_elsewhere()),
            Call::Agrees(change) => self.agrees(alloc, change),
            Call::Receipts => self.count(alloc),
            Call::Finish => self.finish(alloc),
            Call::Run => self.run(alloc),
        }
    }

    fn open(&self) -> Result<&Book<Unknown, L>> {
        self.book.as_ref().context("the book is finished")
    }

    fn claim(&mut self, alloc: Global, who: Who) -> Result<String> {
        let book = self.book.as_mut().context("the book is finished")?;
        let Some(job) = book.claim(who)? else {
            return Ok(String::from_str(alloc, "none")?);
        };
        let text = format!(in alloc; "{} under {}", job.proc.0, job.ticket)?;
        self.jobs.push(job)?;
        Ok(text)
    }

    // A copy of the job that was claimed under a ticket.
    fn claimed(&self, alloc: Global, ticket: u64) -> Result<Job> {
        for job in &self.jobs {
            if job.ticket == ticket {
                return Ok(copy_job(alloc, job)?);
            }
        }
        bail!("nothing was claimed under this ticket")
    }

    fn publish(&mut self, alloc: Global, ticket: u64, job: Job) -> Result<String> {
        let book = self.book.as_mut().context("the book is finished")?;
        match book.publish(ticket, empty_piece(alloc, job)) {
            Ok(receipt) => {
                self.keep(receipt);
                Ok(String::from_str(alloc, "ok")?)
            }
            Err(PublishFault::Stranger { kept, .. }) => {
                let status = status_text(alloc, kept)?;
                Ok(format!(in alloc; "stranger {status}")?)
            }
        }
    }

    fn keep(&mut self, receipt: Receipt<L>) {
        self.receipts = match self.receipts.take() {
            Some(receipts) => Some(receipts.join(receipt)),
            None => Some(receipt),
        };
    }

    fn lose(&mut self, alloc: Global, ticket: u64, why: Lost) -> Result<String> {
        let book = self.book.as_mut().context("the book is finished")?;
        let text = match book.lose(ticket, why) {
            Ok(()) => "ok",
            Err(NotHeld) => "not held",
        };
        Ok(String::from_str(alloc, text)?)
    }

    fn status(&self, alloc: Global, proc: ProcId) -> Result<String> {
        let book = self.open()?;
        if !book.is_of_desk(proc) {
            return status_text(alloc, None);
        }
        status_text(alloc, Some(*book.status(proc)))
    }

    fn settled(&self, alloc: Global, proc: ProcId) -> Result<String> {
        match self.open()?.settled(proc) {
            Some(checked) => Ok(format!(in alloc; "{} entries", checked.len())?),
            None => Ok(String::from_str(alloc, "none")?),
        }
    }

    // Whether the book was made of these parts, but for a change.
    fn agrees(&self, alloc: Global, change: Change) -> Result<String> {
        let book = self.open()?;
        let mut parts = parts_of(alloc, &self.program)?;
        put_change(&mut parts, change)?;
        yes_or_no(alloc, is_made_of(book, &parts)?)
    }

    fn count(&self, alloc: Global) -> Result<String> {
        let count = match &self.receipts {
            Some(receipts) => receipts.count(),
            None => 0,
        };
        Ok(format!(in alloc; "{count}")?)
    }

    // The parts and the number of the events, where all is settled.
    fn finish(&mut self, alloc: Global) -> Result<String> {
        let book = self.book.take().context("the book is finished")?;
        match book.finish() {
            Ok(findings) => {
                let parts = parts_text(alloc, findings.parts())?;
                let events = findings.events().len();
                Ok(format!(in alloc; "findings {parts} {events}")?)
            }
            Err(book) => {
                self.book = Some(book);
                Ok(String::from_str(alloc, "back")?)
            }
        }
    }

    // How many procedures the parent is given, each of which it publishes.
    fn run(&mut self, alloc: Global) -> Result<String> {
        let mut count = 0;
        for turn in 0..MOST {
            let book = self.book.as_mut().context("the book is finished")?;
            let Some(job) = book.claim(Who::Parent)? else {
                break;
            };
            let ticket = job.ticket;
            self.publish(alloc, ticket, job)?;
            count = turn.saturating_add(1);
        }
        Ok(format!(in alloc; "{count} published")?)
    }
}

// What a book without block types is made of. It is one value, since a choice that changes one of many variables leaves
// goals about each of them.
#[derive(Drop)]
struct BookParts {
    bodies: Vec<Body>,
    turns: u32,
    kinds: Vec<u8>,
    kept: u32,
    out: Vec<ProcId>,
}

fn parts_of(alloc: Global, program: &Program) -> Result<BookParts> {
    let bodies = bodies(alloc, program)?.into_vec();
    let kept = u32::try_from(bodies.len())?;
    Ok(BookParts {
        bodies,
        turns: 3,
        kinds: Vec::new(alloc),
        kept,
        out: Vec::from_slice(alloc, &program.out)?,
    })
}

fn put_change(parts: &mut BookParts, change: Change) -> Result<()> {
    match change {
        Change::Same => {}
        Change::Body => parts.bodies.last_mut().context("no body")?.slots = 7,
        Change::Limits => parts.turns = 4,
        Change::Kinds => parts.kinds.push(1)?,
        Change::Kept => parts.kept = parts.kept.saturating_add(1),
        Change::Out => parts.out.push(ProcId(0))?,
    }
    Ok(())
}

fn is_made_of<L: Ledger>(book: &Book<Unknown, L>, parts: &BookParts) -> Result<bool> {
    let limits = Limits::new(parts.turns, 64, 10000)?;
    Ok(book.agrees(
        &parts.bodies,
        &[],
        limits,
        &parts.kinds,
        parts.kept,
        &parts.out,
    ))
}

// A piece without entries and drops: this word says each table.
fn empty_piece(alloc: Global, job: Job) -> Piece<Unknown> {
    Piece::new(job, Items::new(alloc), Items::new(alloc))
}

fn yes_or_no(alloc: Global, is_so: bool) -> Result<String> {
    Ok(String::from_str(alloc, if is_so { "yes" } else { "no" })?)
}
