ghost use Rattle.std.specs.Prelude.{◌≡◌, ◌↔◌, ℕ, true, IfOk, IfErr, IsOk, OnOk, OnErr};
ghost use Rattle.px_callgraph.specs.JobTree.{job_tree};
ghost use Rattle.px_pieces.specs.declared.desk.Event.TheVariants as event;
ghost use Rattle.px_pieces.specs.Desk.{IsHeldUnder};
ghost use Rattle.px_book.specs.declared.faults.PublishFault.TheVariants as fault;
ghost use Rattle.px_book.specs.Books.{statuses_in, with_event, IsGiven, claimed, IsDue, published};

use crate::{Book, NotHeld, PublishFault, Receipt};
use px_callgraph::Job;
use px_pieces::{Honesty, Lost, Part, Piece, Status, Who};
use px_terms::NoMemory;
use std::sync::ledger::Ledger;

impl<H: Honesty, L: Ledger> Book<H, L> {
    /// The job of the next procedure, which this one holds from now on, under the job's ticket: the number of events
    /// before. It makes the room that what comes of the claim needs.
    ///
    /// After `NoMemory` nothing has changed.
    pub fn claim(&mut self, who: Who) -> Result<Option<Job>, NoMemory>
        ensures given { IfOk result (λ o. IsGiven self.old who o) }
        ensures claimed { IfOk result (λ o. self.new ≡ claimed self.old who o) }
        ensures err { OnErr result (self.new ≡ self.old) }
    {
        let Some(proc) = self.roll.next(who) else {
            return Ok(None);
        };
        let ticket = self.roll.history().len() as u64;
        let job = self.sources.job(
            self.alloc,
            self.roll.graph(),
            self.parts.as_slice(),
            proc,
            ticket,
        )?;
        self.roll.claim(who)?;
        Ok(Some(job))
    }

    // Whether a publication of this job is due.
    fn is_due(&self, ticket: u64, job: &Job) -> bool
        ensures { (result ≡ true) ↔ IsDue self.now ticket (job_tree job.now) }
    {
        let Some(Status::Held { ticket: given, .. }) = self.roll.status(job.proc) else {
            return false;
        };
        given == ticket
            && self.sources.is_job(
                self.roll.graph(),
                self.parts.as_slice(),
                job.proc,
                ticket,
                job,
            )
    }

    /// Settles the piece's procedure with the piece's table, if it is held under this ticket and the piece answers the
    /// job that was claimed. The receipt counts this one publication. Takes no memory.
    pub fn publish(&mut self, ticket: u64, piece: Piece<H>) -> Result<Receipt<L>, PublishFault<H>>
        ensures due { IsOk result ↔ IsDue self.old ticket (job_tree piece.job) }
        ensures one { IfOk result (λ receipt. receipt ≡ 1) }
        ensures published { OnOk result (self.new ≡ published self.old ticket piece) }
        ensures stranger { IfErr result (λ e. e ≡ fault.Stranger (statuses_in self.old piece.job.proc.0) piece) }
        ensures err { OnErr result (self.new ≡ self.old) }
    {
        let (job, entries, drops) = piece.into_parts();
        let proc = job.proc;
        if !self.is_due(ticket, &job) {
            return Err(PublishFault::Stranger {
                kept: self.roll.status(proc),
                piece: Piece::new(job, entries, drops),
            });
        }
        self.roll.publish(ticket, proc);
        let part = Part::Tabled {
            checked: entries,
            drops,
        };
        self.parts.set(proc.0 as usize, part);
        Ok(Receipt::of_one(&mut self.total, &mut self.rest))
    }

    /// Lets the procedure that is held under this ticket wait again, with one loss more. Takes no memory.
    pub fn lose(&mut self, ticket: u64, why: Lost) -> Result<(), NotHeld>
        ensures held { IsOk result ↔ ((f : ℕ) × IsHeldUnder (statuses_in self.old) ticket f) }
        ensures lost { OnOk result (self.new ≡ with_event self.old (event.Lose ticket why)) }
        ensures err { OnErr result (self.new ≡ self.old) }
    {
        if !self.roll.lose(ticket, why) {
            return Err(NotHeld);
        }
        Ok(())
    }
}
