ghost use Rattle.std.specs.Prelude.{◌≡◌};
ghost use Rattle.px_callgraph.specs.JobTree.{job_tree};
ghost use Rattle.px_pieces.specs.Pieces.{AreOf, IsToldBy, table_from};

use crate::Honesty;
use px_callgraph::Job;
use px_check::Checked;
use px_entry::Gap;
use px_terms::Items;
use std::marker::{Model, PhantomData};

/// A job with its answer: checked entries, and drops. Each entry derives from that job, whoever answered it; the table
/// is the job's own or one that the word `H` says of it.
#[derive(Drop)]
pub struct Piece<H: Honesty> {
    job: Job,
    entries: Items<Checked>,
    drops: Items<Gap>,
    word: PhantomData<H>,
}

impl<H: Honesty> Model for Piece<H> {
    ghost use Rattle.std.specs.Coded.{codes};
    ghost use Rattle.px_callgraph.specs.JobTree.{job_tree};
    ghost use Rattle.px_callgraph.specs.contracts.jobs.Job as job_row;
    ghost use Rattle.px_check.specs.contracts.checked.Checked as checked;
    ghost use Rattle.px_pieces.specs.Pieces.{PieceParts, AreOf, IsToldBy, table_from};

    ghost Value = { PieceParts };

    ghost coded = { Prim.hlevel (codes, job_row.the_row.coded, checked.the_row.coded) };

    ghost view = { λ p. record { job = p.job; entries = p.entries; drops = p.drops } };

    ghost invariant = { λ p. AreOf (job_tree p.job) p.entries × IsToldBy H.says (job_tree p.job) (table_from p.entries p.drops) };
}

impl<H: Honesty> Piece<H> {
    /// The piece of these parts. Takes no memory.
    pub fn new(job: Job, entries: Items<Checked>, drops: Items<Gap>) -> Piece<H>
        requires derived { AreOf (job_tree job) entries }
        requires told { IsToldBy H.says (job_tree job) (table_from entries drops) }
        ensures { result ≡ record { job = job; entries = entries; drops = drops } }
    {
        Piece {
            job,
            entries,
            drops,
            word: PhantomData,
        }
    }

    /// The job, the entries and the drops. Takes no memory.
    pub fn into_parts(self) -> (Job, Items<Checked>, Items<Gap>)
        ensures job { result.0 ≡ self.job }
        ensures entries { result.1 ≡ self.entries }
        ensures drops { result.2 ≡ self.drops }
        ensures derived { AreOf (job_tree result.0) result.1 }
        ensures told { IsToldBy H.says (job_tree result.0) (table_from result.1 result.2) }
    {
        let Piece {
            job,
            entries,
            drops,
            word: _,
        } = self;
        (job, entries, drops)
    }
}
