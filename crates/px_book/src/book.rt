ghost use Rattle.std.specs.Prelude.{◌≡◌, ◌↔◌, ℕ, ◌<◌, ◌≤◌, List, true, Some, length, replicate, slice_get, IfOk, IfErr, IsOk, IfSome, IfNone};
ghost use Rattle.px_entry.specs.declared.tables.Gap.{Gap};
ghost use Rattle.px_callgraph.specs.CallGraphs.{bodies_in, IsGraphOf};
ghost use Rattle.px_pieces.specs.declared.findings.Part.TheVariants as part;
ghost use Rattle.px_pieces.specs.Desk.{is_of_desk, IsHeldUnder, IsSettled};
ghost use Rattle.px_pieces.specs.Histories.{publications};
ghost use Rattle.px_book.specs.Rolls.{AllSettled};
ghost use Rattle.px_jobs.specs.Sources.{AreEqualSources};
ghost use Rattle.px_book.specs.Books.{new_book, roll_in, its_desk, statuses_in};
ghost use Rattle.px_book.specs.Soundness.{IsSound};

use crate::Receipt;
use crate::roll::Roll;
use px_base::{Limits, ProcId};
use px_callgraph::Graph;
use px_check::Checked;
use px_core::Body;
use px_jobs::Sources;
use px_pieces::{Event, Findings, Honesty, Part, Status};
use px_terms::{BlockType, Items, NoMemory};
use std::alloc::Global;
use std::marker::{Model, PhantomData};
use std::sync::ledger::{Book as Total, Ledger, Share};

/// What several have found out of a program so far, and who works on which procedure. A claim gives out the job of a
/// procedure, which is settled by a piece that answers it, or lost. The pieces rest on the word `H`.
///
/// The history is always legal, and each table is that of a piece whose job is its procedure's own. The ledger `L`
/// counts the publications.
#[derive(Drop)]
pub struct Book<H: Honesty, L: Ledger> {
    pub(crate) alloc: Global,
    pub(crate) sources: Sources,
    pub(crate) roll: Roll,
    // Of each kept procedure; `LeftOut` stands in the place of what isn't settled.
    pub(crate) parts: Items<Part>,
    pub(crate) total: Total<L>,
    // The part of the ledger of which no receipt was made yet.
    pub(crate) rest: Share<L>,
    pub(crate) word: PhantomData<H>,
}

impl<H: Honesty, L: Ledger> Model for Book<H, L> {
    ghost use Rattle.std.specs.Coded.{codes};
    ghost use Rattle.px_core.specs.contracts.body.Body as body_row;
    ghost use Rattle.px_check.specs.contracts.checked.Checked as checked;
    ghost use Rattle.px_book.specs.Books.{BookParts};

    ghost Value = { BookParts };

    ghost coded = { Prim.hlevel (codes, body_row.the_row.coded, checked.the_row.coded) };

    ghost use Rattle.px_book.specs.Keeping.{book_of, IsKept};

    ghost view = { λ b. book_of b.sources b.roll b.parts };

    ghost invariant = { λ b. IsKept H.says b.sources b.roll b.parts b.total.total b.rest.amount b.rest.parts };
}

// So many parts without a table.
fn no_parts(alloc: Global, many: u32) -> Result<Items<Part>, NoMemory>
    ensures { IfOk result (λ parts. parts ≡ replicate many part.LeftOut) }
{
    let mut parts = Vec::with_capacity(alloc, many as usize)?;
    for _place in 0..many {
        parts.push(Part::LeftOut)?;
    }
    Ok(Items::from_vec(parts))
}

impl<H: Honesty, L: Ledger> Book<H, L> {
    /// The book of the kept procedures with these bodies; those that are too large have an empty body, and stand in
    /// `out` with the functions that are left out and not kept. Nothing happened yet.
    pub fn new(
        alloc: Global,
        total: Total<L>,
        all: Share<L>,
        bodies: Items<Body>,
        graph: Graph,
        types: Items<BlockType>,
        limits: Limits,
        kinds: Items<u8>,
        kept: u32,
        out: Items<ProcId>,
    ) -> Result<Book<H, L>, NoMemory>
        requires total { total.total ≡ 0 }
        requires amount { all.amount ≡ 0 }
        requires enough { kept < all.parts }
        requires bodies { length bodies ≡ kept }
        requires kept { length graph ≡ kept }
        requires graph { IsGraphOf (bodies_in bodies) graph }
        ensures { IfOk result (λ b. b ≡ new_book (record { bodies = bodies; types = types; limits = limits; kinds = kinds; out = out }) graph) }
    {
        let places = Items::from_slice(alloc, out.as_slice())?;
        let roll = Roll::new(alloc, graph, kept, places)?;
        let sources = Sources::new(alloc, bodies, types, limits, kinds, out)?;
        let parts = no_parts(alloc, kept)?;
        Ok(Book {
            alloc,
            sources,
            roll,
            parts,
            total,
            rest: all,
            word: PhantomData,
        })
    }

    /// The events, from the first to the last. Takes no memory.
    pub fn history(&self) -> &[Event]
        ensures events { result.now ≡ self.now.history }
        ensures sound { IsSound H.says self.now }
    {
        self.roll.history()
    }

    /// Whether a procedure is of the desk: kept, and not left out. Takes no memory.
    pub fn is_of_desk(&self, proc: ProcId) -> bool
        ensures { result ≡ is_of_desk (its_desk self.now) proc.0 }
    {
        self.roll.status(proc).is_some()
    }

    /// Where a procedure of the desk stands. Takes no memory.
    pub fn status(&self, proc: ProcId) -> &Status
        requires of_desk { is_of_desk (its_desk self.now) proc.0 ≡ true }
        ensures { statuses_in self.now proc.0 ≡ Some result.now }
    {
        self.roll.standing(proc)
    }

    /// The checked entries of a procedure, if it is settled. Takes no memory.
    pub fn settled(&self, proc: ProcId) -> Option<&[Checked]>
        ensures some { IfSome result (λ checked. IsSettled (statuses_in self.now) proc.0 × ((drops : List Gap) × (slice_get self.now.parts proc.0 ≡ Some (part.Tabled checked.now drops)))) }
        ensures none { IfNone result (¬ IsSettled (statuses_in self.now) proc.0) }
    {
        let place = proc.0 as usize;
        if place >= self.parts.len() {
            return None;
        }
        match &self.parts.as_slice()[place] {
            Part::Tabled { checked, .. } => Some(checked.as_slice()),
            Part::LeftOut => None,
        }
    }

    /// Whether some procedure is held. Takes no memory.
    pub fn held_elsewhere(&self) -> bool
        ensures { (result ≡ true) ↔ ((ticket f : ℕ) × IsHeldUnder (statuses_in self.now) ticket f) }
    {
        self.roll.is_held()
    }

    /// Whether the book was made of parts that are equal to these. Takes no memory.
    pub fn agrees(
        &self,
        bodies: &[Body],
        types: &[BlockType],
        limits: Limits,
        kinds: &[u8],
        kept: u32,
        out: &[ProcId],
    ) -> bool
        ensures { (result ≡ true) ↔ (kept ≡ length self.now.graph × AreEqualSources self.now.sources (record { bodies = bodies.now; types = types.now; limits = limits; kinds = kinds.now; out = out.now })) }
    {
        self.parts.len() == kept as usize && self.sources.agrees(bodies, types, limits, kinds, out)
    }

    /// No receipt counts more than was published. Does nothing.
    pub fn audit(&mut self, receipt: &mut Receipt<L>)
        ensures book { self.new ≡ self.old }
        ensures receipt { receipt.new ≡ receipt.old }
        ensures bound { receipt.old ≤ publications self.old.history }
    {
        receipt.stand(&mut self.total);
    }

    /// What was found, where all procedures of the desk are settled; else the book comes back. Takes no memory.
    pub fn finish(self) -> Result<Findings, Book<H, L>>
        ensures done { IsOk result ↔ AllSettled (roll_in self) }
        ensures found { IfOk result (λ f. f ≡ record { parts = self.parts; events = self.history }) }
        ensures sound { IsSound H.says self }
        ensures kept { IfErr result (λ b. b ≡ self) }
    {
        if !self.roll.is_done() {
            return Err(self);
        }
        let Book { roll, parts, .. } = self;
        Ok(Findings::new(parts, roll.into_history()))
    }
}
