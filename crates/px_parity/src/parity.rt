ghost use Rattle.std.specs.Prelude.{◌≡◌, ◌↔◌, ◌<◌, [], All, true, Some, IfOk, OnErr};
ghost use Rattle.px_terms.specs.Rules.{HoldsModuloTwo};
ghost use Rattle.px_parity.specs.Equations.{IsTriangular, IsInColumns, AddsEquation};
ghost use Rattle.px_parity.specs.Held.{Holds, last_mark, pivots_before};
ghost use Rattle.px_parity.specs.declared.elimination.Mark.TheVariants.{Refuted};

use crate::elimination::{Mark, Pivot, insert};
use crate::equations::{equation, is_linear};
use px_terms::{Conj, Domain, NoMemory, VarInfo};
use std::alloc::{AllocError, Global};

/// Rules conjuncts out where the equalities of degree at most 1 among them, read modulo 2, have no solution. Its kind is 2.
///
/// It eliminates variables, in time cubic in their number at worst, with 64 bits to a word. Nothing is
/// allocated where there are no such equalities.
///
/// Of what it holds it keeps a row for each equality that says something new, and a mark for each conjunct. To push another
/// conjunct, or any beside a list that is refuted, takes a mark alone; an equality is tested for the variable of each row,
/// and only the rows are added whose variables stand in it. To pop is to let go of a mark, and of the row that it tells of.
#[derive(Drop)]
pub struct Parity {
    alloc: Global,
    pivots: Vec<Pivot>,
    marks: Vec<Mark>,
}

impl Parity {
    /// Takes no memory, and holds nothing.
    pub fn new(alloc: Global) -> Parity
        ensures { Holds result [] }
    {
        Parity {
            alloc,
            pivots: Vec::new(alloc),
            marks: Vec::new(alloc),
        }
    }
}

// Adds what a conjunct says modulo 2, and says what that is to the others. An error changes nothing.
fn add_conjunct(alloc: Global, pivots: &mut Vec<Pivot>, conjunct: &Conj) -> Result<Mark, AllocError>
    requires triangular { IsTriangular pivots.old.items }
    requires inside { IsInColumns conjunct.now }
    ensures adds { IfOk result (λ mark. AddsEquation mark pivots.old.items pivots.new.items (λ v. HoldsModuloTwo v conjunct.now)) }
    ensures failed { OnErr result (pivots.new.items ≡ pivots.old.items) }
{
    let Conj::Equal(p) = conjunct else {
        return Ok(Mark::Implied);
    };
    if !is_linear(p) {
        return Ok(Mark::Implied);
    }
    let row = equation(alloc, p)?;
    insert(pivots, row)
}

// Takes back what the conjunct of this mark added.
fn take_back(pivots: &mut Vec<Pivot>, mark: Mark)
    ensures { pivots.new.items ≡ pivots_before (Some mark) pivots.old.items }
{
    if let Mark::Added = mark {
        let _ = pivots.pop();
    }
}

// Whether the last mark says that the conjuncts are refuted.
fn is_refuted(marks: &[Mark]) -> bool
    ensures { result ≡ true ↔ last_mark marks.now ≡ Some Refuted }
{
    match marks.last() {
        None | Some(Mark::Implied | Mark::Added) => false,
        Some(Mark::Refuted) => true,
    }
}

impl Domain for Parity {
    ghost number = { λ s. 2 };

    ghost holds = { Holds };

    fn kind(&self) -> u8 {
        2
    }

    fn refutes(&mut self, _vars: &[VarInfo], conjuncts: &[Conj]) -> Result<bool, NoMemory> {
        let mut pivots = Vec::new(self.alloc);
        for conjunct in conjuncts {
            if let Mark::Refuted = add_conjunct(self.alloc, &mut pivots, conjunct)? {
                return Ok(true);
            }
        }
        Ok(false)
    }

    fn is_clear(&self) -> bool {
        self.pivots.is_empty() && self.marks.is_empty()
    }

    fn push(&mut self, conjunct: &Conj) -> Result<(), NoMemory> {
        if self.refuted() {
            self.marks.push(Mark::Refuted)?;
            return Ok(());
        }
        let mark = add_conjunct(self.alloc, &mut self.pivots, conjunct)?;
        if self.marks.push(mark).is_err() {
            take_back(&mut self.pivots, mark);
            return Err(NoMemory);
        }
        Ok(())
    }

    fn pop(&mut self) {
        if let Some(last) = self.marks.pop() {
            take_back(&mut self.pivots, last);
        }
    }

    fn refuted(&self) -> bool {
        is_refuted(&self.marks)
    }
}
