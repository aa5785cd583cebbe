ghost use Rattle.std.specs.Prelude.{◌≡◌, ◌≢◌, ℕ, ◌+◌, ◌<◌, List, [], ◌∷◌, None, Some, Contains, length, slice_get, slice_index_or, IfOk, IfSome, IfNone, OnOk, true, false};
ghost use Rattle.px_cnf.specs.declared.literal.Literal.{Literal as LiteralOf};
ghost use Rattle.px_sat.specs.Steps.{AreDistinct, IsFalseAt};
ghost use Rattle.px_sat.specs.Searches.{reason_at, IsLastTaken, IsTracing, IsFalseBefore, AreMarked, Marks, IsTracedFrom, AreReasons};

use crate::clauses::Clauses;
use crate::trail::Trail;
use px_cnf::Literal;
use px_terms::NoMemory;
use std::alloc::Global;

// The literals on which a conflict rests that were false before the last step was taken.
#[derive(Drop)]
pub(crate) struct Trace {
    pub(crate) parts: Vec<Literal>,
    // The place behind the last of their steps.
    pub(crate) low: usize,
    // The steps on which the conflict rests.
    marked: Vec<bool>,
}

// The place of the last step that was taken, if there is one.
pub(crate) fn last_taken(trail: &Trail) -> Option<usize>
    ensures some { IfSome result (IsLastTaken trail.now) }
    ensures none { IfNone result ((p : ℕ) → p < length trail.now → reason_at trail.now p ≢ None) }
{
    let mut place = trail.len();
    while place > 0 {
        place -= 1;
        if trail.get(place).reason.is_none() {
            return Some(place);
        }
    }
    None
}

impl Trace {
    // Marks the step of a literal, and takes the literal as a part where it was false before the start.
    fn mark(&mut self, trail: &Trail, start: usize, literal: Literal) -> Result<(), NoMemory>
        requires tracing { IsTracing trail.now start self.old.marked.items self.old.parts.items self.old.low }
        requires falsified { IsFalseBefore trail.now start literal }
        ensures tracing { OnOk result (IsTracing trail.now start self.new.marked.items self.new.parts.items self.new.low) }
        ensures marks { OnOk result (Marks trail.now (literal ∷ []) self.old.marked.items self.new.marked.items) }
    {
        let Some(place) = trail.place_of(literal.variable) else {
            return Ok(());
        };
        if self.marked[place] {
            return Ok(());
        }
        self.marked[place] = true;
        if place < start {
            self.parts.push(literal)?;
            self.low = self.low.max(place + 1);
        }
        Ok(())
    }

    // The same for all literals of a clause.
    fn mark_all(&mut self, trail: &Trail, start: usize, clause: &[Literal]) -> Result<(), NoMemory>
        requires tracing { IsTracing trail.now start self.old.marked.items self.old.parts.items self.old.low }
        requires falsified { (m : LiteralOf) → Contains clause.now m → IsFalseBefore trail.now start m }
        ensures tracing { OnOk result (IsTracing trail.now start self.new.marked.items self.new.parts.items self.new.low) }
        ensures marks { OnOk result (Marks trail.now clause.now self.old.marked.items self.new.marked.items) }
    {
        for literal in clause {
            self.mark(trail, start, *literal)?;
        }
        Ok(())
    }

    // The same for the clause that forced a step, where the step is marked.
    fn follow(
        &mut self,
        clauses: &Clauses,
        trail: &Trail,
        start: usize,
        place: usize,
    ) -> Result<(), NoMemory>
        requires tracing { IsTracing trail.now start self.old.marked.items self.old.parts.items self.old.low }
        requires reasons { AreReasons clauses.now trail.now }
        requires after { start < place }
        requires inside { place < length trail.now }
        requires traced { IsTracedFrom clauses.now trail.now self.old.marked.items (place + 1) }
        ensures tracing { OnOk result (IsTracing trail.now start self.new.marked.items self.new.parts.items self.new.low) }
        ensures traced { OnOk result (IsTracedFrom clauses.now trail.now self.new.marked.items place) }
        ensures keeps { OnOk result ((p : ℕ) → slice_index_or self.old.marked.items p false ≡ true → slice_index_or self.new.marked.items p false ≡ true) }
    {
        if !self.marked[place] {
            return Ok(());
        }
        let Some(reason) = trail.get(place).reason else {
            return Ok(());
        };
        let Some(clause) = clauses.get(reason) else {
            return Ok(());
        };
        self.mark_all(trail, start, clause)
    }
}

// What the clause at a place rests on, which is false, back to the last step that was taken, at the start.
pub(crate) fn traced(
    alloc: Global,
    clauses: &Clauses,
    trail: &Trail,
    at: usize,
    start: usize,
) -> Result<Trace, NoMemory>
    requires distinct { AreDistinct trail.now }
    requires falsified { IsFalseAt clauses.now trail.now at }
    requires start { IsLastTaken trail.now start }
    requires reasons { AreReasons clauses.now trail.now }
    ensures tracing { IfOk result (λ t. IsTracing trail.now start t.marked.items t.parts.items t.low) }
    ensures conflict { IfOk result (λ t. (clause : List LiteralOf) → slice_get clauses.now at ≡ Some clause → AreMarked trail.now t.marked.items clause) }
    ensures traced { IfOk result (λ t. IsTracedFrom clauses.now trail.now t.marked.items (start + 1)) }
{
    let mut trace = Trace {
        parts: Vec::new(alloc),
        low: 0,
        marked: vec![in alloc; false; trail.len()]?,
    };
    let Some(clause) = clauses.get(at) else {
        return Ok(trace);
    };
    trace.mark_all(trail, start, clause)?;
    let mut place = trail.len();
    while place > start + 1 {
        place -= 1;
        trace.follow(clauses, trail, start, place)?;
    }
    Ok(trace)
}
