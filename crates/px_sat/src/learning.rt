ghost use Rattle.std.specs.Prelude.{◌≡◌, ◌≤◌, [], ◌∷◌, ◌++◌, None, IfOk, IfSome};
ghost use Rattle.px_cnf.specs.Clauses.{AreClausesBelow};
ghost use Rattle.px_sat.specs.Logs.{Follows, IsTurn};
ghost use Rattle.px_sat.specs.Steps.{IsFalseAt, HasNoEmpty};
ghost use Rattle.px_sat.specs.Searches.{IsSearch, IsLastTaken, IsNextTaken, IsTurned};

use crate::clauses::Clauses;
use crate::deciding::Point;
use crate::step::Step;
use crate::tracing::{last_taken, traced};
use crate::trail::Trail;
use px_cnf::Literal;
use px_terms::{Items, NoMemory};
use std::alloc::Global;

// The place of the first step that was taken, from a place on and up to the last.
fn next_taken(trail: &Trail, low: usize, start: usize) -> usize
    requires last { IsLastTaken trail.now start }
    requires low { low ≤ start }
    ensures next { IsNextTaken trail.now low result }
    ensures early { result ≤ start }
{
    let mut place = low;
    while place < start {
        if trail.get(place).reason.is_none() {
            return place;
        }
        place += 1;
    }
    start
}

// A literal and others behind it.
fn joined(alloc: Global, first: Literal, others: &[Literal]) -> Result<Vec<Literal>, NoMemory>
    ensures { IfOk result (λ c. c.items ≡ first ∷ others.now) }
{
    let mut clause = Vec::new(alloc);
    clause.push(first)?;
    clause.extend_from_slice(others)?;
    Ok(clause)
}

// Adds a clause that turns the last decision, where the clause at a place is false, and goes back to where it forces something.
// Gives where the search goes on, or nothing where nothing was decided; then the log ends with the empty clause.
pub(crate) fn learn(
    alloc: Global,
    clauses: &mut Clauses,
    trail: &mut Trail,
    log: &mut Vec<Items<Literal>>,
    variables: u32,
    at: usize,
) -> Result<Option<Point>, NoMemory>
    requires search { IsSearch variables clauses.old trail.old }
    requires falsified { IsFalseAt clauses.old trail.old at }
    requires below { AreClausesBelow variables clauses.old }
    requires filled { HasNoEmpty clauses.old }
    ensures turned { IfOk result (λ p. IfSome p (IsTurned variables clauses.old clauses.new log.old.items log.new.items trail.new)) }
    ensures ended { IfOk result (λ p. p ≡ None → Follows clauses.old [] × IsTurn variables clauses.old [] × (log.new.items ≡ log.old.items ++ [] ∷ [])) }
{
    let Some(start) = last_taken(trail) else {
        log.push(Items::new(alloc))?;
        return Ok(None);
    };
    let trace = traced(alloc, clauses, trail, at, start)?;
    let turned = trail.get(start).literal.negated();
    let clause = joined(alloc, turned, &trace.parts)?;
    let head = next_taken(trail, trace.low, start);
    let first = trail.get(head).literal.variable;
    let reason = clauses.len();
    clauses.add(alloc, &clause)?;
    trail.truncate(head);
    trail.push(Step {
        literal: turned,
        reason: Some(reason),
    })?;
    log.push(Items::from_vec(clause))?;
    Ok(Some(Point { head, first }))
}
