ghost use Rattle.std.specs.Prelude.{◌≡◌, ◌↔◌, List, ◌∷◌, ◌++◌, [], true, false, length, take, IfOk, OnOk};
ghost use Rattle.px_cnf.specs.Clauses.{AreClausesBelow};
ghost use Rattle.px_cnf.specs.declared.literal.Literal.{Literal as LiteralOf};
ghost use Rattle.px_sat.specs.Logs.{AreApart, IsClause, Follows};
ghost use Rattle.px_sat.specs.Verdicts.{IsRefutation, EndsEmpty};
ghost use Rattle.px_sat.specs.Steps.{IsTrue};
ghost use Rattle.px_sat.specs.Denials.{IsBase, IsChecked, IsSetFalse, Denies, AreFalse, SomeTrue};

use crate::clauses::Clauses;
use crate::propagating::{begin, look, propagate};
use crate::step::Step;
use crate::trail::Trail;
use px_cnf::{Cnf, Literal};
use px_terms::{Items, NoMemory};
use std::alloc::Global;

// Whether a clause is over the first variables, each at most once.
fn is_clause(alloc: Global, variables: u32, clause: &[Literal]) -> Result<bool, NoMemory>
    ensures { IfOk result (λ yes. yes ≡ true ↔ IsClause variables clause.now) }
{
    let mut seen = Trail::new(alloc);
    for literal in clause {
        if literal.variable >= variables {
            return Ok(false);
        }
        if seen.has_value(literal.variable) {
            return Ok(false);
        }
        seen.push(Step {
            literal: *literal,
            reason: None,
        })?;
    }
    Ok(true)
}

// Takes a literal as false that isn't true.
fn set_false(trail: &mut Trail, literal: Literal) -> Result<(), NoMemory>
    requires { ¬ IsTrue trail.old literal }
    ensures { OnOk result (IsSetFalse trail.old literal trail.new) }
{
    if trail.is_false(literal) {
        return Ok(());
    }
    trail.push(Step {
        literal: literal.negated(),
        reason: None,
    })?;
    Ok(())
}

// Takes each literal of a clause as false. Says whether one is true instead.
fn deny(trail: &mut Trail, clause: &[Literal]) -> Result<bool, NoMemory>
    requires { AreApart clause.now }
    ensures denies { OnOk result (Denies clause.now trail.old trail.new) }
    ensures all_false { IfOk result (λ met. met ≡ false → AreFalse trail.new clause.now) }
    ensures some_true { IfOk result (λ met. met ≡ true → SomeTrue trail.old clause.now) }
{
    for literal in clause {
        if trail.is_true(*literal) {
            return Ok(true);
        }
        set_false(trail, *literal)?;
    }
    Ok(false)
}

// Takes each literal of a clause as false, and says whether some clause is false by unit clauses then.
fn conflicts(clauses: &Clauses, trail: &mut Trail, clause: &[Literal]) -> Result<bool, NoMemory>
    requires base { IsBase clauses.now trail.old }
    requires apart { AreApart clause.now }
    ensures answer { IfOk result (λ yes. yes ≡ true ↔ Follows clauses.now clause.now) }
    ensures begins { OnOk result (take (length trail.old) trail.new ≡ trail.old) }
{
    let base = trail.len();
    if deny(trail, clause)? {
        return Ok(true);
    }
    Ok(propagate(clauses, trail, base)?.is_some())
}

// Whether a clause follows from the others.
fn follows(clauses: &Clauses, trail: &mut Trail, clause: &[Literal]) -> Result<bool, NoMemory>
    requires base { IsBase clauses.now trail.old }
    requires apart { AreApart clause.now }
    ensures answer { IfOk result (λ yes. yes ≡ true ↔ Follows clauses.now clause.now) }
    ensures same { OnOk result (trail.new ≡ trail.old) }
{
    let base = trail.len();
    let answer = conflicts(clauses, trail, clause)?;
    trail.truncate(base);
    Ok(answer)
}

// Adds a clause, and applies unit clauses. Says whether some clause is false then.
fn take_in(
    alloc: Global,
    clauses: &mut Clauses,
    trail: &mut Trail,
    clause: &[Literal],
) -> Result<bool, NoMemory>
    requires { IsBase clauses.old trail.old }
    ensures clauses { OnOk result (clauses.new ≡ clauses.old ++ clause.now ∷ []) }
    ensures base { IfOk result (λ refuted. refuted ≡ false → IsBase clauses.new trail.new) }
    ensures refuted { IfOk result (λ refuted. refuted ≡ true → Follows clauses.new []) }
{
    let at = clauses.len();
    let head = trail.len();
    clauses.add(alloc, clause)?;
    if look(clauses, at, trail)? {
        return Ok(true);
    }
    Ok(propagate(clauses, trail, head)?.is_some())
}

// What a log was checked against so far.
#[derive(Drop)]
pub(crate) struct Checker {
    pub(crate) clauses: Clauses,
    // What unit clauses give, where they make none false.
    pub(crate) trail: Trail,
    // Whether unit clauses make a clause false. Then each clause follows, and none is taken in.
    pub(crate) refuted: bool,
}

impl Checker {
    // Takes in the next clause of a log, or says that it is none.
    fn take(&mut self, alloc: Global, variables: u32, clause: &[Literal]) -> Result<bool, NoMemory>
        requires { (all : List (List LiteralOf)) × IsChecked self.old all }
        ensures answer { (all : List (List LiteralOf)) → IsChecked self.old all → IfOk result (λ yes. yes ≡ true ↔ (IsClause variables clause.now × Follows all clause.now)) }
        ensures taken { (all : List (List LiteralOf)) → IsChecked self.old all → IfOk result (λ yes. yes ≡ true → IsChecked self.new (all ++ clause.now ∷ [])) }
    {
        if !is_clause(alloc, variables, clause)? {
            return Ok(false);
        }
        if self.refuted {
            return Ok(true);
        }
        if !follows(&self.clauses, &mut self.trail, clause)? {
            return Ok(false);
        }
        self.refuted = take_in(alloc, &mut self.clauses, &mut self.trail, clause)?;
        Ok(true)
    }
}

// Whether the last clause is empty.
fn ends_empty(log: &[Items<Literal>]) -> bool
    ensures { result ≡ true ↔ EndsEmpty log.now }
{
    let count = log.len();
    count > 0 && log[count - 1].is_empty()
}

/// Whether clauses are a log whose last clause is empty: each is over the variables, has each of them at most once, and follows
/// by unit clauses from those before it (reverse unit propagation, as checkers of refutations have it). Then no values make
/// every clause of the `Cnf` true.
pub fn accepts(alloc: Global, cnf: &Cnf, log: &[Items<Literal>]) -> Result<bool, NoMemory>
    requires { AreClausesBelow cnf.now.variables cnf.now.clauses }
    ensures { IfOk result (λ yes. yes ≡ true ↔ IsRefutation cnf.now.variables cnf.now.clauses log.now) }
{
    let clauses = Clauses::of(alloc, cnf.clauses.as_slice())?;
    let mut trail = Trail::new(alloc);
    let refuted = begin(&clauses, &mut trail)?.is_some();
    let mut checker = Checker {
        clauses,
        trail,
        refuted,
    };
    for clause in log {
        if !checker.take(alloc, cnf.variables, clause.as_slice())? {
            return Ok(false);
        }
    }
    Ok(ends_empty(log))
}
