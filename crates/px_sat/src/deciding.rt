ghost use Rattle.std.specs.Prelude.{◌≡◌, ℕ, ◌+◌, ◌<◌, None, take, IfOk, IfSome, OnOk};
ghost use Rattle.px_sat.specs.Steps.{HasValue, IsClosed, IsClosedTo, IsFalseAt};
ghost use Rattle.px_sat.specs.Searches.{IsSearch};

use crate::clauses::Clauses;
use crate::propagating::propagate;
use crate::step::Step;
use crate::trail::Trail;
use px_cnf::Literal;
use px_terms::NoMemory;

// Where a search goes on.
#[derive(Clone, Copy)]
pub(crate) struct Point {
    // The first step whose literal wasn't looked at.
    pub(crate) head: usize,
    // Each variable before this one has a value.
    pub(crate) first: u32,
}

// Takes a variable as false, if it has no value, and applies unit clauses. Gives the place of a clause that is false, if it
// meets one.
fn decide(
    clauses: &Clauses,
    trail: &mut Trail,
    variables: u32,
    variable: u32,
) -> Result<Option<usize>, NoMemory>
    requires search { IsSearch variables clauses.now trail.old }
    requires closed { IsClosed clauses.now trail.old }
    requires inside { variable < variables }
    requires known { (x : ℕ) → x < variable → HasValue trail.old x }
    ensures search { OnOk result (IsSearch variables clauses.now trail.new) }
    ensures closed { IfOk result (λ at. at ≡ None → IsClosed clauses.now trail.new) }
    ensures falsified { IfOk result (λ at. IfSome at (IsFalseAt clauses.now trail.new)) }
    ensures known { OnOk result ((x : ℕ) → x < variable + 1 → HasValue trail.new x) }
{
    if trail.has_value(variable) {
        return Ok(None);
    }
    let head = trail.len();
    trail.push(Step {
        literal: Literal {
            variable,
            positive: false,
        },
        reason: None,
    })?;
    propagate(clauses, trail, head)
}

// Applies unit clauses and decides variables, until a clause is false or each variable has a value. Gives the place of the
// clause that is false.
pub(crate) fn descend(
    clauses: &Clauses,
    trail: &mut Trail,
    variables: u32,
    point: Point,
) -> Result<Option<usize>, NoMemory>
    requires search { IsSearch variables clauses.now trail.old }
    requires closed { IsClosedTo clauses.now (take point.head trail.old) trail.old }
    requires known { (x : ℕ) → x < point.first → HasValue trail.old x }
    ensures search { OnOk result (IsSearch variables clauses.now trail.new) }
    ensures falsified { IfOk result (λ at. IfSome at (IsFalseAt clauses.now trail.new)) }
    ensures closed { IfOk result (λ at. at ≡ None → IsClosed clauses.now trail.new) }
    ensures known { IfOk result (λ at. at ≡ None → (x : ℕ) → x < variables → HasValue trail.new x) }
{
    let mut found = propagate(clauses, trail, point.head)?;
    for variable in point.first..variables {
        if found.is_some() {
            return Ok(found);
        }
        found = decide(clauses, trail, variables, variable)?;
    }
    Ok(found)
}
