ghost use Rattle.std.specs.Prelude.{◌≡◌, ◌≢◌, ◌↔◌, List, [], ◌∷◌, ◌++◌, true, false, Contains, None, Some, take, length, slice_get, IfOk, IfSome, OnOk};
ghost use Rattle.px_cnf.specs.Clauses.{negated};
ghost use Rattle.px_cnf.specs.declared.literal.Literal.{Literal as LiteralOf};
ghost use Rattle.px_sat.specs.Steps.{IsClosed, IsClosedTo, IsFalseAt, ForcesWithin, HasNoEmpty};
ghost use Rattle.px_sat.specs.Searches.{Extends, IsLeft};

use crate::clauses::Clauses;
use crate::step::Step;
use crate::trail::Trail;
use px_cnf::Literal;
use px_terms::NoMemory;

// What the false literals of a clause leave.
#[derive(Clone, Copy)]
pub(crate) enum Left {
    Nothing,
    // This one, which may be true.
    One(Literal),
    // At least two others.
    More,
}

// Whether both are the same literal.
fn is_same(a: Literal, b: Literal) -> bool
    ensures { result ≡ true ↔ a ≡ b }
{
    a == b
}

// What is left of some literals and one more.
fn left_with(trail: &Trail, left: Left, literal: Literal) -> Left
    ensures { (clause : List LiteralOf) → IsLeft trail.now clause left → IsLeft trail.now (clause ++ literal ∷ []) result }
{
    if trail.is_false(literal) {
        return left;
    }
    match left {
        Left::Nothing => Left::One(literal),
        Left::One(other) => {
            if is_same(literal, other) {
                left
            } else {
                Left::More
            }
        }
        Left::More => Left::More,
    }
}

fn left_of(clause: &[Literal], trail: &Trail) -> Left
    ensures { IsLeft trail.now clause.now result }
{
    let mut left = Left::Nothing;
    for literal in clause {
        left = left_with(trail, left, *literal);
        if let Left::More = left {
            return Left::More;
        }
    }
    left
}

// Looks at a clause: where its false literals leave one, that is true from now on. Says whether they leave none.
pub(crate) fn look(clauses: &Clauses, at: usize, trail: &mut Trail) -> Result<bool, NoMemory>
    ensures extends { OnOk result (Extends clauses.now trail.old trail.new) }
    ensures within { IfOk result (λ falsified. falsified ≡ false → (clause : List LiteralOf) → slice_get clauses.now at ≡ Some clause → ForcesWithin clause trail.old trail.new) }
    ensures filled { IfOk result (λ falsified. falsified ≡ false → (clause : List LiteralOf) → slice_get clauses.now at ≡ Some clause → clause ≢ []) }
    ensures falsified { IfOk result (λ falsified. falsified ≡ true → IsFalseAt clauses.now trail.new at) }
{
    let Some(clause) = clauses.get(at) else {
        return Ok(false);
    };
    match left_of(clause, trail) {
        Left::Nothing => Ok(true),
        Left::One(literal) => {
            if !trail.is_true(literal) {
                trail.push(Step {
                    literal,
                    reason: Some(at),
                })?;
            }
            Ok(false)
        }
        Left::More => Ok(false),
    }
}

// Looks at each clause that has a literal. Gives the place of one that is false, if it meets one.
fn spread(clauses: &Clauses, literal: Literal, trail: &mut Trail) -> Result<Option<usize>, NoMemory>
    ensures extends { OnOk result (Extends clauses.now trail.old trail.new) }
    ensures within { IfOk result (λ at. at ≡ None → (clause : List LiteralOf) → Contains clauses.now clause → Contains clause literal → ForcesWithin clause trail.old trail.new) }
    ensures falsified { IfOk result (λ at. IfSome at (IsFalseAt clauses.now trail.new)) }
{
    for at in clauses.uses(literal) {
        if look(clauses, *at, trail)? {
            return Ok(Some(*at));
        }
    }
    Ok(None)
}

// Applies unit clauses until nothing changes, from the first step on whose literal wasn't looked at. Gives the place of a
// clause that is false, if it meets one.
pub(crate) fn propagate(
    clauses: &Clauses,
    trail: &mut Trail,
    head: usize,
) -> Result<Option<usize>, NoMemory>
    requires { IsClosedTo clauses.now (take head trail.old) trail.old }
    ensures extends { OnOk result (Extends clauses.now trail.old trail.new) }
    ensures closed { IfOk result (λ at. at ≡ None → IsClosed clauses.now trail.new) }
    ensures falsified { IfOk result (λ at. IfSome at (IsFalseAt clauses.now trail.new)) }
{
    let mut place = head;
    while place < trail.len() {
        let step = trail.get(place);
        let found = spread(clauses, step.literal.negated(), trail)?;
        if found.is_some() {
            return Ok(found);
        }
        place += 1;
    }
    Ok(None)
}

// Looks at each clause once, and then applies unit clauses. Gives the place of a clause that is false, if it meets one.
pub(crate) fn begin(clauses: &Clauses, trail: &mut Trail) -> Result<Option<usize>, NoMemory>
    requires { trail.old ≡ [] }
    ensures extends { OnOk result (Extends clauses.now [] trail.new) }
    ensures closed { IfOk result (λ at. at ≡ None → IsClosed clauses.now trail.new) }
    ensures filled { IfOk result (λ at. at ≡ None → HasNoEmpty clauses.now) }
    ensures falsified { IfOk result (λ at. IfSome at (IsFalseAt clauses.now trail.new)) }
{
    for at in 0..clauses.len() {
        if look(clauses, at, trail)? {
            return Ok(Some(at));
        }
    }
    propagate(clauses, trail, 0)
}
