ghost use Rattle.std.specs.Prelude.{◌≡◌, pos, int_div, ◌-ℤ◌, ◌*ℤ◌, cond, Some};
ghost use Rattle.std.specs.Int.{w32, int_wrap, IsNonZero};
ghost use Rattle.px_core.specs.declared.command.Operator.TheVariants as operator;
ghost use Rattle.px_meaning.specs.Operations.{quotient, remainder, result_of};
ghost use Rattle.px_meaning.specs.Values as value;
ghost use Rattle.px_meaning.specs.TreeExecution.{calculation, division};
ghost use Rattle.px_replay.specs.Operations.{calculates, or_departs, or_stops, place_outcome, used_value, IsOutcome};

use crate::stop::Stop;
use px_base::{Kind, Site};
use px_syntax::{Arithmetic, Relation};
use px_terms::Value;

/// A value that is used: an unwritten one is an error.
pub fn used(value: Value, site: Site) -> Result<Value, Stop>
    ensures { result ≡ used_value value site }
{
    match value {
        Value::Unwritten => Err(Stop::Failed(Kind::UninitialisedRead, site)),
        written => Ok(written),
    }
}

/// Minus a word.
#[tactic(auto, using(std::proofs::lemmas::Int::wraps))]
pub fn negated(x: Value) -> Result<Value, Stop>
    ensures { result ≡ or_departs (result_of operator.Neg x (value.Word (pos 0))) }
{
    match x {
        Value::Word(x) => Ok(Value::Word(x.wrapping_neg())),
        _ => Err(Stop::Departs),
    }
}

/// An operator of two words.
pub fn calculated(operator: Arithmetic, x: Value, y: Value) -> Result<Value, Stop>
    ensures { result ≡ calculates operator x y }
{
    match (x, y) {
        (Value::Word(x), Value::Word(y)) => of_words(operator, x, y),
        _ => Err(Stop::Departs),
    }
}

#[tactic(auto, using(std::proofs::lemmas::Int::wraps))]
fn of_words(operator: Arithmetic, x: i32, y: i32) -> Result<Value, Stop>
    ensures { result ≡ or_stops (Some (calculation operator x y)) }
{
    match operator {
        Arithmetic::Add => Ok(Value::Word(x.wrapping_add(y))),
        Arithmetic::Subtract => Ok(Value::Word(x.wrapping_sub(y))),
        Arithmetic::Multiply => Ok(Value::Word(x.wrapping_mul(y))),
        Arithmetic::Divide { site } => divided(x, y, site),
        Arithmetic::Remainder { site } => remainder(x, y, site),
    }
}

fn divided(x: i32, y: i32, site: Site) -> Result<Value, Stop>
    ensures { result ≡ or_stops (Some (division site (quotient x y))) }
{
    if y == 0 {
        Err(Stop::Failed(Kind::DivisionByZero, site))
    } else {
        Ok(Value::Word(quotient(x, y)))
    }
}

fn remainder(x: i32, y: i32, site: Site) -> Result<Value, Stop>
    ensures { result ≡ or_stops (Some (division site (remainder x y))) }
{
    if y == 0 {
        Err(Stop::Failed(Kind::DivisionByZero, site))
    } else {
        Ok(Value::Word(left_over(x, y)))
    }
}

// What the quotient times the divisor leaves.
#[tactic(auto, using(std::proofs::lemmas::Int::wraps))]
fn left_over(x: i32, y: i32) -> i32
    requires { IsNonZero w32 y }
    ensures { result ≡ int_wrap w32 (x -ℤ int_div x y *ℤ y) }
{
    x.wrapping_sub(product(x, y))
}

#[tactic(auto, using(std::proofs::lemmas::Int::wraps))]
fn product(x: i32, y: i32) -> i32
    requires { IsNonZero w32 y }
    ensures { result ≡ int_wrap w32 (int_div x y *ℤ y) }
{
    quotient(x, y).wrapping_mul(y)
}

// The least word by -1 is itself.
fn quotient(x: i32, y: i32) -> i32
    requires { IsNonZero w32 y }
    ensures { result ≡ int_wrap w32 (int_div x y) }
{
    x.wrapping_div(y)
}

/// Whether a comparison is true of two words or two pointers.
#[tactic(auto, using(crate::proofs::Comparisons::null_null, crate::proofs::Comparisons::null_block, crate::proofs::Comparisons::block_null, crate::proofs::Comparisons::block_block))]
pub fn compared(relation: Relation, x: Value, y: Value) -> Result<bool, Stop>
    ensures { IsOutcome relation x y result }
{
    match (x, y) {
        (Value::Word(x), Value::Word(y)) => compared_words(relation, x, y),
        (Value::Null, Value::Null) => compared_places(relation, true),
        (Value::Block(m), Value::Block(n)) => compared_places(relation, m == n),
        (Value::Null, Value::Block(_)) => compared_places(relation, false),
        (Value::Block(_), Value::Null) => compared_places(relation, false),
        _ => Err(Stop::Departs),
    }
}

fn compared_words(relation: Relation, x: i32, y: i32) -> Result<bool, Stop>
    ensures { IsOutcome relation (value.Word x) (value.Word y) result }
{
    match relation {
        Relation::Equal => Ok(x == y),
        Relation::Unequal => Ok(x != y),
        Relation::Less => Ok(x < y),
        Relation::Greater => Ok(y < x),
        Relation::AtMost => Ok(x <= y),
        Relation::AtLeast => Ok(y <= x),
        Relation::SamePlace => Err(Stop::Departs),
        Relation::OtherPlace => Err(Stop::Departs),
    }
}

fn compared_places(relation: Relation, same: bool) -> Result<bool, Stop>
    ensures { result ≡ place_outcome relation same }
{
    match relation {
        Relation::SamePlace => Ok(same),
        Relation::OtherPlace => Ok(!same),
        _ => Err(Stop::Departs),
    }
}

/// The value of a condition.
pub fn truth(holds: bool) -> Value
    ensures { result ≡ value.Word (cond holds (pos 1) (pos 0)) }
{
    if holds {
        Value::Word(1)
    } else {
        Value::Word(0)
    }
}
