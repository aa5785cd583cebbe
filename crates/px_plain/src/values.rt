ghost use Rattle.std.specs.Prelude.{◌≡◌, ℕ, ◌+◌, length, IfOk};
ghost use Rattle.px_plain.specs.Models as spec;
ghost use Rattle.px_plain.specs.Models.{AreValuesOf};

use px_terms::{Value, ValueType, VarInfo};
use std::alloc::{AllocError, Global};

// The place of a number.
fn place_of_number(number: u32) -> Value
    ensures { result ≡ spec.place_of_number number }
{
    if number == 0 {
        Value::Null
    } else {
        Value::Block(number - 1)
    }
}

// The value of a variable of this type.
fn value_of(unwritten: bool, value: ValueType, word: u32, place: u32) -> Value
    ensures { result ≡ spec.value_of unwritten value word place }
{
    if unwritten {
        return Value::Unwritten;
    }
    match value {
        ValueType::Int => Value::Word(word.cast_signed()),
        ValueType::Pointer(_) => place_of_number(place),
    }
}

// The values of all variables.
pub(crate) fn values_of(
    alloc: Global,
    vars: &[VarInfo],
    marks: &[bool],
    words: &[u32],
    places: &[u32],
) -> Result<Vec<Value>, AllocError>
    requires marks { length marks.now ≡ length vars.now + 1 }
    requires words { length words.now ≡ length vars.now + 1 }
    requires places { length places.now ≡ length vars.now + 1 }
    ensures { IfOk result (λ vs. AreValuesOf vars.now marks.now words.now places.now vs.items) }
{
    let mut values = Vec::new(alloc);
    for x in 0..vars.len() {
        values.push(value_of(marks[x + 1], vars[x].value, words[x + 1], places[x + 1]))?;
    }
    Ok(values)
}
