use px_terms::{Conj, Content, Monomial, NoMemory, Place, Poly, Value, ValueType, Var};
use px_text_report::{put, put_number};
use std::alloc::Global;

/// What stands between the items of a list, before all but the first.
pub fn put_between(out: &mut Vec<u8>, between: &[u8], place: usize) -> Result<(), NoMemory> {
    if place != 0 {
        put(out, between)?;
    }
    Ok(())
}

/// `int`, or `pointer` and the number of the block type.
pub fn put_value_type(alloc: Global, out: &mut Vec<u8>, value: ValueType) -> Result<(), NoMemory> {
    match value {
        ValueType::Int => put(out, b"int"),
        ValueType::Pointer(block) => {
            put(out, b"pointer ")?;
            put_number(alloc, out, u64::from(block.0))
        }
    }
}

/// `x` and the number of the variable.
pub fn put_variable(alloc: Global, out: &mut Vec<u8>, x: Var) -> Result<(), NoMemory> {
    put(out, b"x")?;
    put_number(alloc, out, u64::from(x.0))
}

pub fn put_place(alloc: Global, out: &mut Vec<u8>, place: Place) -> Result<(), NoMemory> {
    match place {
        Place::Null => put(out, b"null"),
        Place::Var(x) => put_variable(alloc, out, x),
    }
}

/// The value that the model of an entry gives to a variable.
pub fn put_value(alloc: Global, out: &mut Vec<u8>, value: Value) -> Result<(), NoMemory> {
    match value {
        Value::Word(word) => {
            put_sign(out, word < 0, true)?;
            put_number(alloc, out, u64::from(word.unsigned_abs()))
        }
        Value::Null => put(out, b"null"),
        Value::Block(number) => {
            put(out, b"block")?;
            put_number(alloc, out, u64::from(number))
        }
        Value::Unwritten => put(out, b"unwritten"),
    }
}

/// The monomials in order and then the constant, all with their sign.
pub fn put_polynomial(alloc: Global, out: &mut Vec<u8>, p: &Poly) -> Result<(), NoMemory> {
    for (place, monomial) in p.monomials().iter().enumerate() {
        put_monomial(alloc, out, monomial, place == 0)?;
    }
    let is_alone = p.monomials().is_empty();
    let constant = p.constant().cast_signed();
    if is_alone || constant != 0 {
        put_sign(out, constant < 0, is_alone)?;
        put_number(alloc, out, u64::from(constant.unsigned_abs()))?;
    }
    Ok(())
}

// What is before a term: of the first a minus alone.
fn put_sign(out: &mut Vec<u8>, is_negative: bool, is_first: bool) -> Result<(), NoMemory> {
    put(
        out,
        match (is_negative, is_first) {
            (false, false) => b" + ",
            (false, true) => b"",
            (true, false) => b" - ",
            (true, true) => b"-",
        },
    )
}

// A coefficient that isn't 1 or -1, and the variables, with `*` between them.
fn put_monomial(
    alloc: Global,
    out: &mut Vec<u8>,
    monomial: &Monomial<4>,
    is_first: bool,
) -> Result<(), NoMemory> {
    let coefficient = monomial.coefficient().cast_signed();
    put_sign(out, coefficient < 0, is_first)?;
    let size = coefficient.unsigned_abs();
    if size != 1 {
        put_number(alloc, out, u64::from(size))?;
        put(out, b"*")?;
    }
    for (place, x) in monomial.vars().iter().enumerate() {
        put_between(out, b"*", place)?;
        put_variable(alloc, out, Var(*x))?;
    }
    Ok(())
}

/// What a cell or a result is.
pub fn put_content(alloc: Global, out: &mut Vec<u8>, content: &Content) -> Result<(), NoMemory> {
    match content {
        Content::Unwritten => put(out, b"unwritten"),
        Content::Word(p) => {
            put(out, b"word ")?;
            put_polynomial(alloc, out, p)
        }
        Content::Place(place) => {
            put(out, b"place ")?;
            put_place(alloc, out, *place)
        }
        Content::Cell(x) => {
            put(out, b"cell ")?;
            put_variable(alloc, out, *x)
        }
    }
}

/// The name of its kind, and what it speaks of in brackets.
pub fn put_conjunct(alloc: Global, out: &mut Vec<u8>, conjunct: &Conj) -> Result<(), NoMemory> {
    match conjunct {
        Conj::Equal(p) => put_of_one(alloc, out, b"Equal(", p),
        Conj::Unequal(p) => put_of_one(alloc, out, b"Unequal(", p),
        Conj::Less(p, q) => put_of_two(alloc, out, b"Less(", p, q),
        Conj::AtMost(p, q) => put_of_two(alloc, out, b"AtMost(", p, q),
        Conj::SamePlace(a, b) => put_of_places(alloc, out, b"SamePlace(", *a, *b),
        Conj::OtherPlace(a, b) => put_of_places(alloc, out, b"OtherPlace(", *a, *b),
        Conj::Written(x) => put_of_variable(alloc, out, b"Written(", *x),
        Conj::Unwritten(x) => put_of_variable(alloc, out, b"Unwritten(", *x),
        Conj::Quotient(x, p, q) => put_quotient(alloc, out, *x, p, q),
    }
}

fn put_of_one(alloc: Global, out: &mut Vec<u8>, name: &[u8], p: &Poly) -> Result<(), NoMemory> {
    put(out, name)?;
    put_polynomial(alloc, out, p)?;
    put(out, b")")
}

fn put_of_two(
    alloc: Global,
    out: &mut Vec<u8>,
    name: &[u8],
    p: &Poly,
    q: &Poly,
) -> Result<(), NoMemory> {
    put(out, name)?;
    put_polynomial(alloc, out, p)?;
    put(out, b", ")?;
    put_polynomial(alloc, out, q)?;
    put(out, b")")
}

fn put_quotient(
    alloc: Global,
    out: &mut Vec<u8>,
    x: Var,
    p: &Poly,
    q: &Poly,
) -> Result<(), NoMemory> {
    put(out, b"Quotient(")?;
    put_variable(alloc, out, x)?;
    put_of_two(alloc, out, b", ", p, q)
}

fn put_of_places(
    alloc: Global,
    out: &mut Vec<u8>,
    name: &[u8],
    a: Place,
    b: Place,
) -> Result<(), NoMemory> {
    put(out, name)?;
    put_place(alloc, out, a)?;
    put(out, b", ")?;
    put_place(alloc, out, b)?;
    put(out, b")")
}

fn put_of_variable(alloc: Global, out: &mut Vec<u8>, name: &[u8], x: Var) -> Result<(), NoMemory> {
    put(out, name)?;
    put_variable(alloc, out, x)?;
    put(out, b")")
}

/// Conjuncts with `, ` between them.
pub fn put_conjuncts(alloc: Global, out: &mut Vec<u8>, conjuncts: &[Conj]) -> Result<(), NoMemory> {
    for (place, conjunct) in conjuncts.iter().enumerate() {
        put_between(out, b", ", place)?;
        put_conjunct(alloc, out, conjunct)?;
    }
    Ok(())
}
