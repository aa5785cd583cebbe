use anyhow::Result;
use px_entry::{Atom, AtomState};
use px_terms::{Conj, Content, Place, Poly, Var};
use std::alloc::Global;
use std::fmt::Write;

/// Writes a text after others, with this between them.
pub fn put_next(out: &mut String, between: &str, text: &str) -> Result<()> {
    if !out.is_empty() {
        out.push_str(between)?;
    }
    out.push_str(text)?;
    Ok(())
}

// The constant, and a `+` before each monomial.
fn write_polynomial(out: &mut String, p: &Poly) -> Result<()> {
    write!(out, "{}", p.constant())?;
    for m in p.monomials() {
        write!(out, "+{}", m.coefficient())?;
        for x in m.vars() {
            write!(out, "*{x}")?;
        }
    }
    Ok(())
}

fn polynomial_text(alloc: Global, p: &Poly) -> Result<String> {
    let mut out = String::new(alloc);
    write_polynomial(&mut out, p)?;
    Ok(out)
}

fn place_text(alloc: Global, place: Place) -> Result<String> {
    match place {
        Place::Null => Ok(String::from_str(alloc, "null")?),
        Place::Var(x) => Ok(format!(in alloc; "{}", x.0)?),
    }
}

/// A content as `states` reads it, but that the constant of a polynomial comes first.
pub fn content_text(alloc: Global, content: &Content) -> Result<String> {
    match content {
        Content::Unwritten => Ok(String::from_str(alloc, "u")?),
        Content::Word(p) => polynomial_text(alloc, p),
        Content::Place(Place::Null) => Ok(String::from_str(alloc, "null")?),
        Content::Place(Place::Var(x)) => Ok(format!(in alloc; "@{}", x.0)?),
        Content::Cell(x) => Ok(format!(in alloc; "c{}", x.0)?),
    }
}

/// Contents with a blank between them.
pub fn contents_text(alloc: Global, contents: &[Content]) -> Result<String> {
    let mut out = String::new(alloc);
    for content in contents {
        let text = content_text(alloc, content)?;
        put_next(&mut out, " ", text.as_str())?;
    }
    Ok(out)
}

/// A block, likewise.
pub fn block_text(alloc: Global, atom: &Atom) -> Result<String> {
    let state = block_state(alloc, &atom.state)?;
    Ok(format!(in alloc; "{} {} {}", atom.place.0, atom.block.0, state)?)
}

fn block_state(alloc: Global, state: &AtomState) -> Result<String> {
    match state {
        AtomState::Freed => Ok(String::from_str(alloc, "freed")?),
        AtomState::Live(cells) => live(alloc, cells.as_slice()),
    }
}

fn live(alloc: Global, cells: &[Content]) -> Result<String> {
    let mut out = String::from_str(alloc, "live")?;
    if !cells.is_empty() {
        let text = contents_text(alloc, cells)?;
        put_next(&mut out, " ", text.as_str())?;
    }
    Ok(out)
}

/// A conjunct, likewise.
pub fn conjunct_text(alloc: Global, conjunct: &Conj) -> Result<String> {
    match conjunct {
        Conj::Equal(p) => of_one(alloc, "zero", p),
        Conj::Unequal(p) => of_one(alloc, "other", p),
        Conj::Less(p, q) => of_two(alloc, "less", p, q),
        Conj::AtMost(p, q) => of_two(alloc, "most", p, q),
        Conj::SamePlace(a, b) => of_places(alloc, "same", *a, *b),
        Conj::OtherPlace(a, b) => of_places(alloc, "apart", *a, *b),
        Conj::Written(x) => of_variable(alloc, "written", *x),
        Conj::Unwritten(x) => of_variable(alloc, "unwritten", *x),
        Conj::Quotient(x, p, q) => of_quotient(alloc, *x, p, q),
    }
}

fn of_one(alloc: Global, word: &str, p: &Poly) -> Result<String> {
    let first = polynomial_text(alloc, p)?;
    Ok(format!(in alloc; "{word} {first}")?)
}

fn of_two(alloc: Global, word: &str, p: &Poly, q: &Poly) -> Result<String> {
    let first = polynomial_text(alloc, p)?;
    let second = polynomial_text(alloc, q)?;
    Ok(format!(in alloc; "{word} {first} {second}")?)
}

fn of_quotient(alloc: Global, x: Var, p: &Poly, q: &Poly) -> Result<String> {
    let first = polynomial_text(alloc, p)?;
    let second = polynomial_text(alloc, q)?;
    Ok(format!(in alloc; "quotient {} {first} {second}", x.0)?)
}

fn of_places(alloc: Global, word: &str, a: Place, b: Place) -> Result<String> {
    let first = place_text(alloc, a)?;
    let second = place_text(alloc, b)?;
    Ok(format!(in alloc; "{word} {first} {second}")?)
}

fn of_variable(alloc: Global, word: &str, x: Var) -> Result<String> {
    Ok(format!(in alloc; "{word} {}", x.0)?)
}
