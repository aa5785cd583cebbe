use anyhow::{Result, bail};
use case_texts::polynomial;
use px_terms::{Content, Poly, TermFault, Var};
use std::alloc::Global;
use std::fmt::Write;

pub fn sum(alloc: Global, first: &str, second: &str) -> Result<String> {
    text_of(
        alloc,
        polynomial(alloc, first)?.add(&polynomial(alloc, second)?),
    )
}

pub fn difference(alloc: Global, first: &str, second: &str) -> Result<String> {
    text_of(
        alloc,
        polynomial(alloc, first)?.sub(&polynomial(alloc, second)?),
    )
}

pub fn product(alloc: Global, first: &str, second: &str) -> Result<String> {
    text_of(
        alloc,
        polynomial(alloc, first)?.mul(&polynomial(alloc, second)?),
    )
}

/// `N:P` and a polynomial: P stands for the variable N in it.
pub fn with_word(alloc: Global, first: &str, second: &str) -> Result<String> {
    let (x, word) = first.split_once(':').unwrap_or((first, ""));
    let content = Content::Word(polynomial(alloc, word)?);
    let p = polynomial(alloc, second)?.copy()?;
    text_of(alloc, p.substitute(&[(Var(x.parse()?), content)]))
}

/// `N:M` and a polynomial: the variable M stands for the variable N in it.
pub fn with_cell(alloc: Global, first: &str, second: &str) -> Result<String> {
    let (x, y) = first.split_once(':').unwrap_or((first, ""));
    let content = Content::Cell(Var(y.parse()?)).copy()?;
    let p = polynomial(alloc, second)?;
    text_of(alloc, p.substitute(&[(Var(x.parse()?), content)]))
}

// The constant and the monomials in their order, each its coefficient and its variables.
fn text_of(alloc: Global, made: Result<Poly, TermFault>) -> Result<String> {
    let p = match made {
        Ok(p) => p,
        Err(TermFault::Long) => return Ok(String::from_str(alloc, "long")?),
        Err(TermFault::NoMemory) => bail!("no memory"),
    };
    let mut out = format!(in alloc; "{}", p.constant())?;
    for m in p.monomials() {
        write!(out, " {}", m.coefficient())?;
        for x in m.vars() {
            write!(out, "*{x}")?;
        }
    }
    Ok(out)
}
