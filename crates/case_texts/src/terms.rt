use anyhow::{Context, Result, bail};
use px_terms::{Conj, Place, Poly, Sort, TypeId, ValueType, Var, VarInfo};
use std::alloc::Global;

/// Variables, a letter each: an `int` that is given (`g`), read (`i`), in a cell (`c`) or made (`m`), and a
/// pointer to blocks of the first, second or third type that is given (`p`, `q`, `r`) or made (`x`, `y`, `z`), or to
/// the first or second that is in a cell (`k`, `l`). A `-` is no variable.
pub fn variables(alloc: Global, letters: &str) -> Result<Vec<VarInfo>> {
    let mut variables = Vec::new(alloc);
    for letter in letters.chars() {
        if letter != '-' {
            variables.push(variable(letter)?)?;
        }
    }
    Ok(variables)
}

fn variable(letter: char) -> Result<VarInfo> {
    let sort = match letter {
        'g' | 'p' | 'q' | 'r' => Sort::Given,
        'i' => Sort::Input,
        'c' | 'k' | 'l' => Sort::Cell,
        'm' | 'x' | 'y' | 'z' => Sort::Made,
        _ => bail!("no variable"),
    };
    let value = match letter {
        'p' | 'k' | 'x' => ValueType::Pointer(TypeId(0)),
        'q' | 'l' | 'y' => ValueType::Pointer(TypeId(1)),
        'r' | 'z' => ValueType::Pointer(TypeId(2)),
        _ => ValueType::Int,
    };
    Ok(VarInfo { sort, value })
}

/// A sum of terms with a `+` between them, each a coefficient and a `*N` for each variable N in it.
pub fn polynomial(alloc: Global, text: &str) -> Result<Poly> {
    let mut sum = Poly::word(alloc, 0)?;
    for term in text.split('+') {
        sum = sum.add(&product(alloc, term)?)?;
    }
    Ok(sum)
}

fn product(alloc: Global, text: &str) -> Result<Poly> {
    let mut product = None;
    for factor in text.split('*') {
        product = match product {
            None => Some(Poly::word(alloc, factor.parse()?)?),
            Some(product) => Some(times(alloc, product, factor)?),
        };
    }
    product.context("no term")
}

fn times(alloc: Global, product: Poly, factor: &str) -> Result<Poly> {
    Ok(product.mul(&Poly::var(alloc, Var(factor.parse()?))?)?)
}

/// Conjuncts with `, ` between them: a word, and one or two polynomials, places or variables.
pub fn conjuncts(alloc: Global, text: &str) -> Result<Vec<Conj>> {
    let mut conjuncts = Vec::new(alloc);
    if !text.is_empty() {
        for part in text.split(',') {
            conjuncts.push(conjunct(alloc, part.trim())?)?;
        }
    }
    Ok(conjuncts)
}

/// One of them.
pub fn conjunct(alloc: Global, text: &str) -> Result<Conj> {
    let (word, rest) = text.split_once(' ').context("no conjunct")?;
    let (first, second) = rest.split_once(' ').unwrap_or((rest, ""));
    Ok(match word {
        "zero" => Conj::Equal(polynomial(alloc, first)?),
        "other" => Conj::Unequal(polynomial(alloc, first)?),
        "less" => Conj::Less(polynomial(alloc, first)?, polynomial(alloc, second)?),
        "most" => Conj::AtMost(polynomial(alloc, first)?, polynomial(alloc, second)?),
        "same" => Conj::SamePlace(place(first)?, place(second)?),
        "apart" => Conj::OtherPlace(place(first)?, place(second)?),
        "written" => Conj::Written(Var(first.parse()?)),
        "unwritten" => Conj::Unwritten(Var(first.parse()?)),
        "quotient" => quotient(alloc, Var(first.parse()?), second)?,
        _ => bail!("no conjunct"),
    })
}

fn quotient(alloc: Global, x: Var, text: &str) -> Result<Conj> {
    let (first, second) = text.split_once(' ').context("no quotient")?;
    Ok(Conj::Quotient(x, polynomial(alloc, first)?, polynomial(alloc, second)?))
}

fn place(text: &str) -> Result<Place> {
    if text == "null" {
        return Ok(Place::Null);
    }
    Ok(Place::Var(Var(text.parse()?)))
}
