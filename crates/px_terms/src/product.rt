ghost use Rattle.std.specs.Prelude.{◌≡◌, ℕ, ◌+◌, ◌++◌, ◌≤◌, [], ◌∷◌, map, All, IfOk};
ghost use Rattle.px_terms.specs.Terms.{gathered, IsRising, IsNormal};
ghost use Rattle.px_terms.specs.Rows.{row_of, rows_of, scalar_of};
ghost use Rattle.px_terms.specs.Monomials.{term_of};

use crate::merge::add_row;
use crate::monomial::Monomial;
use std::alloc::{AllocError, Global};

// A word, as a monomial without variables.
pub(crate) fn scalar<const N: usize>(coefficient: u32) -> Monomial<N>
    ensures term { term_of result ≡ scalar_of coefficient }
    ensures degree { result.degree ≡ 0 }
{
    Monomial {
        coefficient,
        degree: 0,
        vars: [0; N],
    }
}

// The highest degree of some monomials, or 0.
pub(crate) fn degree_of<const N: usize>(monomials: &[Monomial<N>]) -> usize
    ensures all { All (λ m. m.degree ≤ result) monomials.now }
    ensures room { result ≤ N }
{
    let mut degree = 0;
    for m in monomials {
        degree = m.degree.max(degree);
    }
    degree
}

// Some monomials and a word times others.
fn add_scaled<const N: usize>(
    alloc: Global,
    all: Vec<Monomial<N>>,
    word: u32,
    others: &[Monomial<N>],
) -> Result<Vec<Monomial<N>>, AllocError>
    requires left { IsRising (map term_of all.items) }
    requires right { IsNormal (map term_of others.now) }
    ensures { IfOk result (λ v. map term_of v.items ≡ gathered (map term_of all.entry.items ++ row_of (scalar_of word) (map term_of others.now))) }
{
    if word == 0 {
        return Ok(all);
    }
    add_row(alloc, &all, &scalar(word), others)
}

// The monomials of the product of two polynomials, each with its constant.
pub(crate) fn product<const N: usize>(
    alloc: Global,
    c: u32,
    a: &[Monomial<N>],
    d: u32,
    b: &[Monomial<N>],
) -> Result<Vec<Monomial<N>>, AllocError>
    requires left { IsNormal (map term_of a.now) }
    requires right { IsNormal (map term_of b.now) }
    requires room { All (λ s. All (λ m. s.degree + m.degree ≤ N) b.now) a.now }
    ensures { IfOk result (λ v. map term_of v.items ≡ gathered (row_of (scalar_of d) (map term_of a.now) ++ row_of (scalar_of c) (map term_of b.now) ++ rows_of (map term_of a.now) (map term_of b.now))) }
{
    let mut all = add_scaled(alloc, Vec::new(alloc), d, a)?;
    all = add_scaled(alloc, all, c, b)?;
    for s in a {
        all = add_row(alloc, &all, s, b)?;
    }
    Ok(all)
}
