ghost use Rattle.std.specs.Prelude.{◌≡◌, ◌↔◌, ℕ, ◌+◌, ◌*◌, ◌<◌, ◌≤◌, All, true, length, IfOk};
ghost use Rattle.px_terms.specs.Terms.{product_at};
ghost use Rattle.px_terms.specs.Monomials.{term_of};
ghost use Rattle.px_parity.specs.Bits.{plus, parity};
ghost use Rattle.px_parity.specs.Equations.{IsLinear, odd, column_of, columns, HasColumns, row_length, Says};

use crate::row::Row;
use px_terms::{Monomial, Poly};
use std::alloc::{AllocError, Global};

// Whether each term has at most one variable.
pub(crate) fn is_linear(p: &Poly) -> bool
    ensures { result ≡ true ↔ IsLinear p.now.monomials }
{
    for term in p.monomials() {
        if term.vars().len() > 1 {
            return false;
        }
    }
    true
}

// The column of a term of one variable, or of none.
fn column(term: &Monomial<4>) -> usize
    requires { column_of (term_of term.now).vars < 65537 }
    ensures { result ≡ column_of (term_of term.now).vars }
{
    match term.vars() {
        [] => 0,
        [x, ..] => *x as usize + 1,
    }
}

// Adds what a term is modulo 2.
fn add_term(row: &mut Row, term: &Monomial<4>)
    requires linear { length (term_of term.now).vars ≤ 1 }
    requires small { column_of (term_of term.now).vars < 65537 }
    requires inside { column_of (term_of term.now).vars < length row.old }
    ensures size { length row.new ≡ length row.old }
    ensures sum { (v : ℕ → ℕ) → parity (columns v) row.new ≡ plus (parity (columns v) row.old) (odd ((term_of term.now).coefficient * product_at v (term_of term.now).vars)) }
{
    if term.coefficient() % 2 == 1 {
        row.flip(column(term));
    }
}

// The last column of the terms.
fn last_column(p: &Poly) -> usize
    requires { HasColumns 65537 p.now.monomials }
    ensures small { result < 65537 }
    ensures last { HasColumns (result + 1) p.now.monomials }
{
    let mut last: usize = 0;
    for term in p.monomials() {
        last = last.max(column(term));
    }
    last
}

// The row of a constant, with room for the columns up to the last.
fn constant_row(alloc: Global, last: usize, constant: u32) -> Result<Row, AllocError>
    requires { last < 65537 }
    ensures size { IfOk result (λ r. length r ≡ row_length last) }
    ensures value { IfOk result (λ r. (v : ℕ → ℕ) → parity (columns v) r ≡ odd constant) }
{
    let mut row = Row::zero(alloc, last)?;
    if constant % 2 == 0 {
        return Ok(row);
    }
    row.flip(0);
    Ok(row)
}

// The row of a sum of terms of at most one variable, as long as its last variable needs.
pub(crate) fn equation(alloc: Global, p: &Poly) -> Result<Row, AllocError>
    requires linear { IsLinear p.now.monomials }
    requires few { HasColumns 65537 p.now.monomials }
    ensures { IfOk result (λ r. Says r p.now.constant p.now.monomials) }
{
    let last = last_column(p);
    let mut row = constant_row(alloc, last, p.constant())?;
    for term in p.monomials() {
        add_term(&mut row, term);
    }
    Ok(row)
}
