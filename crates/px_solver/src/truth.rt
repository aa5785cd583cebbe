ghost use Rattle.std.specs.Prelude.{◌≡◌, ◌↔◌, ℕ, ◌+◌, ◌%◌, ◌^◌, ◌<◌, ◌≤◌, ◌<ℤ◌, ◌≤ℤ◌, true, length, All, slice_index};
ghost use Rattle.px_terms.specs.Words.{signed};
ghost use Rattle.px_terms.specs.Terms as spec;
ghost use Rattle.px_terms.specs.Polynomials.{value_of};
ghost use Rattle.px_terms.specs.Monomials.{term_of};
ghost use Rattle.px_terms.specs.Variables.{variables_of, mentioned};
ghost use Rattle.px_terms.specs.declared.conjuncts.Conj.TheVariants.{Quotient};
ghost use Rattle.px_plain.specs.Forest.{parent_at, IsForest};
ghost use Rattle.px_plain.specs.Ties.{IsTrueOf};
ghost use Rattle.px_solver.specs.Tables.{word_under};

use px_plain::Node;
use px_terms::{Conj, Monomial, Poly, Var, is_quotient};

// The word of a variable, from those of the roots.
pub(crate) fn word_at(table: &[Node], roots: &[u32], x: u32) -> u32
    requires forest { IsForest table.now }
    requires size { length roots.now ≡ length table.now }
    requires small { length table.now ≤ 65537 }
    requires inside { x + 1 < length table.now }
    ensures { result ≡ word_under table.now (slice_index roots.now) x % 2 ^ 32 }
{
    let node = table[x as usize + 1];
    roots[node.parent as usize].wrapping_add(node.offset)
}

// The product of the words of a monomial's variables.
fn product_at(m: &Monomial<4>, table: &[Node], roots: &[u32]) -> u32
    requires forest { IsForest table.now }
    requires size { length roots.now ≡ length table.now }
    requires small { length table.now ≤ 65537 }
    requires inside { All (λ x. x + 1 < length table.now) (term_of m.now).vars }
    ensures { result ≡ spec.product_at (word_under table.now (slice_index roots.now)) (term_of m.now).vars % 2 ^ 32 }
{
    let mut product: u32 = 1;
    let vars = m.vars();
    for i in 0..vars.len() {
        let word = word_at(table, roots, vars[i]);
        product = product.wrapping_mul(word);
    }
    product
}

// The word of a polynomial.
fn value_at(p: &Poly, table: &[Node], roots: &[u32]) -> u32
    requires forest { IsForest table.now }
    requires size { length roots.now ≡ length table.now }
    requires small { length table.now ≤ 65537 }
    requires inside { All (λ x. x + 1 < length table.now) (variables_of p.now) }
    ensures { result ≡ value_of (word_under table.now (slice_index roots.now)) p.now }
{
    let mut sum = p.constant();
    for m in p.monomials() {
        let product = product_at(m, table, roots);
        sum = sum.wrapping_add(m.coefficient().wrapping_mul(product));
    }
    sum
}

// Whether a variable is the quotient of two polynomials.
fn is_quotient_at(x: Var, p: &Poly, q: &Poly, table: &[Node], roots: &[u32]) -> bool
    requires forest { IsForest table.now }
    requires size { length roots.now ≡ length table.now }
    requires small { length table.now ≤ 65537 }
    requires variable { x.0 + 1 < length table.now }
    requires left { All (λ x. x + 1 < length table.now) (variables_of p.now) }
    requires right { All (λ x. x + 1 < length table.now) (variables_of q.now) }
    ensures { result ≡ true ↔ IsTrueOf (word_under table.now (slice_index roots.now)) (Quotient x p.now q.now) }
{
    let word = word_at(table, roots, x.0);
    let m = value_at(p, table, roots);
    let n = value_at(q, table, roots);
    is_quotient(word, m, n)
}

// Whether a conjunct on words is true; true for any other.
pub(crate) fn is_true(conjunct: &Conj, table: &[Node], roots: &[u32]) -> bool
    requires forest { IsForest table.now }
    requires size { length roots.now ≡ length table.now }
    requires small { length table.now ≤ 65537 }
    requires inside { All (λ x. x + 1 < length table.now) (mentioned conjunct.now) }
    ensures { result ≡ true ↔ IsTrueOf (word_under table.now (slice_index roots.now)) conjunct.now }
{
    match conjunct {
        Conj::Equal(p) => value_at(p, table, roots) == 0,
        Conj::Unequal(p) => value_at(p, table, roots) != 0,
        Conj::Less(p, q) => is_less(value_at(p, table, roots), value_at(q, table, roots)),
        Conj::AtMost(p, q) => is_at_most(value_at(p, table, roots), value_at(q, table, roots)),
        Conj::Quotient(x, p, q) => is_quotient_at(*x, p, q, table, roots),
        _ => true,
    }
}

// Whether a word is less than another, as signed numbers.
fn is_less(a: u32, b: u32) -> bool
    ensures { result ≡ true ↔ (signed a <ℤ signed b) }
{
    a.cast_signed() < b.cast_signed()
}

// Whether a word is at most another, as signed numbers.
fn is_at_most(a: u32, b: u32) -> bool
    ensures { result ≡ true ↔ (signed a ≤ℤ signed b) }
{
    a.cast_signed() <= b.cast_signed()
}
