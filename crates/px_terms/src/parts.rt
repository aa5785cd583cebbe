ghost use Rattle.std.specs.Prelude.{◌≡◌, ◌↔◌, ℕ, ◌-◌, ◌<◌, true, length, map};
ghost use Rattle.std.specs.declared.cmp.Ordering.TheVariants.{Less};
ghost use Rattle.std.specs.List.Sorted.{IsNonDecreasing};
ghost use Rattle.px_terms.specs.Terms.{key_cmp, IsNormal};
ghost use Rattle.px_terms.specs.Parts.{term_at, IsNormalAt};
ghost use Rattle.px_terms.specs.Monomials.{term_of};

use crate::merge::order;
use crate::monomial::Monomial;
use std::cmp::Ordering;

// Whether both monomials are the same term.
fn same_monomial<const N: usize>(a: &Monomial<N>, b: &Monomial<N>) -> bool
    ensures { result ≡ true ↔ term_of a.now ≡ term_of b.now }
{
    a.coefficient == b.coefficient && same_variables(&a.vars[..a.degree], &b.vars[..b.degree])
}

// Whether both lists have the same variables.
fn same_variables(a: &[u32], b: &[u32]) -> bool
    ensures { result ≡ true ↔ a.now ≡ b.now }
{
    a == b
}

// Whether the monomials at this place are the same term.
fn same_at<const N: usize>(a: &[Monomial<N>], b: &[Monomial<N>], i: usize) -> bool
    requires left { i < length a.now }
    requires right { i < length b.now }
    ensures { result ≡ true ↔ term_at (map term_of a.now) i ≡ term_at (map term_of b.now) i }
{
    same_monomial(&a[i], &b[i])
}

// Whether both lists are the same terms.
pub(crate) fn same_monomials<const N: usize>(a: &[Monomial<N>], b: &[Monomial<N>]) -> bool
    ensures { result ≡ true ↔ map term_of a.now ≡ map term_of b.now }
{
    if a.len() != b.len() {
        return false;
    }
    for i in 0..a.len() {
        if !same_at(a, b, i) {
            return false;
        }
    }
    true
}

// Whether numbers don't fall.
fn are_in_order(xs: &[u32]) -> bool
    ensures { result ≡ true ↔ IsNonDecreasing xs.now }
{
    for i in 1..xs.len() {
        if xs[i] < xs[i - 1] {
            return false;
        }
    }
    true
}

// Whether a monomial is after the one before it, if there is one.
fn is_after<const N: usize>(monomials: &[Monomial<N>], i: usize) -> bool
    requires { i < length monomials.now }
    ensures { result ≡ true ↔ (0 < i → key_cmp (term_at (map term_of monomials.now) (i - 1)).vars (term_at (map term_of monomials.now) i).vars ≡ Less) }
{
    i == 0 || matches!(order(&monomials[i - 1], &monomials[i]), Ordering::Less)
}

// Whether a monomial has its normal form, and its place.
fn is_normal_at<const N: usize>(monomials: &[Monomial<N>], i: usize) -> bool
    requires { i < length monomials.now }
    ensures { result ≡ true ↔ IsNormalAt (map term_of monomials.now) i }
{
    let m = &monomials[i];
    m.coefficient() != 0 && m.vars().len() > 0 && are_in_order(m.vars()) && is_after(monomials, i)
}

// Whether monomials are in normal form.
pub(crate) fn is_normal<const N: usize>(monomials: &[Monomial<N>]) -> bool
    ensures { result ≡ true ↔ IsNormal (map term_of monomials.now) }
{
    for i in 0..monomials.len() {
        if !is_normal_at(monomials, i) {
            return false;
        }
    }
    true
}
