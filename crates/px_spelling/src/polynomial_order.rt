ghost use Rattle.std.specs.Prelude.{◌≡◌, map};
ghost use Rattle.std.specs.Cmp.Lexicographic.{slice_cmp};
ghost use Rattle.px_terms.specs.Monomials.{term_of};
ghost use Rattle.px_spelling.specs.ByPlace.{term_cmp, polynomial_cmp};

use px_terms::{Monomial, Poly};
use std::cmp::Ordering;

fn order_monomials(a: &Monomial<4>, b: &Monomial<4>) -> Ordering
    ensures { result ≡ term_cmp (term_of a.now) (term_of b.now) }
{
    let by_coefficient = a.coefficient().cmp(&b.coefficient());
    by_coefficient.then(a.vars().cmp(b.vars()))
}

// One after another; at most 16 deep.
#[tactic(auto, using(crate::proofs::PlaceLemmas::after_nothing))]
fn order_all(a: &[Monomial<4>], b: &[Monomial<4>]) -> Ordering
    ensures { result ≡ slice_cmp term_cmp (map term_of a.now) (map term_of b.now) }
{
    match (a, b) {
        ([], []) => Ordering::Equal,
        ([], [_, ..]) => Ordering::Less,
        ([_, ..], []) => Ordering::Greater,
        ([first, a @ ..], [second, b @ ..]) => order_monomials(first, second).then(order_all(a, b)),
    }
}

/// The order of two polynomials: by their constants, then by their monomials. Only the same are equal. Takes no memory.
pub(crate) fn order(a: &Poly, b: &Poly) -> Ordering
    ensures { result ≡ polynomial_cmp a.now b.now }
{
    let by_constant = a.constant().cmp(&b.constant());
    by_constant.then(order_all(a.monomials(), b.monomials()))
}
