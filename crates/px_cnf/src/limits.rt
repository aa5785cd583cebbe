ghost use Rattle.std.specs.Prelude.{◌≡◌, ◌↔◌, ◌<◌, ◌≤◌, ◌^◌, ◌*◌, true, length, All, IfErr, OnOk};
ghost use Rattle.px_cnf.specs.Standing.{IsComparison, polynomial_degree, conjunct_degree, degree_sum, most_degree_sum, IsRefused};

use crate::CnfFault;
use px_terms::{Conj, Poly};

/// The greatest sum of the degrees of all monomials.
const MOST_DEGREE_SUM: u64 = 64;

// Whether a conjunct is a comparison of words.
fn is_comparison(conjunct: &Conj) -> bool
    ensures { result ≡ true ↔ IsComparison conjunct.now }
{
    matches!(
        conjunct,
        Conj::Equal(_) | Conj::Unequal(_) | Conj::Less(_, _) | Conj::AtMost(_, _)
    )
}

// The sum of the degrees of a polynomial's monomials.
fn polynomial_degree(p: &Poly) -> u64
    ensures value { result ≡ polynomial_degree p.now }
    ensures small { result ≤ 64 }
{
    let mut sum = 0;
    for m in p.monomials() {
        sum += m.vars().len() as u64;
    }
    sum
}

// The same of a conjunct.
fn conjunct_degree(conjunct: &Conj) -> u64
    ensures value { result ≡ conjunct_degree conjunct.now }
    ensures small { result ≤ 128 }
{
    match conjunct {
        Conj::Equal(p) | Conj::Unequal(p) => polynomial_degree(p),
        Conj::Less(p, q) | Conj::AtMost(p, q) => polynomial_degree(p) + polynomial_degree(q),
        _ => 0,
    }
}

// Whether the conjuncts are comparisons of words, and not too large.
pub(crate) fn check(conjuncts: &[Conj]) -> Result<(), CnfFault>
    requires { length conjuncts.now < 2 ^ 32 }
    ensures words { OnOk result (All IsComparison conjuncts.now) }
    ensures small { OnOk result (degree_sum conjuncts.now ≤ most_degree_sum) }
    ensures refused { IfErr result (λ e. IsRefused e conjuncts.now) }
{
    for i in 0..conjuncts.len() {
        let comparison = is_comparison(&conjuncts[i]);
        if !comparison {
            return Err(CnfFault::Form(i as u32));
        }
    }
    let mut sum = 0;
    for i in 0..conjuncts.len() {
        sum += conjunct_degree(&conjuncts[i]);
    }
    if sum > MOST_DEGREE_SUM {
        return Err(CnfFault::Large(sum));
    }
    Ok(())
}
