ghost use Rattle.std.specs.Prelude.{◌≡◌, ◌≤◌, map, All, IfOk};
ghost use Rattle.px_terms.specs.Monomials.{term_of};

use crate::monomial::Monomial;
use std::alloc::{AllocError, Global};

// The same monomial with room for another number of variables.
fn resized<const N: usize, const M: usize>(m: &Monomial<N>) -> Monomial<M>
    requires { m.now.degree ≤ M }
    ensures { term_of result ≡ term_of m.now }
{
    let mut vars = [0; M];
    vars[..m.degree].copy_from_slice(&m.vars[..m.degree]);
    Monomial {
        coefficient: m.coefficient,
        degree: m.degree,
        vars,
    }
}

// The same monomials with room for another number of variables.
pub(crate) fn resized_all<const N: usize, const M: usize>(
    alloc: Global,
    monomials: &[Monomial<N>],
) -> Result<Vec<Monomial<M>>, AllocError>
    requires { All (λ m. m.degree ≤ M) monomials.now }
    ensures { IfOk result (λ v. map term_of v.items ≡ map term_of monomials.now) }
{
    let mut all = Vec::with_capacity(alloc, monomials.len())?;
    for m in monomials {
        all.push(resized(m))?;
    }
    Ok(all)
}
