ghost use Rattle.std.specs.Prelude.{IfOk};
ghost use Rattle.px_terms.specs.Polynomials.{sum_of, difference_of, product_of};
ghost use Rattle.px_match.specs.Operated.{IsKept};

use px_terms::{NoMemory, Poly, TermFault};

// The sum, unless it is too long.
pub(crate) fn sum(p: &Poly, q: &Poly) -> Result<Option<Poly>, NoMemory>
    ensures { IfOk result (λ r. IsKept r (sum_of p.now q.now)) }
{
    match p.add(q) {
        Ok(sum) => Ok(Some(sum)),
        Err(TermFault::Long) => Ok(None),
        Err(TermFault::NoMemory) => Err(NoMemory),
    }
}

// The difference, unless it is too long.
pub(crate) fn difference(p: &Poly, q: &Poly) -> Result<Option<Poly>, NoMemory>
    ensures { IfOk result (λ r. IsKept r (difference_of p.now q.now)) }
{
    match p.sub(q) {
        Ok(difference) => Ok(Some(difference)),
        Err(TermFault::Long) => Ok(None),
        Err(TermFault::NoMemory) => Err(NoMemory),
    }
}

// The product, unless it is too long.
pub(crate) fn product(p: &Poly, q: &Poly) -> Result<Option<Poly>, NoMemory>
    ensures { IfOk result (λ r. IsKept r (product_of p.now q.now)) }
{
    match p.mul(q) {
        Ok(product) => Ok(Some(product)),
        Err(TermFault::Long) => Ok(None),
        Err(TermFault::NoMemory) => Err(NoMemory),
    }
}
