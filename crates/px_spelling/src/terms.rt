ghost use Rattle.std.specs.Prelude.{◌≡◌, ◌↔◌, ◌++◌, true, IfOk};
ghost use Rattle.px_spelling.specs.Reading.{Gives};

use crate::{Output, Wire, WireFault};
use px_terms::Poly;
use std::alloc::Global;

/// How polynomials are spelled in what holds them.
pub trait Terms {
    ghost use Rattle.px_spelling.specs.Polynomials.{PolynomialSpelling};

    // their bytes, those that have some, and what is read
    ghost spelling: { Self → PolynomialSpelling };

    /// Puts the bytes of a polynomial. Takes no memory.
    fn write_polynomial<O: Output>(&self, polynomial: &Poly, out: &mut O, target: &mut O::Target)
        ensures written { O.written out.new ≡ O.written out.old ++ (spelling self.now).bytes_of polynomial.now }
        ensures reached { (from : O.Target) → O.reaches from out.old target.old → O.reaches from out.new target.new };

    /// The polynomial at the front, and the bytes after it.
    fn read_polynomial<'a>(
        &self,
        alloc: Global,
        bytes: &'a [u8],
    ) -> Result<(Poly, &'a [u8]), WireFault>
        ensures reads { Gives (λ x. (x.0, x.1.now)) result ((spelling self.now).at bytes.now) }
        ensures spelled { IfOk result (λ x. (bytes.now ≡ (spelling self.now).bytes_of x.0 ++ x.1.now) × (spelling self.now).fits x.0) };

    /// Whether a polynomial has a spelling, so that its bytes are read again as it is. Takes no memory.
    fn is_in_range(&self, polynomial: &Poly) -> bool
        ensures { result ≡ true ↔ (spelling self.now).fits polynomial.now };
}

/// Each polynomial in full.
#[derive(Clone, Copy)]
pub struct InFull;

impl Terms for InFull {
    ghost use Rattle.px_spelling.specs.Polynomials.{in_full};

    ghost spelling = { λ s. in_full };

    fn write_polynomial<O: Output>(&self, polynomial: &Poly, out: &mut O, target: &mut O::Target) {
        polynomial.write(out, target)
    }

    fn read_polynomial<'a>(
        &self,
        alloc: Global,
        bytes: &'a [u8],
    ) -> Result<(Poly, &'a [u8]), WireFault> {
        Poly::read(alloc, bytes)
    }

    fn is_in_range(&self, polynomial: &Poly) -> bool {
        polynomial.is_in_range()
    }
}

/// No polynomial, for what holds none.
pub(crate) struct NoTerms;

impl Terms for NoTerms {
    ghost use Rattle.px_spelling.specs.Polynomials.{no_polynomials};

    ghost spelling = { λ s. no_polynomials };

    fn write_polynomial<O: Output>(&self, _: &Poly, _: &mut O, _: &mut O::Target) {}

    fn read_polynomial<'a>(&self, _: Global, _: &'a [u8]) -> Result<(Poly, &'a [u8]), WireFault> {
        Err(WireFault::NotAMessage)
    }

    fn is_in_range(&self, _: &Poly) -> bool {
        false
    }
}
