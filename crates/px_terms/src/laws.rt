ghost use Rattle.px_terms.specs.Words.{WordsAreRing, WordsAreSigned, SignedOrder};
ghost use Rattle.px_terms.specs.Polynomials.{NormalForms};

/// Words are a ring: sums and products may be regrouped and turned round, and products distribute.
pub fn words_are_ring()
    ensures { WordsAreRing }
{}

/// Words are signed numbers in two's complement, and sums, differences and products of words are those
/// of signed numbers, wrapped to 32 bits.
pub fn words_are_signed()
    ensures { WordsAreSigned }
{}

/// The order of signed numbers is total.
pub fn signed_order()
    ensures { SignedOrder }
{}

/// The normal form of any terms is a polynomial with their value, and polynomials with the same
/// coefficients are one.
pub fn normal_forms()
    ensures { NormalForms }
{}
