ghost use Rattle.std.specs.Prelude.{◌≡◌, ◌↔◌, ℕ, ◌+◌, ◌<◌, ◌≤◌, [], ◌∷◌, true, length, map, All, IfOk, IsErrOf};
ghost use Rattle.px_terms.specs.Words.{word, word_sum, word_difference, word_product};
ghost use Rattle.px_terms.specs.Terms.{IsNormal};
ghost use Rattle.px_terms.specs.Polynomials.{Polynomial, IsPolynomial, IsWithinLimits, IsTooLong, most_monomials, most_degree, value_of, sum_of, difference_of, product_of};
ghost use Rattle.px_terms.specs.Substitutions.{StandsForWords, substitution_of, images_at};
ghost use Rattle.px_terms.specs.Monomials.{term_of};
ghost use Rattle.px_terms.specs.declared.faults.TermFault.TheVariants as fault;
ghost use Rattle.px_terms.specs.declared.faults.PartsFault.TheVariants as parts;

use crate::merge::add_row;
use crate::monomial::Monomial;
use crate::parts::{is_normal, same_monomials};
use crate::product::{degree_of, product, scalar};
use crate::sizes::resized_all;
use crate::wide::{substitute_all, substitute_linear};
use crate::{Content, NoMemory, PartsFault, TermFault, Var};
use std::alloc::Global;
use std::marker::Model;

/// How many monomials a polynomial has at most.
const MOST_MONOMIALS: usize = 16;
/// The highest degree of a monomial.
const MOST_DEGREE: usize = 4;

/// A polynomial over variables modulo 2^32, in normal form.
///
/// It is a constant and at most 16 monomials. A monomial is a coefficient other than 0 and one to four
/// variables in order, repeats allowed. Monomials stand by rising degree, then by their variables, each once.
pub struct Poly {
    alloc: Global,
    constant: u32,
    monomials: Vec<Monomial<4>>,
}

impl Model for Poly {
    ghost use Rattle.std.specs.Prelude.{map};
    ghost use Rattle.px_terms.specs.Polynomials.{Polynomial, IsPolynomial, IsWithinLimits};
    ghost use Rattle.px_terms.specs.Monomials.{term_of};

    ghost Value = { Polynomial };

    ghost view = { λ p. record { constant = p.constant; monomials = map term_of p.monomials.items } };

    ghost invariant = { λ p. IsPolynomial (record { constant = p.constant; monomials = map term_of p.monomials.items }) × IsWithinLimits (record { constant = p.constant; monomials = map term_of p.monomials.items }) };
}

impl Poly {
    /// A word as a polynomial.
    pub fn word(alloc: Global, c: i32) -> Result<Poly, NoMemory>
        ensures { IfOk result (λ p. p ≡ record { constant = word c; monomials = [] }) }
    {
        Ok(Poly {
            alloc,
            constant: c.cast_unsigned(),
            monomials: Vec::new(alloc),
        })
    }

    /// A word, as a number, as a polynomial. Takes no memory.
    pub fn number(alloc: Global, c: u32) -> Poly
        ensures { result ≡ record { constant = c; monomials = [] } }
    {
        Poly {
            alloc,
            constant: c,
            monomials: Vec::new(alloc),
        }
    }

    /// A variable as a polynomial.
    pub fn var(alloc: Global, v: Var) -> Result<Poly, NoMemory>
        ensures { IfOk result (λ p. p ≡ record { constant = 0; monomials = record { coefficient = 1; vars = v.0 ∷ [] } ∷ [] }) }
    {
        let mut monomials = Vec::new(alloc);
        monomials.push(Monomial {
            coefficient: 1,
            degree: 1,
            vars: [v.0, 0, 0, 0],
        })?;
        Ok(Poly {
            alloc,
            constant: 0,
            monomials,
        })
    }

    /// The same polynomial.
    pub fn copy(&self) -> Result<Poly, NoMemory>
        ensures { IfOk result (λ p. p ≡ self.now) }
    {
        Ok(Poly {
            alloc: self.alloc,
            constant: self.constant,
            monomials: Vec::from_slice(self.alloc, &self.monomials)?,
        })
    }

    /// The polynomial of these parts: refused where they are too many, or not in normal form. Takes no memory.
    pub fn from_parts(
        alloc: Global,
        constant: u32,
        monomials: Vec<Monomial<4>>,
    ) -> Result<Poly, PartsFault>
        ensures value { IfOk result (λ p. p ≡ record { constant = constant; monomials = map term_of monomials.items }) }
        ensures normal { IfOk result (λ p. IsNormal (map term_of monomials.items) × (length monomials.items ≤ most_monomials)) }
        ensures many { IsErrOf result parts.TooMany → most_monomials < length monomials.items }
        ensures order { IsErrOf result parts.NotNormal → (length monomials.items ≤ most_monomials) × (¬ IsNormal (map term_of monomials.items)) }
    {
        if monomials.len() > MOST_MONOMIALS {
            return Err(PartsFault::TooMany);
        }
        if !is_normal(&monomials) {
            return Err(PartsFault::NotNormal);
        }
        Ok(Poly {
            alloc,
            constant,
            monomials,
        })
    }

    /// Whether both are the same polynomial. Takes no memory.
    pub fn equals(&self, other: &Poly) -> bool
        ensures { result ≡ true ↔ self.now ≡ other.now }
    {
        self.constant == other.constant && same_monomials(&self.monomials, &other.monomials)
    }

    /// The constant. Takes no memory.
    pub fn constant(&self) -> u32
        ensures value { result ≡ self.now.constant }
        ensures form { IsPolynomial self.now × IsWithinLimits self.now }
    {
        self.constant
    }

    /// The monomials. Takes no memory.
    pub fn monomials(&self) -> &[Monomial<4>]
        ensures value { map term_of result.now ≡ self.now.monomials }
        ensures form { IsPolynomial self.now × IsWithinLimits self.now }
    {
        &self.monomials
    }

    /// The sum. `NoMemory` leaves both as they are.
    pub fn add(&self, other: &Poly) -> Result<Poly, TermFault>
        ensures form { IfOk result (λ p. p ≡ sum_of self.now other.now) }
        ensures value { IfOk result (λ p. (v : ℕ → ℕ) → value_of v p ≡ word_sum (value_of v self.now) (value_of v other.now)) }
        ensures short { IfOk result (λ p. IsWithinLimits p) }
        ensures long { IsErrOf result fault.Long → IsTooLong (sum_of self.now other.now) }
    {
        let monomials = add_row(self.alloc, &self.monomials, &scalar(1), &other.monomials)?;
        within_limits(
            self.alloc,
            self.constant.wrapping_add(other.constant),
            monomials,
        )
    }

    /// The difference. `NoMemory` leaves both as they are.
    pub fn sub(&self, other: &Poly) -> Result<Poly, TermFault>
        ensures form { IfOk result (λ p. p ≡ difference_of self.now other.now) }
        ensures value { IfOk result (λ p. (v : ℕ → ℕ) → value_of v p ≡ word_difference (value_of v self.now) (value_of v other.now)) }
        ensures short { IfOk result (λ p. IsWithinLimits p) }
        ensures long { IsErrOf result fault.Long → IsTooLong (difference_of self.now other.now) }
    {
        let monomials = add_row(
            self.alloc,
            &self.monomials,
            &scalar(u32::MAX),
            &other.monomials,
        )?;
        within_limits(
            self.alloc,
            self.constant.wrapping_sub(other.constant),
            monomials,
        )
    }

    /// The product. `NoMemory` leaves both as they are.
    pub fn mul(&self, other: &Poly) -> Result<Poly, TermFault>
        ensures form { IfOk result (λ p. p ≡ product_of self.now other.now) }
        ensures value { IfOk result (λ p. (v : ℕ → ℕ) → value_of v p ≡ word_product (value_of v self.now) (value_of v other.now)) }
        ensures short { IfOk result (λ p. IsWithinLimits p) }
        ensures long { IsErrOf result fault.Long → IsTooLong (product_of self.now other.now) }
    {
        let (a, b) = (&self.monomials, &other.monomials);
        if degree_of(a) + degree_of(b) <= 4 {
            short_product(self.alloc, self.constant, a, other.constant, b)
        } else {
            wide_product(self.alloc, self.constant, a, other.constant, b)
        }
    }

    /// The polynomial in which contents stand for variables: for each variable the first content of `with`
    /// that is paired with it, and the variable itself where there is none. `Cell(v)` stands for the
    /// word that `v` has. `NoMemory` leaves the polynomial as it is.
    pub fn substitute(&self, with: &[(Var, Content)]) -> Result<Poly, TermFault>
        requires { StandsForWords with.now self.now }
        ensures form { IfOk result (λ p. p ≡ substitution_of with.now self.now) }
        ensures value { IfOk result (λ p. (v : ℕ → ℕ) → value_of v p ≡ value_of (images_at with.now v) self.now) }
        ensures short { IfOk result (λ p. IsWithinLimits p) }
        ensures long { IsErrOf result fault.Long → IsTooLong (substitution_of with.now self.now) }
    {
        let all = &self.monomials;
        if degree_of(all) <= 1 {
            linear_substitution(self.alloc, self.constant, all, with)
        } else {
            wide_substitution(self.alloc, self.constant, all, with)
        }
    }
}

// What a substitution gives where no monomial has two variables.
fn linear_substitution(
    alloc: Global,
    constant: u32,
    monomials: &[Monomial<4>],
    with: &[(Var, Content)],
) -> Result<Poly, TermFault>
    requires form { IsPolynomial (record { constant = constant; monomials = map term_of monomials.now }) }
    requires words { StandsForWords with.now (record { constant = constant; monomials = map term_of monomials.now }) }
    requires linear { All (λ m. m.degree ≤ 1) monomials.now }
    ensures form { IfOk result (λ p. p ≡ substitution_of with.now (record { constant = constant; monomials = map term_of monomials.now })) }
    ensures short { IfOk result (λ p. IsWithinLimits p) }
    ensures long { IsErrOf result fault.Long → IsTooLong (substitution_of with.now (record { constant = constant; monomials = map term_of monomials.now })) }
{
    let sum = substitute_linear(alloc, constant, monomials, with)?;
    within_limits(alloc, sum.constant, sum.into_monomials())
}

// What a substitution gives where monomials may have several variables.
fn wide_substitution(
    alloc: Global,
    constant: u32,
    monomials: &[Monomial<4>],
    with: &[(Var, Content)],
) -> Result<Poly, TermFault>
    requires form { IsPolynomial (record { constant = constant; monomials = map term_of monomials.now }) }
    requires words { StandsForWords with.now (record { constant = constant; monomials = map term_of monomials.now }) }
    ensures form { IfOk result (λ p. p ≡ substitution_of with.now (record { constant = constant; monomials = map term_of monomials.now })) }
    ensures short { IfOk result (λ p. IsWithinLimits p) }
    ensures long { IsErrOf result fault.Long → IsTooLong (substitution_of with.now (record { constant = constant; monomials = map term_of monomials.now })) }
{
    let wide = substitute_all(alloc, constant, monomials, with)?;
    narrowed(alloc, wide.constant, &wide.monomials)
}

// The product of two polynomials whose degrees leave room.
fn short_product(
    alloc: Global,
    c: u32,
    a: &[Monomial<4>],
    d: u32,
    b: &[Monomial<4>],
) -> Result<Poly, TermFault>
    requires left { IsPolynomial (record { constant = c; monomials = map term_of a.now }) }
    requires right { IsPolynomial (record { constant = d; monomials = map term_of b.now }) }
    requires room { All (λ s. All (λ m. s.degree + m.degree ≤ most_degree) b.now) a.now }
    ensures form { IfOk result (λ p. p ≡ product_of (record { constant = c; monomials = map term_of a.now }) (record { constant = d; monomials = map term_of b.now })) }
    ensures value { IfOk result (λ p. (v : ℕ → ℕ) → value_of v p ≡ word_product (value_of v (record { constant = c; monomials = map term_of a.now })) (value_of v (record { constant = d; monomials = map term_of b.now }))) }
    ensures short { IfOk result (λ p. IsWithinLimits p) }
    ensures long { IsErrOf result fault.Long → IsTooLong (product_of (record { constant = c; monomials = map term_of a.now }) (record { constant = d; monomials = map term_of b.now })) }
{
    let monomials = product(alloc, c, a, d, b)?;
    within_limits(alloc, c.wrapping_mul(d), monomials)
}

// The product of two polynomials, whose terms may be of too high a degree before they are gathered.
fn wide_product(
    alloc: Global,
    c: u32,
    a: &[Monomial<4>],
    d: u32,
    b: &[Monomial<4>],
) -> Result<Poly, TermFault>
    requires left { IsPolynomial (record { constant = c; monomials = map term_of a.now }) }
    requires right { IsPolynomial (record { constant = d; monomials = map term_of b.now }) }
    ensures form { IfOk result (λ p. p ≡ product_of (record { constant = c; monomials = map term_of a.now }) (record { constant = d; monomials = map term_of b.now })) }
    ensures value { IfOk result (λ p. (v : ℕ → ℕ) → value_of v p ≡ word_product (value_of v (record { constant = c; monomials = map term_of a.now })) (value_of v (record { constant = d; monomials = map term_of b.now }))) }
    ensures short { IfOk result (λ p. IsWithinLimits p) }
    ensures long { IsErrOf result fault.Long → IsTooLong (product_of (record { constant = c; monomials = map term_of a.now }) (record { constant = d; monomials = map term_of b.now })) }
{
    let a: Vec<Monomial<8>> = resized_all(alloc, a)?;
    let b: Vec<Monomial<8>> = resized_all(alloc, b)?;
    let monomials = product(alloc, c, &a, d, &b)?;
    narrowed(alloc, c.wrapping_mul(d), &monomials)
}

// A polynomial of these parts, unless it passes a limit.
fn narrowed<const N: usize>(
    alloc: Global,
    constant: u32,
    monomials: &[Monomial<N>],
) -> Result<Poly, TermFault>
    requires { IsNormal (map term_of monomials.now) }
    ensures value { IfOk result (λ p. p ≡ record { constant = constant; monomials = map term_of monomials.now }) }
    ensures short { IfOk result (λ p. IsWithinLimits p) }
    ensures long { IsErrOf result fault.Long → IsTooLong (record { constant = constant; monomials = map term_of monomials.now }) }
{
    for m in monomials {
        if m.degree > MOST_DEGREE {
            return Err(TermFault::Long);
        }
    }
    within_limits(alloc, constant, resized_all(alloc, monomials)?)
}

// A polynomial of these parts, unless it passes a limit.
fn within_limits(
    alloc: Global,
    constant: u32,
    monomials: Vec<Monomial<4>>,
) -> Result<Poly, TermFault>
    requires { IsNormal (map term_of monomials.items) }
    ensures value { IfOk result (λ p. p ≡ record { constant = constant; monomials = map term_of monomials.items }) }
    ensures short { IfOk result (λ p. IsWithinLimits p) }
    ensures long { IsErrOf result fault.Long → IsTooLong (record { constant = constant; monomials = map term_of monomials.items }) }
{
    if monomials.len() > MOST_MONOMIALS {
        return Err(TermFault::Long);
    }
    Ok(Poly {
        alloc,
        constant,
        monomials,
    })
}

impl Drop for Poly {
    fn drop(self) {
        let Poly {
            alloc: _,
            constant: _,
            monomials: _,
        } = self;
    }
}
