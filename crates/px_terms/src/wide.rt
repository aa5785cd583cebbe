ghost use Rattle.std.specs.Prelude.{◌≡◌, ℕ, ◌+◌, ◌*◌, ◌%◌, ◌^◌, ◌++◌, ◌<◌, ◌≤◌, [], ◌∷◌, map, drop, All, IfOk};
ghost use Rattle.std.specs.Option.{option_copied};
ghost use Rattle.px_terms.specs.Terms.{IsNormal};
ghost use Rattle.px_terms.specs.Polynomials.{Polynomial, IsPolynomial, terms_of, term_product, product_of, normal_form};
ghost use Rattle.px_terms.specs.Rows.{scalar_of};
ghost use Rattle.px_terms.specs.Monomials.{term_of};
ghost use Rattle.px_terms.specs.Wides.{wide_of, HasDegree};
ghost use Rattle.px_terms.specs.Substitutions.{content_for, IsForWord, image_of, expansion, substituted, substitution_of, StandsForWords, variable};

use crate::merge::add_row;
use crate::monomial::Monomial;
use crate::product::{product, scalar};
use crate::sizes::resized_all;
use crate::{Content, Var};
use std::alloc::{AllocError, Global};

// A polynomial on the way to a substitution, whose monomials have up to `N` variables: the product of what
// stands for four variables has monomials of up to 16.
pub(crate) struct Wide<const N: usize> {
    pub(crate) constant: u32,
    pub(crate) monomials: Vec<Monomial<N>>,
}

impl<const N: usize> Wide<N> {
    ghost use Rattle.std.specs.Prelude.{◌≡◌};

    pub(crate) fn into_monomials(self) -> Vec<Monomial<N>>
        ensures { result.items ≡ self.entry.monomials.items }
    {
        let Wide {
            constant: _,
            monomials,
        } = self;
        monomials
    }
}

// The first content that stands for the variable with this number.
fn find<'a>(with: &'a [(Var, Content)], x: u32) -> Option<&'a Content>
    ensures { option_copied result ≡ content_for with.now x }
{
    for pair in with {
        if pair.0.0 == x {
            return Some(&pair.1);
        }
    }
    None
}

// A variable as a polynomial.
fn wide_variable(alloc: Global, x: u32) -> Result<Wide<16>, AllocError>
    ensures value { IfOk result (λ w. wide_of w ≡ variable x) }
    ensures degree { IfOk result (λ w. HasDegree 4 w) }
{
    let mut vars = [0; 16];
    vars[0] = x;
    let mut monomials = Vec::new(alloc);
    monomials.push(Monomial {
        coefficient: 1,
        degree: 1,
        vars,
    })?;
    Ok(Wide {
        constant: 0,
        monomials,
    })
}

// What comes in the place of the variable with this number.
fn image(alloc: Global, with: &[(Var, Content)], x: u32) -> Result<Wide<16>, AllocError>
    requires { IsForWord (content_for with.now x) }
    ensures value { IfOk result (λ w. wide_of w ≡ image_of with.now x) }
    ensures form { IfOk result (λ w. IsPolynomial (wide_of w)) }
    ensures degree { IfOk result (λ w. HasDegree 4 w) }
{
    match find(with, x) {
        Some(Content::Word(p)) => Ok(Wide {
            constant: p.constant(),
            monomials: resized_all(alloc, p.monomials())?,
        }),
        Some(Content::Cell(y)) => wide_variable(alloc, y.0),
        _ => wide_variable(alloc, x),
    }
}

// The product with what comes in the place of one more variable.
fn times_image(
    alloc: Global,
    image: &Wide<16>,
    rest: &Wide<16>,
    done: usize,
) -> Result<Wide<16>, AllocError>
    requires few { done < 4 }
    requires left { IsPolynomial (wide_of image.now) }
    requires right { IsPolynomial (wide_of rest.now) }
    requires image_degree { HasDegree 4 image.now }
    requires rest_degree { HasDegree (4 * done) rest.now }
    ensures value { IfOk result (λ w. wide_of w ≡ product_of (wide_of image.now) (wide_of rest.now)) }
    ensures degree { IfOk result (λ w. HasDegree (4 * (done + 1)) w) }
{
    Ok(Wide {
        constant: image.constant.wrapping_mul(rest.constant),
        monomials: product(
            alloc,
            image.constant,
            &image.monomials,
            rest.constant,
            &rest.monomials,
        )?,
    })
}

// The product of what comes in the place of a monomial's variables.
fn expanded(alloc: Global, with: &[(Var, Content)], m: &Monomial<4>) -> Result<Wide<16>, AllocError>
    requires { All (λ x. IsForWord (content_for with.now x)) (term_of m.now).vars }
    ensures { IfOk result (λ w. wide_of w ≡ normal_form (expansion with.now (term_of m.now).vars)) }
{
    let mut rest = Wide {
        constant: 1,
        monomials: Vec::new(alloc),
    };
    for done in 0..m.degree {
        let image = image(alloc, with, m.vars[m.degree - 1 - done])?;
        rest = times_image(alloc, &image, &rest, done)?;
    }
    Ok(rest)
}

// The sum of a polynomial and a word times another, which is a constant and monomials.
fn add_times<const N: usize>(
    alloc: Global,
    total: &Wide<N>,
    word: u32,
    constant: u32,
    monomials: &[Monomial<N>],
) -> Result<Wide<N>, AllocError>
    requires left { IsPolynomial (wide_of total.now) }
    requires right { IsPolynomial (record { constant = constant; monomials = map term_of monomials.now }) }
    ensures { IfOk result (λ w. wide_of w ≡ normal_form (terms_of (wide_of total.now) ++ map (term_product (scalar_of word)) (terms_of (record { constant = constant; monomials = map term_of monomials.now })))) }
{
    Ok(Wide {
        constant: scaled_sum(total.constant, word, constant),
        monomials: add_row(alloc, &total.monomials, &scalar(word), monomials)?,
    })
}

// A word and the product of two others.
fn scaled_sum(a: u32, b: u32, c: u32) -> u32
    ensures { result ≡ (a + b * c) % 2 ^ 32 }
{
    a.wrapping_add(b.wrapping_mul(c))
}

// The polynomial in which contents stand for variables.
pub(crate) fn substitute_all(
    alloc: Global,
    constant: u32,
    monomials: &[Monomial<4>],
    with: &[(Var, Content)],
) -> Result<Wide<16>, AllocError>
    requires form { IsPolynomial (record { constant = constant; monomials = map term_of monomials.now }) }
    requires words { StandsForWords with.now (record { constant = constant; monomials = map term_of monomials.now }) }
    ensures value { IfOk result (λ w. wide_of w ≡ substitution_of with.now (record { constant = constant; monomials = map term_of monomials.now })) }
    ensures form { IfOk result (λ w. IsPolynomial (wide_of w)) }
{
    let mut total = Wide {
        constant,
        monomials: Vec::new(alloc),
    };
    for m in monomials {
        let product = expanded(alloc, with, m)?;
        total = add_times(
            alloc,
            &total,
            m.coefficient,
            product.constant,
            &product.monomials,
        )?;
    }
    Ok(total)
}

// A variable as a monomial.
fn variable_alone(x: u32) -> Monomial<4>
    ensures { term_of result ≡ record { coefficient = 1; vars = x ∷ [] } }
{
    Monomial {
        coefficient: 1,
        degree: 1,
        vars: [x, 0, 0, 0],
    }
}

// The sum of a polynomial and a word times a variable.
fn add_variable(alloc: Global, total: &Wide<4>, word: u32, x: u32) -> Result<Wide<4>, AllocError>
    requires { IsPolynomial (wide_of total.now) }
    ensures { IfOk result (λ w. wide_of w ≡ normal_form (terms_of (wide_of total.now) ++ map (term_product (scalar_of word)) (terms_of (variable x)))) }
{
    add_times(alloc, total, word, 0, &[variable_alone(x)])
}

// The sum of a polynomial and a word times what comes in the place of a variable.
fn add_image(
    alloc: Global,
    total: &Wide<4>,
    word: u32,
    with: &[(Var, Content)],
    x: u32,
) -> Result<Wide<4>, AllocError>
    requires left { IsPolynomial (wide_of total.now) }
    requires word { IsForWord (content_for with.now x) }
    ensures image { IfOk result (λ w. IsPolynomial (image_of with.now x)) }
    ensures sum { IfOk result (λ w. wide_of w ≡ normal_form (terms_of (wide_of total.now) ++ map (term_product (scalar_of word)) (terms_of (image_of with.now x)))) }
{
    match find(with, x) {
        Some(Content::Word(p)) => add_times(alloc, total, word, p.constant(), p.monomials()),
        Some(Content::Cell(y)) => add_variable(alloc, total, word, y.0),
        _ => add_variable(alloc, total, word, x),
    }
}

// The same where no monomial has two variables: there are no products then, and no monomial of the sum has more
// variables than what comes in the place of one.
pub(crate) fn substitute_linear(
    alloc: Global,
    constant: u32,
    monomials: &[Monomial<4>],
    with: &[(Var, Content)],
) -> Result<Wide<4>, AllocError>
    requires form { IsPolynomial (record { constant = constant; monomials = map term_of monomials.now }) }
    requires words { StandsForWords with.now (record { constant = constant; monomials = map term_of monomials.now }) }
    requires linear { All (λ m. m.degree ≤ 1) monomials.now }
    ensures value { IfOk result (λ w. wide_of w ≡ substitution_of with.now (record { constant = constant; monomials = map term_of monomials.now })) }
    ensures form { IfOk result (λ w. IsPolynomial (wide_of w)) }
{
    let mut total = Wide {
        constant,
        monomials: Vec::new(alloc),
    };
    for m in monomials {
        total = add_image(alloc, &total, m.coefficient, with, m.vars[0])?;
    }
    Ok(total)
}

impl<const N: usize> Drop for Wide<N> {
    fn drop(self) {
        let Wide {
            constant: _,
            monomials: _,
        } = self;
    }
}
