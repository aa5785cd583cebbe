ghost use Rattle.std.specs.Prelude.{◌≡◌, ◌≢◌, ◌↔◌, ℕ, ◌<◌, ◌-◌, ◌^◌, ℤ, [], ◌∷◌, ◌++◌, All, length, take, true, false, MatchOption, IfOk, OnOk};
ghost use Rattle.px_terms.specs.Rules.{IsVariable, IsDifference, HoldsInIntegers};
ghost use Rattle.px_terms.specs.Monomials.{term_of};
ghost use Rattle.px_terms.specs.declared.conjuncts.Conj.TheVariants as conj;
ghost use Rattle.px_order.specs.Comparisons.{unit, Holds, IsBelow, ComparesBelow, Adds};

use px_terms::{Conj, Monomial, Poly};
use std::alloc::{AllocError, Global};

// The first variable is at most the second, or less than it where the comparison is strict.
#[derive(Clone, Copy)]
pub(crate) struct Comparison {
    pub(crate) first: u32,
    pub(crate) second: u32,
    pub(crate) strict: bool,
}

// The variable of a term that is it times the coefficient.
fn unit_of(term: &Monomial<4>, coefficient: u32) -> Option<u32>
    ensures { MatchOption result ((x : ℕ) → term_of term.now ≢ unit coefficient x) (λ x. term_of term.now ≡ unit coefficient x) }
{
    let [x] = term.vars() else {
        return None;
    };
    if term.coefficient() == coefficient {
        Some(*x)
    } else {
        None
    }
}

// The variable that is the polynomial.
fn variable_of(p: &Poly) -> Option<u32>
    ensures { MatchOption result ((x : ℕ) → ¬ IsVariable x p.now) (λ x. IsVariable x p.now) }
{
    if p.constant() != 0 {
        return None;
    }
    match p.monomials() {
        [term] => unit_of(term, 1),
        _ => None,
    }
}

// The first and the second term as x and -y.
fn positive_first(first: &Monomial<4>, second: &Monomial<4>) -> Option<(u32, u32)>
    ensures { MatchOption result ((x y : ℕ) → (term_of first.now ≡ unit 1 x) → (term_of second.now ≢ unit (2 ^ 32 - 1) y)) (λ d. (term_of first.now ≡ unit 1 d.0) × (term_of second.now ≡ unit (2 ^ 32 - 1) d.1)) }
{
    let Some(x) = unit_of(first, 1) else {
        return None;
    };
    let Some(y) = unit_of(second, u32::MAX) else {
        return None;
    };
    Some((x, y))
}

// The variables of which the polynomial is the difference.
fn difference_of(p: &Poly) -> Option<(u32, u32)>
    ensures { MatchOption result ((x y : ℕ) → ¬ IsDifference x y p.now) (λ d. IsDifference d.0 d.1 p.now) }
{
    if p.constant() != 0 {
        return None;
    }
    match p.monomials() {
        [s, t] => match positive_first(s, t) {
            Some(pair) => Some(pair),
            None => positive_first(t, s),
        },
        _ => None,
    }
}

// Adds the comparison of two polynomials that are variables.
fn add_order(
    comparisons: &mut Vec<Comparison>,
    p: &Poly,
    q: &Poly,
    strict: bool,
) -> Result<(), AllocError>
    ensures less { OnOk result (strict ≡ true → Adds (conj.Less p.now q.now) comparisons.old.items comparisons.new.items) }
    ensures at_most { OnOk result (strict ≡ false → Adds (conj.AtMost p.now q.now) comparisons.old.items comparisons.new.items) }
{
    let Some(first) = variable_of(p) else {
        return Ok(());
    };
    let Some(second) = variable_of(q) else {
        return Ok(());
    };
    comparisons.push(Comparison {
        first,
        second,
        strict,
    })?;
    Ok(())
}

// Adds both comparisons of two variables whose difference is 0.
fn add_equality(comparisons: &mut Vec<Comparison>, p: &Poly) -> Result<(), AllocError>
    ensures { OnOk result (Adds (conj.Equal p.now) comparisons.old.items comparisons.new.items) }
{
    let Some((x, y)) = difference_of(p) else {
        return Ok(());
    };
    comparisons.push(Comparison {
        first: x,
        second: y,
        strict: false,
    })?;
    comparisons.push(Comparison {
        first: y,
        second: x,
        strict: false,
    })?;
    Ok(())
}

// Adds what a conjunct says of two variables.
pub(crate) fn add_conjunct(
    comparisons: &mut Vec<Comparison>,
    conjunct: &Conj,
) -> Result<(), AllocError>
    ensures { OnOk result (Adds conjunct.now comparisons.old.items comparisons.new.items) }
{
    match conjunct {
        Conj::Equal(p) => add_equality(comparisons, p),
        Conj::Less(p, q) => add_order(comparisons, p, q, true),
        Conj::AtMost(p, q) => add_order(comparisons, p, q, false),
        _ => Ok(()),
    }
}

// What the conjuncts say of two variables.
pub(crate) fn read_comparisons(
    alloc: Global,
    conjuncts: &[Conj],
) -> Result<Vec<Comparison>, AllocError>
    ensures same { IfOk result (λ cs. (v : ℕ → ℤ) → All (Holds v) cs.items ↔ All (HoldsInIntegers v) conjuncts.now) }
    ensures below { IfOk result (λ cs. (n : ℕ) → All (ComparesBelow n) conjuncts.now → All (IsBelow n) cs.items) }
{
    let mut comparisons = Vec::new(alloc);
    for conjunct in conjuncts {
        add_conjunct(&mut comparisons, conjunct)?;
    }
    Ok(comparisons)
}
