ghost use Rattle.std.specs.Prelude.{◌≡◌, ◌≢◌, ℕ, ◌+◌, ◌%◌, ◌^◌, ◌<◌, ◌↔◌, true, false, length, All, IfSome, IfNone};
ghost use Rattle.px_terms.specs.Words.{signed};
ghost use Rattle.px_terms.specs.Terms as spec;
ghost use Rattle.px_terms.specs.Variables.{variables_of, place_variables, mentioned};
ghost use Rattle.px_terms.specs.Valuations.{valuation_of, number_of, numbers_of, IsWord, IsPlace, IsUnwritten};
ghost use Rattle.px_terms.specs.Conjuncts.{HasWords, word_of, place_of, ArePlaces, IsTrueUnder};
ghost use Rattle.px_terms.specs.Monomials.{term_of};
ghost use Rattle.px_terms.specs.declared.conjuncts.Conj.TheVariants.{Quotient};

use crate::monomial::Monomial;
use crate::quotients::is_quotient;
use crate::{Conj, Place, Poly, Value, Var};

// The word of a value; none where it is none.
fn number(value: Value) -> Option<u32>
    ensures some { IfSome result (λ w. IsWord value × (w ≡ number_of value)) }
    ensures none { IfNone result (¬ IsWord value) }
{
    match value {
        Value::Word(z) => Some(z.cast_unsigned()),
        _ => None,
    }
}

// The product of the values of a monomial's variables; none where one has no word.
fn product_at(m: &Monomial<4>, valuation: &[Value]) -> Option<u32>
    requires { All (λ x. x < length valuation.now) (term_of m.now).vars }
    ensures some { IfSome result (λ w. All (λ x. IsWord (valuation_of valuation.now x)) (term_of m.now).vars × (w ≡ spec.product_at (numbers_of (valuation_of valuation.now)) (term_of m.now).vars % 2 ^ 32)) }
    ensures none { IfNone result (¬ All (λ x. IsWord (valuation_of valuation.now x)) (term_of m.now).vars) }
{
    let mut product: u32 = 1;
    for i in 0..m.degree {
        let word = number(valuation[m.vars[i] as usize])?;
        product = product.wrapping_mul(word);
    }
    Some(product)
}

// The word of a polynomial; none where a variable has no word.
fn word_at(p: &Poly, valuation: &[Value]) -> Option<u32>
    requires { All (λ x. x < length valuation.now) (variables_of p.now) }
    ensures some { IfSome result (λ w. HasWords (valuation_of valuation.now) p.now × (w ≡ word_of (valuation_of valuation.now) p.now)) }
    ensures none { IfNone result (¬ HasWords (valuation_of valuation.now) p.now) }
{
    let mut sum = p.constant();
    for m in p.monomials() {
        let product = product_at(m, valuation)?;
        sum = sum.wrapping_add(m.coefficient.wrapping_mul(product));
    }
    Some(sum)
}

// The value of a variable.
fn read(x: Var, valuation: &[Value]) -> Value
    requires { x.0 < length valuation.now }
    ensures { result ≡ valuation_of valuation.now x.0 }
{
    valuation[x.0 as usize]
}

// The value of a place.
fn place_at(place: Place, valuation: &[Value]) -> Value
    requires { All (λ x. x < length valuation.now) (place_variables place) }
    ensures { result ≡ place_of (valuation_of valuation.now) place }
{
    match place {
        Place::Null => Value::Null,
        Place::Var(x) => read(x, valuation),
    }
}

// Whether a value is null or a block.
fn is_place(value: Value) -> bool
    ensures { result ≡ true ↔ IsPlace value }
{
    matches!(value, Value::Null | Value::Block(_))
}

// Whether both places are null or blocks, and they are the same or not, as is asked.
fn compare_places(a: Place, b: Place, same: bool, valuation: &[Value]) -> bool
    requires left { All (λ x. x < length valuation.now) (place_variables a) }
    requires right { All (λ x. x < length valuation.now) (place_variables b) }
    ensures same { same ≡ true → (result ≡ true ↔ (ArePlaces (valuation_of valuation.now) a b × (place_of (valuation_of valuation.now) a ≡ place_of (valuation_of valuation.now) b))) }
    ensures other { same ≡ false → (result ≡ true ↔ (ArePlaces (valuation_of valuation.now) a b × (place_of (valuation_of valuation.now) a ≢ place_of (valuation_of valuation.now) b))) }
{
    let a = place_at(a, valuation);
    let b = place_at(b, valuation);
    is_place(a) && is_place(b) && (a == b) == same
}

// The signed words of two polynomials; none where a variable has no word.
fn words_at(p: &Poly, q: &Poly, valuation: &[Value]) -> Option<(i32, i32)>
    requires left { All (λ x. x < length valuation.now) (variables_of p.now) }
    requires right { All (λ x. x < length valuation.now) (variables_of q.now) }
    ensures some { IfSome result (λ w. HasWords (valuation_of valuation.now) p.now × HasWords (valuation_of valuation.now) q.now × (w.0 ≡ signed (word_of (valuation_of valuation.now) p.now)) × (w.1 ≡ signed (word_of (valuation_of valuation.now) q.now))) }
    ensures none { IfNone result (¬ (HasWords (valuation_of valuation.now) p.now × HasWords (valuation_of valuation.now) q.now)) }
{
    let a = word_at(p, valuation)?;
    let b = word_at(q, valuation)?;
    Some((a.cast_signed(), b.cast_signed()))
}

// Whether a variable is the quotient of two polynomials.
fn is_quotient_of(x: Var, p: &Poly, q: &Poly, valuation: &[Value]) -> bool
    requires variable { x.0 < length valuation.now }
    requires left { All (λ x. x < length valuation.now) (variables_of p.now) }
    requires right { All (λ x. x < length valuation.now) (variables_of q.now) }
    ensures { result ≡ true ↔ IsTrueUnder (valuation_of valuation.now) (Quotient x p.now q.now) }
{
    let Some(word) = number(read(x, valuation)) else {
        return false;
    };
    let Some(m) = word_at(p, valuation) else {
        return false;
    };
    let Some(n) = word_at(q, valuation) else {
        return false;
    };
    is_quotient(word, m, n)
}

/// Whether the valuation, a value for each variable by its number, makes the conjunct true. Takes no memory.
///
/// A conjunct on words or places is true where its variables have words, or null or blocks, and the
/// relation holds; a condition on words of which a variable is unwritten is false, as is its contrary.
/// Nothing is a quotient by 0.
pub fn eval(conjunct: &Conj, valuation: &[Value]) -> bool
    requires { All (λ x. x < length valuation.now) (mentioned conjunct.now) }
    ensures { result ≡ true ↔ IsTrueUnder (valuation_of valuation.now) conjunct.now }
{
    match conjunct {
        Conj::Equal(p) => matches!(word_at(p, valuation), Some(0)),
        Conj::Unequal(p) => matches!(word_at(p, valuation), Some(w) if w != 0),
        Conj::Less(p, q) => matches!(words_at(p, q, valuation), Some((a, b)) if a < b),
        Conj::AtMost(p, q) => matches!(words_at(p, q, valuation), Some((a, b)) if a <= b),
        Conj::SamePlace(a, b) => compare_places(*a, *b, true, valuation),
        Conj::OtherPlace(a, b) => compare_places(*a, *b, false, valuation),
        Conj::Written(x) => !is_unwritten(read(*x, valuation)),
        Conj::Unwritten(x) => is_unwritten(read(*x, valuation)),
        Conj::Quotient(x, p, q) => is_quotient_of(*x, p, q, valuation),
    }
}

// Whether a value is the one of what was never written.
pub(crate) fn is_unwritten(value: Value) -> bool
    ensures { result ≡ true ↔ IsUnwritten value }
{
    matches!(value, Value::Unwritten)
}
