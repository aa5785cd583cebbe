ghost use Rattle.std.specs.Prelude.{◌≡◌, ◌&&◌, ◌||◌, not, false, [], option_map};
ghost use Rattle.std.specs.List.{list_all, list_any};
ghost use Rattle.px_terms.specs.declared.conjuncts.Conj.TheVariants.{Equal, Unequal};
ghost use Rattle.px_terms.specs.Monomials.{term_of};
ghost use Rattle.px_entry.specs.Sorts as sorts;
ghost use Rattle.px_entry.specs.Equality as equality;
ghost use Rattle.px_entry.specs.Decided as spec;

use crate::{is_made, is_pointer};
use px_terms::{Conj, Monomial, Place, Poly, ValueType, Var, VarInfo};

// Whether a variable is an `int` of the list.
fn is_int(vars: &[VarInfo], x: u32) -> bool
    ensures { result ≡ sorts.is_int vars.now x }
{
    match vars.get(x as usize) {
        Some(info) => matches!(info.value, ValueType::Int),
        None => false,
    }
}

fn are_ints(vars: &[VarInfo], xs: &[u32]) -> bool
    ensures { result ≡ list_all (sorts.is_int vars.now) xs.now }
{
    xs.iter().all(|x| is_int(vars, *x))
}

/// Whether each variable of a polynomial is an `int` of the list. Takes no memory.
pub fn is_int_polynomial(vars: &[VarInfo], p: &Poly) -> bool
    ensures { result ≡ sorts.is_int_polynomial vars.now p.now }
{
    are_all_ints(vars, p.monomials())
}

fn are_all_ints(vars: &[VarInfo], monomials: &[Monomial<4>]) -> bool
    ensures { result ≡ list_all (λ m. list_all (sorts.is_int vars.now) (term_of m).vars) monomials.now }
{
    monomials.iter().all(|m| are_ints(vars, m.vars()))
}

fn are_int_polynomials(vars: &[VarInfo], p: &Poly, q: &Poly) -> bool
    ensures { result ≡ (sorts.is_int_polynomial vars.now p.now && sorts.is_int_polynomial vars.now q.now) }
{
    is_int_polynomial(vars, p) && is_int_polynomial(vars, q)
}

// Whether a place is null or a pointer of the list.
fn is_pointer_place(vars: &[VarInfo], place: Place) -> bool
    ensures { result ≡ sorts.is_pointer_place vars.now place }
{
    match place {
        Place::Null => true,
        Place::Var(x) => is_pointer(vars, x),
    }
}

/// Whether a conjunct mentions variables of the list alone, each by its type. Takes no memory.
pub fn is_well_sorted(vars: &[VarInfo], c: &Conj) -> bool
    ensures { result ≡ sorts.is_well_sorted vars.now c.now }
{
    match c {
        Conj::Equal(p) | Conj::Unequal(p) => is_int_polynomial(vars, p),
        Conj::Less(p, q) | Conj::AtMost(p, q) => are_int_polynomials(vars, p, q),
        Conj::SamePlace(a, b) | Conj::OtherPlace(a, b) => {
            is_pointer_place(vars, *a) && is_pointer_place(vars, *b)
        }
        Conj::Written(x) | Conj::Unwritten(x) => (x.0 as usize) < vars.len(),
        Conj::Quotient(x, p, q) => { is_int(vars, x.0) && are_int_polynomials(vars, p, q) }
    }
}

/// The word of a polynomial without variables. Takes no memory.
pub fn word_of(p: &Poly) -> Option<u32>
    ensures { result ≡ spec.word_of p.now }
{
    if p.monomials().is_empty() {
        Some(p.constant())
    } else {
        None
    }
}

// Whether a polynomial is 0, if it has no variables.
fn is_zero(p: &Poly) -> Option<bool>
    ensures { result ≡ spec.decided [] (Equal p.now) }
{
    Some(word_of(p)? == 0)
}

// Whether two places are one, as far as it is known.
fn is_same_place(vars: &[VarInfo], a: Place, b: Place) -> Option<bool>
    ensures { result ≡ spec.is_same_place vars.now a b }
{
    match (a, b) {
        (Place::Null, Place::Null) => Some(true),
        (Place::Null, Place::Var(x)) | (Place::Var(x), Place::Null) => {
            if is_made(vars, x) { Some(false) } else { None }
        }
        (Place::Var(x), Place::Var(y)) => {
            if x.0 == y.0 {
                Some(true)
            } else if is_made(vars, x) || is_made(vars, y) {
                Some(false)
            } else {
                None
            }
        }
    }
}

// The contrary of what is known.
fn negated(known: Option<bool>) -> Option<bool>
    ensures { result ≡ option_map not known }
{
    match known {
        Some(yes) => Some(!yes),
        None => None,
    }
}

fn is_less(p: &Poly, q: &Poly) -> Option<bool>
    ensures { result ≡ spec.compared spec.is_less (spec.word_of p.now) (spec.word_of q.now) }
{
    match (word_of(p), word_of(q)) {
        (Some(a), Some(b)) => Some(a.cast_signed() < b.cast_signed()),
        _ => None,
    }
}

fn is_at_most(p: &Poly, q: &Poly) -> Option<bool>
    ensures { result ≡ spec.compared spec.is_at_most (spec.word_of p.now) (spec.word_of q.now) }
{
    match (word_of(p), word_of(q)) {
        (Some(a), Some(b)) => Some(a.cast_signed() <= b.cast_signed()),
        _ => None,
    }
}

// Whether a conjunct is true or false, where that is decided.
fn decided(vars: &[VarInfo], c: &Conj) -> Option<bool>
    ensures { result ≡ spec.decided vars.now c.now }
{
    match c {
        Conj::Equal(p) => is_zero(p),
        Conj::Unequal(p) => negated(is_zero(p)),
        Conj::Less(p, q) => is_less(p, q),
        Conj::AtMost(p, q) => is_at_most(p, q),
        Conj::SamePlace(a, b) => is_same_place(vars, *a, *b),
        Conj::OtherPlace(a, b) => negated(is_same_place(vars, *a, *b)),
        Conj::Written(_) | Conj::Unwritten(_) | Conj::Quotient(_, _, _) => None,
    }
}

/// A polynomial that is kept isn't too long. Takes no memory.
pub fn keep_short(p: &Poly)
    ensures { sorts.is_long p.now ≡ false }
{
    let _constant = p.constant();
}

// Neither is a conjunct.
fn keep_conjunct_short(c: &Conj)
    ensures { sorts.is_long_conjunct c.now ≡ false }
{
    match c {
        Conj::Equal(p) | Conj::Unequal(p) => keep_short(p),
        Conj::Less(p, q) | Conj::AtMost(p, q) | Conj::Quotient(_, p, q) => {
            keep_short(p);
            keep_short(q);
        }
        _ => {}
    }
}

/// Whether a conjunct may be assumed: it is well sorted, and not decided false. Takes no memory.
pub fn is_open(vars: &[VarInfo], c: &Conj) -> bool
    ensures { result ≡ spec.is_open vars.now c.now }
{
    keep_conjunct_short(c);
    is_well_sorted(vars, c) && decided(vars, c) != Some(false)
}

// Whether a polynomial isn't 0, if it has no variables.
fn is_other(p: &Poly) -> Option<bool>
    ensures { result ≡ spec.decided [] (Unequal p.now) }
{
    negated(is_zero(p))
}

/// Whether that a polynomial is 0 may be assumed. Takes no memory.
pub fn may_be_zero(vars: &[VarInfo], p: &Poly) -> bool
    ensures { result ≡ spec.is_open vars.now (Equal p.now) }
{
    keep_short(p);
    is_int_polynomial(vars, p) && is_zero(p) != Some(false)
}

/// Whether that a polynomial isn't 0 may be assumed. Takes no memory.
pub fn may_be_other(vars: &[VarInfo], p: &Poly) -> bool
    ensures { result ≡ spec.is_open vars.now (Unequal p.now) }
{
    keep_short(p);
    is_int_polynomial(vars, p) && is_other(p) != Some(false)
}

// Whether both are the same conjunct.
fn same_conjunct(c: &Conj, d: &Conj) -> bool
    ensures { result ≡ equality.same_conjunct c.now d.now }
{
    c.equals(d)
}

// Whether a conjunct is one of these.
fn stands_in(pure: &[Conj], c: &Conj) -> bool
    ensures { result ≡ spec.stands_in pure.now c.now }
{
    keep_conjunct_short(c);
    is_among(pure, c)
}

fn is_among(pure: &[Conj], c: &Conj) -> bool
    ensures { result ≡ list_any (equality.same_conjunct c.now) pure.now }
{
    pure.iter().any(|d| same_conjunct(c, d))
}

/// Whether assuming a conjunct adds nothing: it is decided true, or one of these already. Takes no memory.
pub fn stands(vars: &[VarInfo], pure: &[Conj], c: &Conj) -> bool
    ensures { result ≡ (spec.is_true (spec.decided vars.now c.now) || spec.stands_in pure.now c.now) }
{
    decided(vars, c) == Some(true) || stands_in(pure, c)
}
