ghost use Rattle.std.specs.Prelude.{◌≡◌, All, length, true};
ghost use Rattle.px_terms.specs.Conjuncts.{IsIntVariable, IsIntPolynomial, IsPointerPlace, IsWellSorted, AreWellSorted};

use px_terms::{Conj, Place, Poly, Value, ValueType, VarInfo, eval};

const MOST: usize = 65536;

fn is_int(vars: &[VarInfo], x: u32) -> bool
    ensures { result ≡ true → IsIntVariable vars.now x }
{
    match vars.get(x as usize) {
        Some(info) => info.value == ValueType::Int,
        None => false,
    }
}

fn are_ints(vars: &[VarInfo], xs: &[u32]) -> bool
    ensures { result ≡ true → All (IsIntVariable vars.now) xs.now }
{
    for x in xs {
        if !is_int(vars, *x) {
            return false;
        }
    }
    true
}

fn is_int_sum(vars: &[VarInfo], p: &Poly) -> bool
    ensures { result ≡ true → IsIntPolynomial vars.now p.now }
{
    for m in p.monomials() {
        if !are_ints(vars, m.vars()) {
            return false;
        }
    }
    true
}

fn is_pointer(vars: &[VarInfo], place: Place) -> bool
    ensures { result ≡ true → IsPointerPlace vars.now place }
{
    let Place::Var(x) = place else {
        return true;
    };
    match vars.get(x.0 as usize) {
        Some(info) => matches!(info.value, ValueType::Pointer(_)),
        None => false,
    }
}

/// Whether words are asked of `int`s, and places of pointers.
pub fn is_sorted(vars: &[VarInfo], conjunct: &Conj) -> bool
    ensures { result ≡ true → IsWellSorted vars.now conjunct.now }
{
    match conjunct {
        Conj::Equal(p) => is_int_sum(vars, p),
        Conj::Unequal(p) => is_int_sum(vars, p),
        Conj::Less(p, q) => is_int_sum(vars, p) && is_int_sum(vars, q),
        Conj::AtMost(p, q) => is_int_sum(vars, p) && is_int_sum(vars, q),
        Conj::SamePlace(a, b) => is_pointer(vars, *a) && is_pointer(vars, *b),
        Conj::OtherPlace(a, b) => is_pointer(vars, *a) && is_pointer(vars, *b),
        Conj::Written(x) => (x.0 as usize) < vars.len(),
        Conj::Unwritten(x) => (x.0 as usize) < vars.len(),
        Conj::Quotient(x, p, q) => is_int(vars, x.0) && is_int_sum(vars, p) && is_int_sum(vars, q),
    }
}

/// Whether each conjunct is so, and there aren't too many.
pub fn are_sorted(vars: &[VarInfo], conjuncts: &[Conj]) -> bool
    ensures { result ≡ true → AreWellSorted vars.now conjuncts.now }
{
    if vars.len() > MOST || conjuncts.len() > MOST {
        return false;
    }
    for conjunct in conjuncts {
        if !is_sorted(vars, conjunct) {
            return false;
        }
    }
    true
}

/// Whether a conjunct is true under these values.
pub fn holds(vars: &[VarInfo], conjunct: &Conj, values: &[Value]) -> bool
    requires sorted { IsWellSorted vars.now conjunct.now }
    requires size { length values.now ≡ length vars.now }
{
    eval(conjunct, values)
}
