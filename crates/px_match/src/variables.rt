ghost use Rattle.std.specs.Prelude.{◌≡◌};
ghost use Rattle.px_terms.specs.declared.conjuncts.Conj.TheVariants.{SamePlace};
ghost use Rattle.px_entry.specs.Sorts as sorts;
ghost use Rattle.px_entry.specs.Decided.{is_open};
ghost use Rattle.px_entry.specs.Decided as decisions;
ghost use Rattle.px_entry.specs.Cases as spec;

use px_terms::{Place, Sort, ValueType, Var, VarInfo};

/// Whether `malloc` made the variable's block. Takes no memory.
pub fn is_made(vars: &[VarInfo], x: Var) -> bool
    ensures { result ≡ sorts.is_made vars.now x.0 }
{
    match vars.get(x.0 as usize) {
        Some(info) => matches!(info.sort, Sort::Made),
        None => false,
    }
}

/// Whether the variable is a pointer of the list. Takes no memory.
pub fn is_pointer(vars: &[VarInfo], x: Var) -> bool
    ensures { result ≡ sorts.is_pointer vars.now x.0 }
{
    match vars.get(x.0 as usize) {
        Some(info) => matches!(info.value, ValueType::Pointer(_)),
        None => false,
    }
}

// Whether a place is null or a pointer of the list.
fn is_pointer_place(vars: &[VarInfo], place: Place) -> bool
    ensures { result ≡ sorts.is_pointer_place vars.now place }
{
    match place {
        Place::Null => true,
        Place::Var(x) => is_pointer(vars, x),
    }
}

// Whether two places are known to be two.
fn are_two(vars: &[VarInfo], a: Place, b: Place) -> bool
    ensures { result ≡ decisions.is_false (decisions.is_same_place vars.now a b) }
{
    match (a, b) {
        (Place::Null, Place::Null) => false,
        (Place::Null, Place::Var(x)) | (Place::Var(x), Place::Null) => is_made(vars, x),
        (Place::Var(x), Place::Var(y)) => x.0 != y.0 && (is_made(vars, x) || is_made(vars, y)),
    }
}

/// Whether two places may be the same: both are null or pointers of the list, and they aren't known to be two.
/// Takes no memory.
pub fn may_be_same(vars: &[VarInfo], a: Place, b: Place) -> bool
    ensures { result ≡ is_open vars.now (SamePlace a b) }
{
    is_pointer_place(vars, a) && is_pointer_place(vars, b) && !are_two(vars, a, b)
}

/// Whether a block that wasn't met yet may stand at a place. Takes no memory.
pub fn may_be_missing(vars: &[VarInfo], place: Place) -> bool
    ensures { result ≡ spec.may_be_missing vars.now place }
{
    match place {
        Place::Null => false,
        Place::Var(x) => is_pointer(vars, x) && !is_made(vars, x),
    }
}
