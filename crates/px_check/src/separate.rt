ghost use Rattle.std.specs.Prelude.{◌≡◌, ◌↔◌, ◌<◌, ◌&&◌, not, true, [], ◌∷◌, length, All};
ghost use Rattle.px_terms.specs.Valuations.{valuation_of};
ghost use Rattle.px_terms.specs.Conjuncts.{IsTrueUnder};
ghost use Rattle.px_terms.specs.declared.conjuncts.Place.TheVariants as place;
ghost use Rattle.px_terms.specs.declared.conjuncts.Conj.TheVariants.{OtherPlace};
ghost use Rattle.px_entry.specs.Sorts as sorts;
ghost use Rattle.px_entry.specs.Constraint.{found_atoms, same_block, separate};
ghost use Rattle.px_check.specs.Values.{HavePlaces, apart_from_each, apart_found};

use px_entry::Atom;
use px_match::is_made;
use px_terms::{Conj, Place, Value, Var, VarInfo, eval};

// Whether two variables stand for different places.
fn are_two(a: Var, b: Var, values: &[Value]) -> bool
    requires first { a.0 < length values.now }
    requires second { b.0 < length values.now }
    ensures { result ≡ true ↔ IsTrueUnder (valuation_of values.now) (OtherPlace (place.Var a) (place.Var b)) }
{
    eval(&Conj::OtherPlace(Place::Var(a), Place::Var(b)), values)
}

// Whether a variable stands for a block.
fn is_not_null(a: Var, values: &[Value]) -> bool
    requires { a.0 < length values.now }
    ensures { result ≡ true ↔ IsTrueUnder (valuation_of values.now) (OtherPlace (place.Var a) place.Null) }
{
    eval(&Conj::OtherPlace(Place::Var(a), Place::Null), values)
}

// Whether a block is one that another has to be apart from: one of its type, whose place isn't made.
fn counts(vars: &[VarInfo], before: &Atom, atom: &Atom) -> bool
    ensures { result ≡ (not (sorts.is_made vars.now before.now.place.0) && same_block atom.now before.now) }
{
    !is_made(vars, before.place) && atom.block.0 == before.block.0
}

// Whether a block is apart from one before it, if that counts.
fn is_apart(vars: &[VarInfo], before: &Atom, atom: &Atom, values: &[Value]) -> bool
    requires before { before.now.place.0 < length values.now }
    requires atom { atom.now.place.0 < length values.now }
    ensures { result ≡ true ↔ All (IsTrueUnder (valuation_of values.now)) (apart_from_each atom.now (found_atoms vars.now (before.now ∷ []))) }
{
    if counts(vars, before, atom) {
        are_two(atom.place, before.place, values)
    } else {
        true
    }
}

// Whether a block is apart from each of these that counts.
fn is_apart_from(vars: &[VarInfo], earlier: &[Atom], atom: &Atom, values: &[Value]) -> bool
    requires earlier { HavePlaces (length values.now) earlier.now }
    requires atom { atom.now.place.0 < length values.now }
    ensures { result ≡ true ↔ All (IsTrueUnder (valuation_of values.now)) (apart_from_each atom.now (found_atoms vars.now earlier.now)) }
{
    for i in 0..earlier.len() {
        if !is_apart(vars, &earlier[i], atom, values) {
            return false;
        }
    }
    true
}

// Whether a block is one of its own beside those before it: its place is made, or it isn't null and apart from them.
fn is_its_own(vars: &[VarInfo], earlier: &[Atom], atom: &Atom, values: &[Value]) -> bool
    requires earlier { HavePlaces (length values.now) earlier.now }
    requires atom { atom.now.place.0 < length values.now }
    ensures { result ≡ true ↔ All (IsTrueUnder (valuation_of values.now)) (apart_found vars.now earlier.now atom.now) }
{
    if is_made(vars, atom.place) {
        return true;
    }
    if !is_not_null(atom.place, values) {
        return false;
    }
    is_apart_from(vars, earlier, atom, values)
}

/// Whether values make true what blocks say of their places: those that aren't made are blocks, each of its own.
pub(crate) fn are_separate(vars: &[VarInfo], atoms: &[Atom], values: &[Value]) -> bool
    requires { HavePlaces (length values.now) atoms.now }
    ensures { result ≡ true ↔ All (IsTrueUnder (valuation_of values.now)) (separate vars.now atoms.now) }
{
    for i in 0..atoms.len() {
        if !is_its_own(vars, &atoms[..i], &atoms[i], values) {
            return false;
        }
    }
    true
}
