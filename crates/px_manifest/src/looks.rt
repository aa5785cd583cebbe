ghost use Rattle.std.specs.Prelude.{◌≡◌, ◌↔◌, not, true};
ghost use Rattle.std.specs.List.{list_all};
ghost use Rattle.px_terms.specs.Variables.{variables_of, place_variables};
ghost use Rattle.px_terms.specs.Monomials.{term_of};
ghost use Rattle.px_terms.specs.declared.conjuncts.Conj.TheVariants.{Quotient};
ghost use Rattle.px_entry.specs.Sorts as sorts;
ghost use Rattle.px_check.specs.Answers.{entry_of};
ghost use Rattle.px_manifest.specs.LooksManifest.{AsksNothing, LooksManifest};
ghost use Rattle.px_manifest.specs.LooksManifest as spec;

use px_check::Checked;
use px_entry::{Atom, Entry, Exit};
use px_terms::{Conj, Monomial, Place, Poly, Sort, Var, VarInfo};

/// Whether an entry ends in its error whatever it is called with, as far as it shows. That its own values make its
/// conjuncts true isn't asked: what was checked has such values. Takes no memory.
pub fn looks_manifest(checked: &Checked) -> bool
    ensures looks { result ≡ true ↔ LooksManifest (entry_of checked.now) }
    ensures test { result ≡ spec.looks_manifest (entry_of checked.now) }
{
    is_sure(checked.entry())
}

/// Whether an entry asks nothing of the state that its procedure is called from, as far as it shows, however it ends. Its own
/// values aren't asked, as above. Takes no memory.
pub fn asks_nothing(checked: &Checked) -> bool
    ensures asks { result ≡ true ↔ AsksNothing (entry_of checked.now) }
    ensures test { result ≡ spec.asks_nothing (entry_of checked.now) }
{
    is_free(checked.entry())
}

// Whether an entry ends in an error, and asks nothing.
fn is_sure(entry: &Entry) -> bool
    ensures { result ≡ spec.looks_manifest entry.now }
{
    is_error(entry.exit) && is_free(entry)
}

// Whether an entry finds no block, and assumes nothing of what is given.
fn is_free(entry: &Entry) -> bool
    ensures { result ≡ spec.asks_nothing entry.now }
{
    has_none(entry.pre.as_slice())
        && mention_none_given(entry.vars.as_slice(), entry.pure.as_slice())
}

fn has_none(atoms: &[Atom]) -> bool
    ensures { result ≡ spec.has_none atoms.now }
{
    match atoms {
        [] => true,
        _ => false,
    }
}

fn is_error(exit: Exit) -> bool
    ensures { result ≡ spec.is_error exit }
{
    matches!(exit, Exit::Error(_, _))
}

fn mention_none_given(vars: &[VarInfo], conjuncts: &[Conj]) -> bool
    ensures { result ≡ list_all (spec.mentions_none_given vars.now) conjuncts.now }
{
    conjuncts.iter().all(|c| mentions_none_given(vars, c))
}

// Whether no variable of a conjunct is given.
fn mentions_none_given(vars: &[VarInfo], c: &Conj) -> bool
    ensures { result ≡ spec.mentions_none_given vars.now c.now }
{
    match c {
        Conj::Equal(p) | Conj::Unequal(p) => has_none_given(vars, p),
        Conj::Less(p, q) | Conj::AtMost(p, q) => has_none_given(vars, p) && has_none_given(vars, q),
        Conj::SamePlace(a, b) | Conj::OtherPlace(a, b) => {
            is_none_given(vars, *a) && is_none_given(vars, *b)
        }
        Conj::Written(x) | Conj::Unwritten(x) => !is_given(vars, x.0),
        Conj::Quotient(x, p, q) => quotient_has_none_given(vars, *x, p, q),
    }
}

// Whether no variable of a quotient is given.
fn quotient_has_none_given(vars: &[VarInfo], x: Var, p: &Poly, q: &Poly) -> bool
    ensures { result ≡ spec.mentions_none_given vars.now (Quotient x p.now q.now) }
{
    !is_given(vars, x.0) && has_none_given(vars, p) && has_none_given(vars, q)
}

// Whether no variable of a polynomial is given.
fn has_none_given(vars: &[VarInfo], p: &Poly) -> bool
    ensures { result ≡ list_all (λ x. not (sorts.is_given vars.now x)) (variables_of p.now) }
{
    have_none_given(vars, p.monomials())
}

fn have_none_given(vars: &[VarInfo], monomials: &[Monomial<4>]) -> bool
    ensures { result ≡ list_all (λ m. list_all (λ x. not (sorts.is_given vars.now x)) (term_of m).vars) monomials.now }
{
    monomials.iter().all(|m| are_none_given(vars, m.vars()))
}

fn are_none_given(vars: &[VarInfo], xs: &[u32]) -> bool
    ensures { result ≡ list_all (λ x. not (sorts.is_given vars.now x)) xs.now }
{
    xs.iter().all(|x| !is_given(vars, *x))
}

// Whether a place isn't that of a variable which is given.
fn is_none_given(vars: &[VarInfo], place: Place) -> bool
    ensures { result ≡ list_all (λ x. not (sorts.is_given vars.now x)) (place_variables place) }
{
    match place {
        Place::Null => true,
        Place::Var(x) => !is_given(vars, x.0),
    }
}

// Whether a variable is given.
fn is_given(vars: &[VarInfo], x: u32) -> bool
    ensures { result ≡ sorts.is_given vars.now x }
{
    match vars.get(x as usize) {
        Some(info) => is_given_sort(info.sort),
        None => false,
    }
}

fn is_given_sort(sort: Sort) -> bool
    ensures { result ≡ sorts.is_given_sort sort }
{
    matches!(sort, Sort::Given)
}
