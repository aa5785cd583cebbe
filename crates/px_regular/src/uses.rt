ghost use Rattle.std.specs.Prelude.{◌≡◌, ◌&&◌};
ghost use Rattle.std.specs.List.{list_all};
ghost use Rattle.px_terms.specs.Monomials.{term_of};
ghost use Rattle.px_terms.specs.Variables.{variables_of, place_variables};
ghost use Rattle.px_terms.specs.declared.conjuncts.Conj.TheVariants.{Written, Quotient};
ghost use Rattle.px_entry.specs.Equality.{same_conjunct};
ghost use Rattle.px_entry.specs.Contents.{content_variables};
ghost use Rattle.px_entry.specs.Regular as spec;

use crate::blocks::state_cells;
use px_entry::{Atom, Entry};
use px_terms::{Conj, Content, Monomial, Place, Poly, Var};
use px_ways::is_cell;

// Whether a conjunct says that a variable is written.
fn says_written(x: u32, c: &Conj) -> bool
    ensures { result ≡ same_conjunct (Written (record { 0 = x })) c.now }
{
    match c {
        Conj::Written(y) => x == y.0,
        _ => false,
    }
}

fn is_said_written(pure: &[Conj], x: u32) -> bool
    ensures { result ≡ spec.is_said_written pure.now x }
{
    pure.iter().any(|c| says_written(x, c))
}

// Whether a variable is no cell, or is said to be written.
fn is_used_written(entry: &Entry, x: u32) -> bool
    ensures { result ≡ spec.is_used_written entry.now x }
{
    !is_cell(entry.vars.as_slice(), Var(x)) || is_said_written(entry.pure.as_slice(), x)
}

fn are_used_written(entry: &Entry, xs: &[u32]) -> bool
    ensures { result ≡ list_all (spec.is_used_written entry.now) xs.now }
{
    xs.iter().all(|x| is_used_written(entry, *x))
}

// The same of the variables of a polynomial.
fn is_polynomial_written(entry: &Entry, p: &Poly) -> bool
    ensures { result ≡ list_all (spec.is_used_written entry.now) (variables_of p.now) }
{
    are_monomials_written(entry, p.monomials())
}

fn are_monomials_written(entry: &Entry, monomials: &[Monomial<4>]) -> bool
    ensures { result ≡ list_all (λ m. list_all (spec.is_used_written entry.now) (term_of m).vars) monomials.now }
{
    monomials.iter().all(|m| are_used_written(entry, m.vars()))
}

// The same of a place.
fn is_place_written(entry: &Entry, place: Place) -> bool
    ensures { result ≡ list_all (spec.is_used_written entry.now) (place_variables place) }
{
    match place {
        Place::Null => true,
        Place::Var(x) => is_used_written(entry, x.0),
    }
}

// The same of a quotient and of what it is made of.
fn is_quotient_written(entry: &Entry, x: Var, p: &Poly, q: &Poly) -> bool
    ensures { result ≡ list_all (spec.is_used_written entry.now) (spec.used_by_conjunct (Quotient x p.now q.now)) }
{
    is_used_written(entry, x.0)
        && is_polynomial_written(entry, p)
        && is_polynomial_written(entry, q)
}

// The same of what a conjunct uses.
fn is_conjunct_written(entry: &Entry, c: &Conj) -> bool
    ensures { result ≡ list_all (spec.is_used_written entry.now) (spec.used_by_conjunct c.now) }
{
    match c {
        Conj::Equal(p) | Conj::Unequal(p) => is_polynomial_written(entry, p),
        Conj::Less(p, q) | Conj::AtMost(p, q) => {
            is_polynomial_written(entry, p) && is_polynomial_written(entry, q)
        }
        Conj::SamePlace(a, b) | Conj::OtherPlace(a, b) => {
            is_place_written(entry, *a) && is_place_written(entry, *b)
        }
        Conj::Written(x) => is_used_written(entry, x.0),
        Conj::Unwritten(_) => true,
        Conj::Quotient(x, p, q) => is_quotient_written(entry, *x, p, q),
    }
}

fn are_conjuncts_written(entry: &Entry, pure: &[Conj]) -> bool
    ensures { result ≡ list_all (λ c. list_all (spec.is_used_written entry.now) (spec.used_by_conjunct c)) pure.now }
{
    pure.iter().all(|c| is_conjunct_written(entry, c))
}

// The same of a content.
fn is_content_written(entry: &Entry, content: &Content) -> bool
    ensures { result ≡ list_all (spec.is_used_written entry.now) (content_variables content.now) }
{
    match content {
        Content::Word(p) => is_polynomial_written(entry, p),
        Content::Place(place) => is_place_written(entry, *place),
        Content::Unwritten | Content::Cell(_) => true,
    }
}

fn are_contents_written(entry: &Entry, cells: &[Content]) -> bool
    ensures { result ≡ list_all (λ c. list_all (spec.is_used_written entry.now) (content_variables c)) cells.now }
{
    cells
        .iter()
        .all(|content| is_content_written(entry, content))
}

// The same of an atom.
fn is_atom_written(entry: &Entry, atom: &Atom) -> bool
    ensures { result ≡ list_all (spec.is_used_written entry.now) (spec.used_by_atom atom.now) }
{
    is_used_written(entry, atom.place.0) && are_contents_written(entry, state_cells(&atom.state))
}

fn are_atoms_written(entry: &Entry, atoms: &[Atom]) -> bool
    ensures { result ≡ list_all (λ a. list_all (spec.is_used_written entry.now) (spec.used_by_atom a)) atoms.now }
{
    atoms.iter().all(|atom| is_atom_written(entry, atom))
}

// The same of a result.
fn is_result_written(entry: &Entry, given: &Option<Content>) -> bool
    ensures { result ≡ list_all (spec.is_used_written entry.now) (spec.used_by_result given.now) }
{
    match given {
        None => true,
        Some(content) => is_content_written(entry, content),
    }
}

// The same of what the conjuncts, the atoms and the result use.
fn are_parts_written(entry: &Entry) -> bool
    ensures { result ≡
        (list_all (λ c. list_all (spec.is_used_written entry.now) (spec.used_by_conjunct c)) entry.now.pure
        && list_all (λ a. list_all (spec.is_used_written entry.now) (spec.used_by_atom a)) entry.now.pre
        && list_all (λ a. list_all (spec.is_used_written entry.now) (spec.used_by_atom a)) entry.now.post
        && list_all (spec.is_used_written entry.now) (spec.used_by_result entry.now.result)) }
{
    are_conjuncts_written(entry, entry.pure.as_slice())
        && are_atoms_written(entry, entry.pre.as_slice())
        && are_atoms_written(entry, entry.post.as_slice())
        && is_result_written(entry, &entry.result)
}

/// Whether each cell that an entry uses as a word or a place is said to be written.
pub(crate) fn are_uses_written(entry: &Entry) -> bool
    ensures { result ≡ list_all (spec.is_used_written entry.now) (spec.used_variables entry.now) }
{
    are_parts_written(entry)
}
