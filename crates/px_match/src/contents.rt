ghost use Rattle.std.specs.Prelude.{◌≡◌, Option, map, flat_map, IfOk};
ghost use Rattle.std.specs.Option.{option_copied};
ghost use Rattle.px_terms.specs.Polynomials.{Polynomial};
ghost use Rattle.px_terms.specs.Monomials.{term_of};
ghost use Rattle.px_terms.specs.declared.conjuncts.Content.TheVariants as content;
ghost use Rattle.px_callgraph.specs.Operations.{word_terms};
ghost use Rattle.px_callgraph.specs.Renaming as spec;
ghost use Rattle.px_match.specs.Through.{IsRead, IsThrough};

use crate::words::{Read, find, word_through};
use px_entry::AtomState;
use px_terms::{ByValue, Content, Items, Monomial, NoMemory, Place, Poly, Var};
use std::alloc::Global;

// The place of a content; that of an unread cell is its variable.
fn place_in(content: Option<&Content>) -> Option<Place>
    ensures { result ≡ spec.place_in (option_copied content.entry) }
{
    match content {
        Some(Content::Place(place)) => Some(*place),
        Some(Content::Cell(y)) => Some(Place::Var(*y)),
        _ => None,
    }
}

// The variable that a polynomial is.
fn variable_of(p: &Poly) -> Option<Var>
    ensures { result ≡ spec.variable_of p.now }
{
    if p.constant() != 0 {
        return None;
    }
    variable_in_sum(p.monomials())
}

fn variable_in_sum(monomials: &[Monomial<4>]) -> Option<Var>
    ensures { result ≡ spec.variable_in_sum (map term_of monomials.now) }
{
    match monomials {
        [m] => variable_among(m),
        _ => None,
    }
}

fn variable_among(m: &Monomial<4>) -> Option<Var>
    ensures { result ≡ spec.variable_among (term_of m.now).coefficient (term_of m.now).vars }
{
    let [x] = m.vars() else {
        return None;
    };
    if m.coefficient() == 1 {
        Some(Var(*x))
    } else {
        None
    }
}

// The variable that a content is, as a word; that of an unread cell is its variable.
pub(crate) fn variable_in(content: Option<&Content>) -> Option<Var>
    ensures { result ≡ spec.variable_in (option_copied content.entry) }
{
    match content {
        Some(Content::Word(p)) => variable_of(p),
        Some(Content::Cell(y)) => Some(*y),
        _ => None,
    }
}

/// A place of the entry as the caller reads it. Takes no memory.
pub fn place_through(substitution: &[(Var, Content)], place: Place) -> Option<Place>
    ensures { result ≡ spec.place_through substitution.now place }
{
    match place {
        Place::Null => Some(Place::Null),
        Place::Var(x) => place_in(find(substitution, x.0)),
    }
}

/// A content of the entry as the caller reads it, unless a polynomial of it is too long to be kept. What has
/// no meaning for the caller, a word by a variable that stands for a place, is unwritten.
pub fn content_through(
    alloc: Global,
    substitution: &[(Var, Content)],
    content: &Content,
) -> Result<Option<Content>, NoMemory>
    ensures { IfOk result (λ r. IsThrough r (spec.content_through substitution.now content.now) (spec.content_terms substitution.now content.now)) }
{
    match content {
        Content::Unwritten => Ok(Some(Content::Unwritten)),
        Content::Word(p) => Ok(as_word(word_through(substitution, p)?)),
        Content::Place(place) => Ok(Some(as_place(place_through(substitution, *place)))),
        Content::Cell(x) => Ok(Some(copy_found(alloc, find(substitution, x.0))?)),
    }
}

// A word as a content, unless it is too long; unwritten where there is none.
fn as_word(read: Read) -> Option<Content>
    ensures { (o : Option Polynomial) → IsRead read o → IsThrough result (spec.or_unwritten o content.Word) (word_terms (spec.or_unwritten o content.Word)) }
{
    match read {
        Read::NoWord => Some(Content::Unwritten),
        Read::Word(p) => Some(Content::Word(p)),
        Read::Long => None,
    }
}

// A place as a content; unwritten where there is none.
fn as_place(place: Option<Place>) -> Content
    ensures { result ≡ spec.or_unwritten place content.Place }
{
    match place {
        Some(place) => Content::Place(place),
        None => Content::Unwritten,
    }
}

fn copy_found(alloc: Global, content: Option<&Content>) -> Result<Content, NoMemory>
    ensures { IfOk result (λ c. c ≡ spec.or_unwritten (option_copied content.entry) (λ a. a)) }
{
    match content {
        Some(content) => content.copy_in(alloc),
        None => Ok(Content::Unwritten),
    }
}

/// The state of a block as the caller reads it, unless a polynomial of it is too long to be kept.
pub fn state_through(
    alloc: Global,
    substitution: &[(Var, Content)],
    state: &AtomState,
) -> Result<Option<AtomState>, NoMemory>
    ensures { IfOk result (λ r. IsThrough r (spec.state_through substitution.now state.now) (spec.state_terms substitution.now state.now)) }
{
    match state {
        AtomState::Live(cells) => match cells_through(alloc, substitution, cells.as_slice())? {
            Some(cells) => Ok(Some(AtomState::Live(cells))),
            None => Ok(None),
        },
        AtomState::Freed => Ok(Some(AtomState::Freed)),
    }
}

// The contents of cells as the caller reads them, unless a polynomial of theirs is too long to be kept.
fn cells_through(
    alloc: Global,
    substitution: &[(Var, Content)],
    cells: &[Content],
) -> Result<Option<Items<Content>>, NoMemory>
    ensures { IfOk result (λ r. IsThrough r (map (spec.content_through substitution.now) cells.now) (flat_map (spec.content_terms substitution.now) cells.now)) }
{
    let mut made = Items::new(alloc);
    for cell in cells {
        match content_through(alloc, substitution, cell)? {
            Some(content) => made.push(content)?,
            None => return Ok(None),
        }
    }
    Ok(Some(made))
}
