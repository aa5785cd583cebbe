ghost use Rattle.std.specs.Prelude.{◌≡◌};
ghost use Rattle.px_entry.specs.Sorts as sorts;
ghost use Rattle.px_entry.specs.Contents as contents;
ghost use Rattle.px_terms.specs.declared.conjuncts.Content.TheVariants as content;
ghost use Rattle.px_terms.specs.declared.conjuncts.Place.TheVariants as places;
ghost use Rattle.px_terms.specs.declared.types.ValueType.TheVariants as types;
ghost use Rattle.px_callgraph.specs.Calls as spec;
ghost use Rattle.px_calls.specs.Arguments.{fits_infos};

use px_entry::Entry;
use px_match::is_int_polynomial;
use px_terms::{Content, Place, Poly, TypeId, ValueType, Var, VarInfo};

/// Whether arguments are words and places of the types of an entry's first variables. Takes no memory.
#[tactic(auto, using(crate::proofs::ArgumentLemmas::infos_fit))]
pub(crate) fn fits_arguments(vars: &[VarInfo], arguments: &[Content], entry: &Entry) -> bool
    ensures { result ≡ spec.fits_arguments vars.now arguments.now entry.now }
{
    fit_infos(vars, entry.vars.as_slice(), arguments)
}

fn fit_infos(vars: &[VarInfo], infos: &[VarInfo], arguments: &[Content]) -> bool
    ensures { result ≡ fits_infos vars.now infos.now arguments.now }
{
    for i in 0..arguments.len() {
        if i >= infos.len() {
            return false;
        }
        if !is_written_of(vars, infos[i].value, &arguments[i]) {
            return false;
        }
    }
    true
}

// Whether a content is a word or a place of a type.
fn is_written_of(vars: &[VarInfo], wanted: ValueType, content: &Content) -> bool
    ensures { result ≡ contents.is_written_of vars.now wanted content.now }
{
    match content {
        Content::Word(p) => is_word_of(vars, wanted, p),
        Content::Place(place) => is_pointer_of(vars, wanted, *place),
        Content::Unwritten | Content::Cell(_) => false,
    }
}

fn is_word_of(vars: &[VarInfo], wanted: ValueType, p: &Poly) -> bool
    ensures { result ≡ contents.is_written_of vars.now wanted (content.Word p.now) }
{
    match wanted {
        ValueType::Int => is_int_polynomial(vars, p),
        ValueType::Pointer(_) => false,
    }
}

fn is_pointer_of(vars: &[VarInfo], wanted: ValueType, place: Place) -> bool
    ensures { result ≡ contents.is_written_of vars.now wanted (content.Place place) }
{
    match wanted {
        ValueType::Int => false,
        ValueType::Pointer(block) => is_place_of(vars, block, place),
    }
}

// Whether a place is null or a pointer to blocks of a type.
fn is_place_of(vars: &[VarInfo], block: TypeId, place: Place) -> bool
    ensures { result ≡ sorts.is_place_of vars.now block place }
{
    match place {
        Place::Null => true,
        Place::Var(x) => is_pointer_to(vars, block, x),
    }
}

fn is_pointer_to(vars: &[VarInfo], block: TypeId, x: Var) -> bool
    ensures { result ≡ sorts.is_place_of vars.now block (places.Var x) }
{
    match vars.get(x.0 as usize) {
        Some(info) => points_to(info.value, block),
        None => false,
    }
}

fn points_to(value: ValueType, block: TypeId) -> bool
    ensures { result ≡ sorts.same_type value (types.Pointer block) }
{
    match value {
        ValueType::Int => false,
        ValueType::Pointer(to) => to.0 == block.0,
    }
}
