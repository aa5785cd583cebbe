ghost use Rattle.std.specs.Prelude.{◌≡◌, IfOk};
ghost use Rattle.std.specs.List.{list_all};
ghost use Rattle.px_entry.specs.Sorts as sorts;
ghost use Rattle.px_entry.specs.Contents as contents;
ghost use Rattle.px_entry.specs.Regular as spec;

use crate::blocks::{
    are_found_blocks, are_left_blocks, are_reached, are_same_blocks, is_each_cell_once,
    is_each_made_once, made_places, point_to_blocks,
};
use crate::uses::are_uses_written;
use crate::variables::{are_given, are_inputs_words, is_input};
use px_entry::Entry;
use px_match::{is_int_polynomial, is_pointer, is_well_sorted};
use px_terms::{BlockType, Conj, Content, NoMemory, Place, VarInfo};
use px_ways::is_cell;
use std::alloc::Global;

// Whether each atom that is found is regular.
fn is_pre_regular(alloc: Global, types: &[BlockType], entry: &Entry) -> Result<bool, NoMemory>
    ensures { IfOk result (λ yes. yes ≡ spec.is_pre_regular types.now entry.now) }
{
    let vars = entry.vars.as_slice();
    let atoms = entry.pre.as_slice();
    let mut cells = Vec::new(alloc);
    let reached = are_reached(vars, atoms, &mut cells)?;
    Ok(
        point_to_blocks(vars, atoms)
            && are_found_blocks(types, vars, atoms)
            && is_each_cell_once(&cells, vars)
            && reached,
    )
}

// Whether each atom that is left is regular.
fn is_post_regular(alloc: Global, types: &[BlockType], entry: &Entry) -> Result<bool, NoMemory>
    ensures { IfOk result (λ yes. yes ≡ spec.is_post_regular types.now entry.now) }
{
    let vars = entry.vars.as_slice();
    let atoms = entry.post.as_slice();
    let made = made_places(alloc, vars, atoms)?;
    Ok(
        point_to_blocks(vars, atoms)
            && are_left_blocks(types, vars, atoms)
            && are_same_blocks(vars, entry.pre.as_slice(), atoms)
            && is_each_made_once(&made, vars),
    )
}

fn are_well_sorted(vars: &[VarInfo], pure: &[Conj]) -> bool
    ensures { result ≡ list_all (sorts.is_well_sorted vars.now) pure.now }
{
    pure.iter().all(|c| is_well_sorted(vars, c))
}

fn fits_some_place(vars: &[VarInfo], place: Place) -> bool
    ensures { result ≡ sorts.is_pointer_place vars.now place }
{
    match place {
        Place::Null => true,
        Place::Var(x) => is_pointer(vars, x),
    }
}

// Whether a content may stand in a cell of some type.
fn fits_some_type(vars: &[VarInfo], content: &Content) -> bool
    ensures { result ≡ contents.fits_some_type vars.now content.now }
{
    match content {
        Content::Unwritten => true,
        Content::Cell(x) => is_cell(vars, *x),
        Content::Word(p) => is_int_polynomial(vars, p),
        Content::Place(place) => fits_some_place(vars, *place),
    }
}

fn is_result(vars: &[VarInfo], given: &Option<Content>) -> bool
    ensures { result ≡ spec.is_result vars.now given.now }
{
    match given {
        None => true,
        Some(content) => fits_some_type(vars, content),
    }
}

// Whether a quotient is an input.
fn is_quotient_input(vars: &[VarInfo], c: &Conj) -> bool
    ensures { result ≡ spec.is_quotient_input vars.now c.now }
{
    match c {
        Conj::Quotient(x, _, _) => is_input(vars, x.0),
        Conj::Equal(_)
        | Conj::Unequal(_)
        | Conj::Less(_, _)
        | Conj::AtMost(_, _)
        | Conj::SamePlace(_, _)
        | Conj::OtherPlace(_, _)
        | Conj::Written(_)
        | Conj::Unwritten(_) => true,
    }
}

fn are_quotients_inputs(vars: &[VarInfo], pure: &[Conj]) -> bool
    ensures { result ≡ list_all (spec.is_quotient_input vars.now) pure.now }
{
    pure.iter().all(|c| is_quotient_input(vars, c))
}

// Whether conjuncts and result use variables by their types, what is used is said to be written, and quotients are
// inputs.
fn are_terms_regular(entry: &Entry) -> bool
    ensures { result ≡ spec.are_terms_regular entry.now }
{
    let vars = entry.vars.as_slice();
    are_well_sorted(vars, entry.pure.as_slice())
        && is_result(vars, &entry.result)
        && are_uses_written(entry)
        && are_quotients_inputs(vars, entry.pure.as_slice())
}

fn are_variables_regular(arguments: usize, entry: &Entry) -> bool
    ensures { result ≡ spec.are_variables_regular arguments entry.now }
{
    let vars = entry.vars.as_slice();
    are_given(arguments, vars) && are_inputs_words(vars)
}

/// Whether an entry is regular, of a procedure with so many parameters: this is what a call tests of it.
pub fn is_regular(
    alloc: Global,
    types: &[BlockType],
    arguments: usize,
    entry: &Entry,
) -> Result<bool, NoMemory>
    ensures { IfOk result (λ yes. yes ≡ spec.is_regular types.now arguments entry.now) }
{
    let pre = is_pre_regular(alloc, types, entry)?;
    let post = is_post_regular(alloc, types, entry)?;
    Ok(are_variables_regular(arguments, entry) && pre && post && are_terms_regular(entry))
}
