ghost use Rattle.std.specs.Prelude.{◌≡◌, ◌++◌, [], ◌&&◌, ◌||◌, nat_eq, map, flat_map, IfOk, OnOk};
ghost use Rattle.px_entry.specs.declared.atoms.Atom.{Atom as AtomOf};
ghost use Rattle.std.specs.List.{list_all, list_any};
ghost use Rattle.px_entry.specs.Sorts as sorts;
ghost use Rattle.px_entry.specs.Contents as contents;
ghost use Rattle.px_entry.specs.Constraint.{made_atoms, found_atoms};
ghost use Rattle.px_entry.specs.Regular as spec;

use crate::variables::{is_cell_sort, is_given, is_made_sort};
use px_entry::{Atom, AtomState};
use px_match::is_made;
use px_terms::{BlockType, Content, NoMemory, ValueType, VarInfo};
use px_ways::{cells_of, content_fits, has_type, is_cell};
use std::alloc::Global;

// ---- one atom

// Whether the place of an atom points to its block type.
fn points_to_block(vars: &[VarInfo], atom: &Atom) -> bool
    ensures { result ≡ spec.points_to_block vars.now atom.now }
{
    has_type(vars, ValueType::Pointer(atom.block), atom.place)
}

pub(crate) fn point_to_blocks(vars: &[VarInfo], atoms: &[Atom]) -> bool
    ensures { result ≡ list_all (spec.points_to_block vars.now) atoms.now }
{
    atoms.iter().all(|atom| points_to_block(vars, atom))
}

// Whether a content is a variable for what stands in a cell of a type.
fn is_own_cell(vars: &[VarInfo], wanted: ValueType, content: &Content) -> bool
    ensures { result ≡ spec.is_own_cell vars.now wanted content.now }
{
    match content {
        Content::Cell(x) => is_cell(vars, *x) && has_type(vars, wanted, *x),
        Content::Unwritten | Content::Word(_) | Content::Place(_) => false,
    }
}

// Whether there is one content for each cell, a variable of its own.
fn are_own_cells(vars: &[VarInfo], wanted: &[ValueType], cells: &[Content]) -> bool
    ensures { result ≡ contents.fit_each (spec.is_own_cell vars.now) wanted.now cells.now }
{
    let mut place = 0;
    for content in cells {
        let Some(value) = wanted.get(place) else {
            return false;
        };
        if !is_own_cell(vars, *value, content) {
            return false;
        }
        place += 1;
    }
    place >= wanted.len()
}

// Whether there is one content for each cell, which fits.
fn are_fit(vars: &[VarInfo], wanted: &[ValueType], cells: &[Content]) -> bool
    ensures { result ≡ contents.fit_each (contents.fits_cell vars.now) wanted.now cells.now }
{
    let mut place = 0;
    for content in cells {
        let Some(value) = wanted.get(place) else {
            return false;
        };
        if !content_fits(vars, *value, content) {
            return false;
        }
        place += 1;
    }
    place >= wanted.len()
}

// Whether an atom that is found is freed, or has a variable of its own in each cell.
fn is_found_block(types: &[BlockType], vars: &[VarInfo], atom: &Atom) -> bool
    ensures { result ≡ spec.fits_block types.now (spec.is_own_cell vars.now) atom.now }
{
    match &atom.state {
        AtomState::Live(cells) => {
            are_own_cells(vars, cells_of(types, atom.block), cells.as_slice())
        }
        AtomState::Freed => true,
    }
}

pub(crate) fn are_found_blocks(types: &[BlockType], vars: &[VarInfo], atoms: &[Atom]) -> bool
    ensures { result ≡ list_all (spec.fits_block types.now (spec.is_own_cell vars.now)) atoms.now }
{
    atoms.iter().all(|atom| is_found_block(types, vars, atom))
}

// Whether an atom that is left is freed, or has contents that fit.
fn is_left_block(types: &[BlockType], vars: &[VarInfo], atom: &Atom) -> bool
    ensures { result ≡ spec.fits_block types.now (contents.fits_cell vars.now) atom.now }
{
    match &atom.state {
        AtomState::Live(cells) => are_fit(vars, cells_of(types, atom.block), cells.as_slice()),
        AtomState::Freed => true,
    }
}

pub(crate) fn are_left_blocks(types: &[BlockType], vars: &[VarInfo], atoms: &[Atom]) -> bool
    ensures { result ≡ list_all (spec.fits_block types.now (contents.fits_cell vars.now)) atoms.now }
{
    atoms.iter().all(|atom| is_left_block(types, vars, atom))
}

// ---- cells

// The contents of a live block.
pub(crate) fn state_cells(state: &AtomState) -> &[Content]
    ensures { result.now ≡ spec.state_cells state.now }
{
    match state {
        AtomState::Live(cells) => cells.as_slice(),
        AtomState::Freed => &[],
    }
}

// Puts the cell variables that contents are after others.
fn put_cells(cells: &mut Vec<u32>, all: &[Content]) -> Result<(), NoMemory>
    ensures { OnOk result (cells.new.items ≡ cells.old.items ++ flat_map contents.cell_variables all.now) }
{
    for content in all {
        put_cell(cells, content)?;
    }
    Ok(())
}

fn put_cell(cells: &mut Vec<u32>, content: &Content) -> Result<(), NoMemory>
    ensures { OnOk result (cells.new.items ≡ cells.old.items ++ contents.cell_variables content.now) }
{
    if let Content::Cell(x) = content {
        cells.push(x.0)?;
    }
    Ok(())
}

// Whether a place is given, or one of these cells.
fn is_reached(vars: &[VarInfo], cells: &[u32], place: u32) -> bool
    ensures { result ≡ (sorts.is_given vars.now place || list_any (nat_eq place) cells.now) }
{
    is_given(vars, place) || is_among(cells, place)
}

fn is_among(xs: &[u32], x: u32) -> bool
    ensures { result ≡ list_any (nat_eq x) xs.now }
{
    xs.iter().any(|y| x == *y)
}

// Whether the place of each atom is given, or the content of a cell of an earlier one. The cells are put into a list.
pub(crate) fn are_reached(
    vars: &[VarInfo],
    atoms: &[Atom],
    cells: &mut Vec<u32>,
) -> Result<bool, NoMemory>
    requires { cells.old.items ≡ [] }
    ensures reached { IfOk result (λ yes. yes ≡ spec.are_reached vars.now [] atoms.now) }
    ensures cells { OnOk result (cells.new.items ≡ spec.cells_of atoms.now) }
{
    let mut reached = true;
    for atom in atoms {
        reached &= is_reached(vars, cells, atom.place.0);
        put_cells(cells, state_cells(&atom.state))?;
    }
    Ok(reached)
}

// ---- variables that stand once

fn stands_once(xs: &[u32], n: usize) -> bool
    ensures { result ≡ spec.stands_once xs.now n }
{
    xs.iter().filter(|x| n == **x as usize).count() == 1
}

// Whether each cell variable stands once in a list.
pub(crate) fn is_each_cell_once(xs: &[u32], vars: &[VarInfo]) -> bool
    ensures { result ≡ spec.each_once (λ i. sorts.is_cell_sort i.sort) xs.now 0 vars.now }
{
    for n in 0..vars.len() {
        if is_cell_sort(vars[n].sort) && !stands_once(xs, n) {
            return false;
        }
    }
    true
}

// Whether each made variable stands once in a list.
pub(crate) fn is_each_made_once(xs: &[u32], vars: &[VarInfo]) -> bool
    ensures { result ≡ spec.each_once (λ i. sorts.is_made_sort i.sort) xs.now 0 vars.now }
{
    for n in 0..vars.len() {
        if is_made_sort(vars[n].sort) && !stands_once(xs, n) {
            return false;
        }
    }
    true
}

// The places of the blocks that were made.
pub(crate) fn made_places(
    alloc: Global,
    vars: &[VarInfo],
    atoms: &[Atom],
) -> Result<Vec<u32>, NoMemory>
    ensures { IfOk result (λ places. places.items ≡ map (λ (a : AtomOf). a.place.0) (made_atoms vars.now atoms.now)) }
{
    let mut places = Vec::new(alloc);
    for atom in atoms {
        if is_made(vars, atom.place) {
            places.push(atom.place.0)?;
        }
    }
    Ok(places)
}

// ---- the blocks that were found are there

fn is_same_block(a: &Atom, b: &Atom) -> bool
    ensures { result ≡ (nat_eq a.now.place.0 b.now.place.0 && nat_eq a.now.block.0 b.now.block.0) }
{
    a.place.0 == b.place.0 && a.block.0 == b.block.0
}

// Whether the blocks that weren't made are those that were found, in order.
pub(crate) fn are_same_blocks(vars: &[VarInfo], found: &[Atom], left: &[Atom]) -> bool
    ensures { result ≡ spec.same_blocks found.now (found_atoms vars.now left.now) }
{
    let mut met = 0;
    for atom in left {
        if !is_made(vars, atom.place) {
            let Some(first) = found.get(met) else {
                return false;
            };
            if !is_same_block(first, atom) {
                return false;
            }
            met += 1;
        }
    }
    met >= found.len()
}
