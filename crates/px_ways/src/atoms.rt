ghost use Rattle.std.specs.Prelude.{◌≡◌, ◌<◌, ◌≤◌, List, Some, length, option_map, slice_get, slice_set, map, replicate, IfOk, OnOk};
ghost use Rattle.std.specs.Option.{option_copied};
ghost use Rattle.px_base.specs.Bounds.{most_steps, most_variables};
ghost use Rattle.px_terms.specs.Types.{cell_types};
ghost use Rattle.px_base.specs.declared.trace.MarkKind.TheVariants as kind;
ghost use Rattle.px_terms.specs.declared.types.ValueType.TheVariants as value;
ghost use Rattle.px_terms.specs.declared.conjuncts.Content.TheVariants as content;
ghost use Rattle.px_entry.specs.Contents.{variable_content};
ghost use Rattle.px_callgraph.specs.States.{begun, marked};
ghost use Rattle.px_callgraph.specs.Commands as commands;
ghost use Rattle.px_entry.specs.declared.atoms.AtomState.TheVariants.{Live, Freed};
ghost use Rattle.px_entry.specs.Cases.{is_freed};
ghost use Rattle.px_callgraph.specs.States as states;
ghost use Rattle.px_callgraph.specs.Accesses as spec;
ghost use Rattle.px_ways.specs.Ways.{or_unwritten};
ghost use Rattle.px_ways.specs.Atoms.{state_at};

use crate::changes::{add_atom, add_variable, begin, mark, set_slot};
use crate::contents::slot_content;
use px_base::{FieldId, MarkKind, Site};
use px_callgraph::State;
use px_entry::{Atom, AtomState};
use px_terms::{BlockType, Content, Items, NoMemory, Place, Sort, TypeId, ValueType, Var, VarInfo};
use std::alloc::Global;

/// The variable that stands for the block of the atom with a number.
pub fn place_at(atoms: &[Atom], n: u32) -> Option<Var>
    ensures { result ≡ option_map (λ a. a.place) (slice_get atoms.now n) }
{
    match atoms.get(n as usize) {
        Some(atom) => Some(atom.place),
        None => None,
    }
}

/// Whether the block of the atom with a number was freed.
pub fn freed_at(atoms: &[Atom], n: usize) -> Option<bool>
    ensures { result ≡ option_map is_freed (state_at atoms.now n) }
{
    match atoms.get(n) {
        Some(atom) => Some(is_freed_state(&atom.state)),
        None => None,
    }
}

fn is_freed_state(state: &AtomState) -> bool
    ensures { result ≡ is_freed state.now }
{
    matches!(state, AtomState::Freed)
}

/// What stands in a cell of a live block.
pub fn cell_content(atoms: &[Atom], n: usize, field: FieldId) -> Result<Content, NoMemory>
    ensures { IfOk result (λ c. (cells : List Content) → state_at atoms.now n ≡ Some (Live cells) → c ≡ states.content_at cells field.0) }
{
    match atoms.get(n) {
        Some(atom) => content_in(&atom.state, field),
        None => Ok(Content::Unwritten),
    }
}

fn content_in(state: &AtomState, field: FieldId) -> Result<Content, NoMemory>
    ensures { IfOk result (λ c. (cells : List Content) → state.now ≡ Live cells → c ≡ states.content_at cells field.0) }
{
    match state {
        AtomState::Live(cells) => copy_found(slot_content(cells.as_slice(), field.0)),
        AtomState::Freed => Ok(Content::Unwritten),
    }
}

fn copy_found(content: Option<&Content>) -> Result<Content, NoMemory>
    ensures { IfOk result (λ c. c ≡ or_unwritten (option_copied content.entry)) }
{
    match content {
        Some(content) => content.copy(),
        None => Ok(Content::Unwritten),
    }
}

/// Atoms of which one has another content in a cell of its block.
pub fn stored(atoms: Items<Atom>, n: usize, field: FieldId, content: Content) -> Items<Atom>
    ensures { (cells : List Content) → state_at atoms n ≡ Some (Live cells) → result ≡ spec.set_atom n (Live (slice_set cells field.0 content)) atoms }
{
    let mut all = atoms.into_vec();
    if n >= all.len() {
        return Items::from_vec(all);
    }
    put_cell(&mut all[n], field, content);
    Items::from_vec(all)
}

fn put_cell(atom: &mut Atom, field: FieldId, content: Content)
    ensures { (cells : List Content) → atom.old.state ≡ Live cells → atom.new ≡ spec.with_state (Live (slice_set cells field.0 content)) atom.old }
{
    match &mut atom.state {
        AtomState::Live(cells) => set_content(cells, field.0, content),
        AtomState::Freed => {}
    }
}

fn set_content(cells: &mut Items<Content>, field: u32, content: Content)
    ensures { cells.new ≡ slice_set cells.old field content }
{
    let place = field as usize;
    if place < cells.len() {
        cells.set(place, content);
    }
}

/// Atoms of which one is freed.
pub fn freed(atoms: Items<Atom>, n: usize) -> Items<Atom>
    ensures { result ≡ spec.set_atom n Freed atoms }
{
    let mut all = atoms.into_vec();
    if n >= all.len() {
        return Items::from_vec(all);
    }
    put_freed(&mut all[n]);
    Items::from_vec(all)
}

fn put_freed(atom: &mut Atom)
    ensures { atom.new ≡ spec.with_state Freed atom.old }
{
    atom.state = AtomState::Freed;
}

/// A command begins, and a slot gets a new block of a type, all of whose cells are unwritten, by a new variable.
pub fn take_block(
    alloc: Global,
    types: &[BlockType],
    state: &mut State,
    to: u32,
    block: TypeId,
    site: Site,
) -> Result<(), NoMemory>
    requires steps { state.old.steps < most_steps }
    requires few { length state.old.vars ≤ most_variables }
    ensures { OnOk result (state.new ≡ states.set_slot to (variable_content (value.Pointer block) (length state.old.vars)) (commands.make types.now block (marked kind.Got site (begun state.old)))) }
{
    let x = Var(state.vars.len() as u32);
    begin(state);
    mark(state, MarkKind::Got, site)?;
    add_atom(state, unwritten_block(alloc, types, block, x)?)?;
    add_variable(
        state,
        VarInfo {
            sort: Sort::Made,
            value: ValueType::Pointer(block),
        },
    )?;
    set_slot(state, to, Content::Place(Place::Var(x)));
    Ok(())
}

// A block of a type at this variable, all of whose cells are unwritten.
fn unwritten_block(
    alloc: Global,
    types: &[BlockType],
    block: TypeId,
    x: Var,
) -> Result<Atom, NoMemory>
    ensures { IfOk result (λ a. a ≡ spec.atom_of x block (Live (map (λ _. content.Unwritten) (spec.block_cells types.now block)))) }
{
    let cells = match types.get(block.0 as usize) {
        Some(cells) => unwritten_cells(alloc, cells)?,
        None => Items::new(alloc),
    };
    Ok(Atom {
        place: x,
        block,
        state: AtomState::Live(cells),
    })
}

fn unwritten_cells(alloc: Global, block: &BlockType) -> Result<Items<Content>, NoMemory>
    ensures { IfOk result (λ cells. cells ≡ map (λ _. content.Unwritten) (cell_types block.now)) }
{
    match block {
        BlockType::One(_) => unwritten(alloc, 1),
        BlockType::Fields(values) => unwritten(alloc, values.len()),
        BlockType::Opaque => unwritten(alloc, 0),
    }
}

// So many unwritten contents.
fn unwritten(alloc: Global, count: usize) -> Result<Items<Content>, NoMemory>
    ensures { IfOk result (λ cells. cells ≡ replicate count content.Unwritten) }
{
    let mut cells = Items::new(alloc);
    for _ in 0..count {
        cells.push(Content::Unwritten)?;
    }
    Ok(cells)
}
