ghost use Rattle.std.specs.Prelude.{◌≡◌, ◌+◌, ◌≤◌, ◌++◌, length, OnOk, IfOk};
ghost use Rattle.px_base.specs.Bounds.{most_variables};
ghost use Rattle.px_entry.specs.declared.atoms.AtomState.TheVariants.{Live, Freed};
ghost use Rattle.px_callgraph.specs.States as states;
ghost use Rattle.px_callgraph.specs.Accesses as spec;
ghost use Rattle.px_callgraph.specs.Accesses.{block_cells};

use px_callgraph::State;
use px_entry::{Atom, AtomState};
use px_terms::{BlockType, Content, Items, NoMemory, Sort, TypeId, ValueType, Var, VarInfo};
use std::alloc::Global;

/// The types of the cells of the blocks of a type.
pub fn cells_of(types: &[BlockType], block: TypeId) -> &[ValueType]
    ensures { result.now ≡ block_cells types.now block }
{
    match types.get(block.0 as usize) {
        Some(BlockType::One(value)) => std::slice::from_ref(value),
        Some(BlockType::Fields(values)) => values.as_slice(),
        Some(BlockType::Opaque) | None => &[],
    }
}

/// A live block of a type with such cells is met at a variable, with a variable of its own in each cell.
pub fn meet_live(
    alloc: Global,
    cells: &[ValueType],
    state: &mut State,
    block: TypeId,
    x: Var,
) -> Result<(), NoMemory>
    requires room { length state.old.vars + length cells.now ≤ most_variables }
    ensures { OnOk result (state.new ≡ states.with_variables (spec.cell_infos cells.now) (states.met (spec.atom_of x block (Live (spec.cell_contents (length state.old.vars) cells.now))) state.old)) }
{
    let first = state.vars.len() as u32;
    let before = live_atom(alloc, x, block, first, cells)?;
    let now = live_atom(alloc, x, block, first, cells)?;
    meet(state, before, now)?;
    add_cells(&mut state.vars, cells)
}

/// A freed block of a type is met at a variable.
pub fn meet_freed(state: &mut State, block: TypeId, x: Var) -> Result<(), NoMemory>
    ensures { OnOk result (state.new ≡ spec.meet_freed block x state.old) }
{
    meet(state, freed_atom(x, block), freed_atom(x, block))
}

// A block is met, as the call found it and as it is.
fn meet(state: &mut State, before: Atom, now: Atom) -> Result<(), NoMemory>
    requires { before ≡ now }
    ensures { OnOk result (state.new ≡ states.met now state.old) }
{
    state.pre.push(before)?;
    state.atoms.push(now)?;
    Ok(())
}

fn freed_atom(x: Var, block: TypeId) -> Atom
    ensures { result ≡ spec.atom_of x block Freed }
{
    Atom {
        place: x,
        block,
        state: AtomState::Freed,
    }
}

fn live_atom(
    alloc: Global,
    x: Var,
    block: TypeId,
    first: u32,
    cells: &[ValueType],
) -> Result<Atom, NoMemory>
    requires room { first + length cells.now ≤ most_variables }
    ensures { IfOk result (λ a. a ≡ spec.atom_of x block (Live (spec.cell_contents first cells.now))) }
{
    Ok(Atom {
        place: x,
        block,
        state: AtomState::Live(cell_contents(alloc, first, cells)?),
    })
}

// What stands in cells of these types, by variables of its own from the first on.
fn cell_contents(alloc: Global, first: u32, cells: &[ValueType]) -> Result<Items<Content>, NoMemory>
    requires room { first + length cells.now ≤ most_variables }
    ensures { IfOk result (λ r. r ≡ spec.cell_contents first cells.now) }
{
    let mut contents = Items::new(alloc);
    for i in 0..cells.len() {
        contents.push(Content::Cell(Var(first + i as u32)))?;
    }
    Ok(contents)
}

// A variable for each cell.
fn add_cells(vars: &mut Items<VarInfo>, cells: &[ValueType]) -> Result<(), NoMemory>
    ensures { OnOk result (vars.new ≡ vars.old ++ spec.cell_infos cells.now) }
{
    for value in cells {
        vars.push(VarInfo {
            sort: Sort::Cell,
            value: *value,
        })?;
    }
    Ok(())
}
