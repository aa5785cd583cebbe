ghost use Rattle.std.specs.Prelude.{◌≡◌, ◌++◌, map, option_map, OnOk, IfOk};
ghost use Rattle.px_real_declaring.specs.Trees.{declared_tree, declaration_tree};
ghost use Rattle.px_real_types.specs.Scopes.{texts};
ghost use Rattle.px_real_types.specs.Cells.{cell_tree, nameless, member_cells, members_cells, cells_in, all_cells, layout, parameter_of};

use crate::declarators::{declared_name, declared_shape};
use crate::scope::{Scope, Texts};
use crate::shape::{Base, ProfileType, Shape};
use crate::specifiers::specified;
use px_real_declaring::{Declaration, Declared};
use px_syntax::Name;
use px_terms::NoMemory;
use std::alloc::Global;

// How many members of profile types a struct has at most, if it is seen.
const MOST_CELLS: usize = 64;

/// A cell of a struct: the name of its member, which is empty for a cell that stands for none, and its type.
#[derive(Drop)]
pub struct Cell {
    pub name: Name,
    pub kind: ProfileType,
}

// The cell that a member makes, if it makes one.
fn add_member(
    alloc: Global,
    cells: &mut Vec<Cell>,
    on: Texts,
    shape: Shape,
    member: &Declared,
) -> Result<(), NoMemory>
    ensures { OnOk result (map cell_tree cells.new.items ≡ map cell_tree cells.old.items ++ member_cells shape (declared_tree (texts on.entry) member.now)) }
{
    if let Some(_) = &member.value {
        return Ok(());
    }
    let Some(name) = declared_name(&member.declarator) else {
        return Ok(());
    };
    let Some(kind) = declared_shape(member, on, shape).in_profile() else {
        return Ok(());
    };
    let name = Name::from_slice(alloc, name.as_slice())?;
    cells.push(Cell { name, kind })?;
    Ok(())
}

// The cells of these members, whose specifiers say this type.
fn add_members(
    alloc: Global,
    cells: &mut Vec<Cell>,
    on: Texts,
    shape: Shape,
    members: &[Declared],
) -> Result<(), NoMemory>
    ensures { OnOk result (map cell_tree cells.new.items ≡ map cell_tree cells.old.items ++ members_cells shape (map (declared_tree (texts on.entry)) members.now)) }
{
    for member in members {
        add_member(alloc, cells, on, shape, member)?;
    }
    Ok(())
}

// The cells of the members of one declaration.
fn add_declaration<S: Scope>(
    alloc: Global,
    cells: &mut Vec<Cell>,
    scope: &S,
    on: Texts,
    declaration: &Declaration,
) -> Result<(), NoMemory>
    ensures { OnOk result (map cell_tree cells.new.items ≡ map cell_tree cells.old.items ++ cells_in (S.meanings scope.now) (declaration_tree (texts on.entry) declaration.now)) }
{
    match declaration {
        Declaration::Declaration {
            specifiers,
            declared,
        } => {
            let shape = specified(scope, on, specifiers);
            add_members(alloc, cells, on, shape, declared)
        }
        Declaration::Assertion(_) => Ok(()),
    }
}

// The cells of all members, in order.
fn all_cells<S: Scope>(
    alloc: Global,
    scope: &S,
    on: Texts,
    members: &[Declaration],
) -> Result<Vec<Cell>, NoMemory>
    ensures { IfOk result (λ cells. map cell_tree cells.items ≡ all_cells (S.meanings scope.now) (map (declaration_tree (texts on.entry)) members.now)) }
{
    let mut cells = Vec::new(alloc);
    for member in members {
        add_declaration(alloc, &mut cells, scope, on, member)?;
    }
    Ok(cells)
}

// An int that has no name.
fn nameless(alloc: Global) -> Result<Cell, NoMemory>
    ensures { IfOk result (λ c. cell_tree c ≡ nameless) }
{
    let name = Name::from_slice(alloc, &[])?;
    let kind = ProfileType {
        base: Base::Int,
        stars: 0,
    };
    Ok(Cell { name, kind })
}

/// The cells of a struct with these members, in order; or that it isn't seen, since it has too many.
pub fn layout<S: Scope>(
    alloc: Global,
    scope: &S,
    on: Texts,
    members: &[Declaration],
) -> Result<Option<Vec<Cell>>, NoMemory>
    ensures { IfOk result (λ o. option_map (λ cells. map cell_tree cells.items) o ≡ layout (S.meanings scope.now) (map (declaration_tree (texts on.entry)) members.now)) }
{
    let mut cells = all_cells(alloc, scope, on, members)?;
    if cells.len() > MOST_CELLS {
        return Ok(None);
    }
    if cells.is_empty() {
        let cell = nameless(alloc)?;
        cells.push(cell)?;
    }
    Ok(Some(cells))
}

/// The type of a parameter, where it is one of the profile; a parameter of another type is erased.
pub fn parameter_of<S: Scope>(scope: &S, on: Texts, parameter: &Declaration) -> Option<ProfileType>
    ensures { result ≡ parameter_of (S.meanings scope.now) (declaration_tree (texts on.entry) parameter.now) }
{
    let Declaration::Declaration {
        specifiers,
        declared,
    } = parameter
    else {
        return None;
    };
    let first = declared.first()?;
    let shape = specified(scope, on, specifiers);
    declared_shape(first, on, shape).as_parameter().in_profile()
}
