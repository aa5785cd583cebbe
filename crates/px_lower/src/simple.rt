ghost use Rattle.std.specs.Prelude.{map, option_map};
ghost use Rattle.px_core.specs.CommandTree.{command_tree};
ghost use Rattle.px_syntax.specs.TypedTree.{expressions_of};
ghost use Rattle.px_syntax.specs.TypedViews.{typed_expression, typed_condition, typed_place};
ghost use Rattle.px_lower.specs.Lowering.{lowered_declaration, lowered_assignment, lowered_update, lowered_access, lowered_head, lowered_return};
ghost use Rattle.px_lower.specs.Chains.{Does};

use crate::commands::{calculate, cell_reached, cell_value, copy_of, local_value};
use crate::expressions::{condition, effects, expression};
use crate::put::{Given, Halt, put};
use px_core::Command;
use px_syntax::{Arithmetic, CellLink, Condition, Place, TypedExpression};
use std::alloc::Global;

// Each of these puts commands after those that are there, and gives the next new slot.

#[tactic(auto, using(px_core::proofs::CommandEquations::trees))]
pub fn declaration(
    alloc: Global,
    local: u32,
    value: &Option<Box<TypedExpression>>,
    next: u32,
    out: &mut Vec<Command>,
) -> Result<u32, Halt>
    ensures { Does (lowered_declaration local (option_map (λ b. typed_expression b.value) value.now) next) (map command_tree out.old.items) (map command_tree out.new.items) result }
{
    put(out, Command::Unset { to: local })?;
    match value {
        None => Ok(next),
        Some(value) => {
            let x = expression(alloc, value, next, out)?;
            put(out, copy_of(local, x.operand))?;
            Ok(x.next)
        }
    }
}

#[tactic(auto, using(px_core::proofs::CommandEquations::trees))]
pub fn assignment(
    alloc: Global,
    place: &Place,
    value: &TypedExpression,
    next: u32,
    out: &mut Vec<Command>,
) -> Result<u32, Halt>
    ensures { Does (lowered_assignment (typed_place place.now) (typed_expression value.now) next) (map command_tree out.old.items) (map command_tree out.new.items) result }
{
    match place {
        Place::Local { local, site: _ } => {
            let x = expression(alloc, value, next, out)?;
            put(out, copy_of(*local, x.operand))?;
            Ok(x.next)
        }
        Place::Cell {
            site,
            field,
            block,
            pointer,
        } => {
            let x = expression(alloc, pointer, next, out)?;
            let y = expression(alloc, value, x.next, out)?;
            put(
                out,
                Command::Store {
                    at: x.operand,
                    field: *field,
                    block: *block,
                    from: y.operand,
                    site: *site,
                },
            )?;
            Ok(y.next)
        }
    }
}

#[tactic(auto, using(px_core::proofs::CommandEquations::trees))]
pub fn update(
    alloc: Global,
    op: Arithmetic,
    place: &Place,
    value: &TypedExpression,
    next: u32,
    out: &mut Vec<Command>,
) -> Result<u32, Halt>
    ensures { Does (lowered_update op (typed_place place.now) (typed_expression value.now) next) (map command_tree out.old.items) (map command_tree out.new.items) result }
{
    match place {
        Place::Local { local, site } => {
            let old = local_value(*local, *site, next, out)?;
            let x = expression(alloc, value, next, out)?;
            let new = calculate(op, old.operand, x, out)?;
            put(out, copy_of(*local, new.operand))?;
            Ok(new.next)
        }
        Place::Cell {
            site,
            field,
            block,
            pointer,
        } => {
            let (field, block, site) = (*field, *block, *site);
            let x = expression(alloc, pointer, next, out)?;
            let old = cell_value(x, CellLink { field, block, site }, out)?;
            let y = expression(alloc, value, old.next, out)?;
            let new = calculate(op, old.operand, y, out)?;
            let command = Command::Store {
                at: x.operand,
                field,
                block,
                from: new.operand,
                site,
            };
            put(out, command)?;
            Ok(new.next)
        }
    }
}

#[tactic(auto, using(px_core::proofs::CommandEquations::trees))]
pub fn access(
    alloc: Global,
    pointer: &TypedExpression,
    parts: &[TypedExpression],
    cell: CellLink,
    next: u32,
    out: &mut Vec<Command>,
) -> Result<u32, Halt>
    ensures { Does (lowered_access (typed_expression pointer.now) (expressions_of (map typed_expression parts.now)) cell.field cell.block cell.site next) (map command_tree out.old.items) (map command_tree out.new.items) result }
{
    let x = expression(alloc, pointer, next, out)?;
    let behind = effects(alloc, parts, x.next, out)?;
    let at = Given::new(x.operand, behind);
    Ok(cell_reached(at, cell, out)?)
}

#[tactic(auto, using(px_core::proofs::CommandEquations::trees))]
pub fn head(
    alloc: Global,
    c: &Option<Box<Condition>>,
    next: u32,
    out: &mut Vec<Command>,
) -> Result<u32, Halt>
    ensures { Does (lowered_head (option_map (λ b. typed_condition b.value) c.now) next) (map command_tree out.old.items) (map command_tree out.new.items) result }
{
    match c {
        None => Ok(next),
        Some(c) => {
            let x = condition(alloc, c, next, out)?;
            let mut other = Vec::new(alloc);
            put(&mut other, Command::Leave)?;
            put(
                out,
                Command::If {
                    slot: x.slot,
                    then: Vec::new(alloc),
                    other,
                },
            )?;
            Ok(x.next)
        }
    }
}

#[tactic(auto, using(px_core::proofs::CommandEquations::trees))]
pub fn give_back(
    alloc: Global,
    value: &Option<Box<TypedExpression>>,
    next: u32,
    out: &mut Vec<Command>,
) -> Result<u32, Halt>
    ensures { Does (lowered_return (option_map (λ b. typed_expression b.value) value.now) next) (map command_tree out.old.items) (map command_tree out.new.items) result }
{
    match value {
        None => {
            put(out, Command::Return { from: None })?;
            Ok(next)
        }
        Some(value) => {
            let x = expression(alloc, value, next, out)?;
            put(
                out,
                Command::Return {
                    from: Some(x.operand),
                },
            )?;
            Ok(x.next)
        }
    }
}
