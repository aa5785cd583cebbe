ghost use Rattle.std.specs.Prelude.{map};
ghost use Rattle.px_core.specs.CommandTree.{command_tree};
ghost use Rattle.px_syntax.specs.TypedTree.{arguments_of, statements_of};
ghost use Rattle.px_syntax.specs.TypedTree as tree;
ghost use Rattle.px_syntax.specs.TypedViews.{typed_argument, typed_statement};
ghost use Rattle.px_lower.specs.Lowering.{lowered_statement, lowered_statements};
ghost use Rattle.px_lower.specs.Chains.{Does};

use crate::commands::unused_call;
use crate::expressions::{arguments, condition, effect, expression};
use crate::put::{Halt, behind_list, give, put};
use crate::simple::{access, assignment, declaration, give_back, head, update};
use px_base::{ProcId, Site};
use px_core::Command;
use px_syntax::{Argument, TypedStatement};
use std::alloc::Global;

#[tactic(auto, using(px_core::proofs::CommandEquations::trees))]
fn call_statement(
    alloc: Global,
    proc: ProcId,
    es: &[Argument],
    site: Site,
    next: u32,
    out: &mut Vec<Command>,
) -> Result<u32, Halt>
    ensures { Does (lowered_statement (tree.run_call proc (arguments_of (map typed_argument es.now)) site) next) (map command_tree out.old.items) (map command_tree out.new.items) result }
{
    let x = arguments(alloc, es, next, out)?;
    Ok(unused_call(proc, x, site, out)?)
}

/// The commands of a statement, after those that are there; gives the next new slot.
#[cycle(lower_statement)]
#[tactic(auto, using(px_core::proofs::CommandEquations::trees, px_syntax::proofs::TypedEquations::typed_trees))]
pub fn statement(
    alloc: Global,
    s: &TypedStatement,
    next: u32,
    out: &mut Vec<Command>,
) -> Result<u32, Halt>
    ensures { Does (lowered_statement (typed_statement s.now) next) (map command_tree out.old.items) (map command_tree out.new.items) result }
{
    match s {
        TypedStatement::Block { statements: all } => statements(alloc, all, next, out),
        TypedStatement::Declare { local, value } => declaration(alloc, *local, value, next, out),
        TypedStatement::Assign { place, value } => assignment(alloc, place, value, next, out),
        TypedStatement::Update {
            operator,
            place,
            value,
        } => update(alloc, *operator, place, value, next, out),
        TypedStatement::Call {
            proc,
            arguments: es,
            site,
        } => call_statement(alloc, *proc, es, *site, next, out),
        TypedStatement::Free {
            pointer,
            block,
            site,
        } => {
            let x = expression(alloc, pointer, next, out)?;
            put(
                out,
                Command::Free {
                    at: x.operand,
                    block: *block,
                    site: *site,
                },
            )?;
            Ok(x.next)
        }
        TypedStatement::GetChar { site } => {
            let given = give(
                out,
                Command::Input {
                    to: next,
                    site: *site,
                },
                next,
            )?;
            Ok(given.next)
        }
        TypedStatement::If {
            condition: c,
            then: first,
            other: second,
        } => {
            let x = condition(alloc, c, next, out)?;
            let mut then = Vec::new(alloc);
            let next = behind_list(statement(alloc, first, x.next, &mut then))?;
            let mut other = Vec::new(alloc);
            let next = behind_list(statement(alloc, second, next, &mut other))?;
            put(
                out,
                Command::If {
                    slot: x.slot,
                    then,
                    other,
                },
            )?;
            Ok(next)
        }
        TypedStatement::Loop {
            site,
            condition: c,
            body: inner,
            step: last,
        } => {
            let mut front = Vec::new(alloc);
            let next = behind_list(head(alloc, c, next, &mut front))?;
            let mut body = Vec::new(alloc);
            let next = behind_list(statement(alloc, inner, next, &mut body))?;
            let mut step = Vec::new(alloc);
            let next = behind_list(statement(alloc, last, next, &mut step))?;
            put(
                out,
                Command::Loop {
                    site: *site,
                    head: front,
                    body,
                    step,
                },
            )?;
            Ok(next)
        }
        TypedStatement::Break => {
            put(out, Command::Break)?;
            Ok(next)
        }
        TypedStatement::Continue => {
            put(out, Command::Continue)?;
            Ok(next)
        }
        TypedStatement::Return { value } => give_back(alloc, value, next, out),
        TypedStatement::Evaluate { value } => effect(alloc, value, next, out),
        TypedStatement::Access {
            pointer,
            parts,
            cell,
        } => access(alloc, pointer, parts, *cell, next, out),
    }
}

// The commands of statements one after another.
#[cycle(lower_statement)]
#[tactic(auto, using(px_core::proofs::CommandEquations::trees, px_syntax::proofs::TypedEquations::typed_trees))]
fn statements(
    alloc: Global,
    all: &[TypedStatement],
    next: u32,
    out: &mut Vec<Command>,
) -> Result<u32, Halt>
    ensures { Does (lowered_statements (statements_of (map typed_statement all.now)) next) (map command_tree out.old.items) (map command_tree out.new.items) result }
{
    out.reserve(all.len())?;
    let mut last = next;
    for s in all {
        last = statement(alloc, s, last, out)?;
    }
    Ok(last)
}
