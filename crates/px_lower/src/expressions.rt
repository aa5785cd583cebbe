ghost use Rattle.std.specs.Prelude.{ℕ, ◌≡◌, ◌++◌, List, Ok, suc, map, IfOk, OnOk};
ghost use Rattle.px_core.specs.CommandTree.{CommandTree, command_tree};
ghost use Rattle.px_syntax.specs.TypedTree.{expressions_of, arguments_of};
ghost use Rattle.px_syntax.specs.TypedTree as tree;
ghost use Rattle.px_syntax.specs.TypedViews.{typed_expression, typed_argument, typed_condition, arithmetic_link, relation_link, calculated, compared, all_of, any_of};
ghost use Rattle.px_syntax.specs.TypedViews as views;
ghost use Rattle.px_lower.specs.Lowering.{lowered_expression, lowered_arguments, lowered_passed, lowered_condition, and_rest, or_rest, copied};
ghost use Rattle.px_lower.specs.Chains.{Gives, GivesAll, GivesMore, Decides, Does};

use crate::commands::{
    Operands, allocate, calculate, cell_reached, cell_value, compare, copy_of, get_char,
    local_value, negate, opposite, unused_call, used_call,
};
use crate::put::{Decided, Given, Halt, behind_list, decide, put};
use px_base::Site;
use px_core::{Command, Operand};
use px_syntax::{
    Argument, ArithmeticLink, CellLink, Condition, Relation, RelationLink, TypedExpression,
};
use px_terms::NoMemory;
use std::alloc::Global;

// Each of these puts commands after those that are there.

/// The commands of an expression.
#[cycle(lower)]
#[tactic(auto, using(px_core::proofs::CommandEquations::trees, px_syntax::proofs::TypedEquations::typed_trees))]
pub fn expression(
    alloc: Global,
    e: &TypedExpression,
    next: u32,
    out: &mut Vec<Command>,
) -> Result<Given, Halt>
    ensures { Gives (lowered_expression (typed_expression e.now) next) (map command_tree out.old.items) (map command_tree out.new.items) result }
{
    match e {
        TypedExpression::Constant { value } => Ok(Given::new(Operand::Word(*value), next)),
        TypedExpression::Null => Ok(Given::new(Operand::Null, next)),
        TypedExpression::Local { local, site } => Ok(local_value(*local, *site, next, out)?),
        TypedExpression::Negate { operand } => {
            let x = expression(alloc, operand, next, out)?;
            Ok(negate(x, out)?)
        }
        TypedExpression::Arithmetic {
            first,
            before,
            operator,
            right,
        } => {
            let start = expression(alloc, first, next, out)?;
            let left = calculations(alloc, before, start, out)?;
            let last = expression(alloc, right, left.next, out)?;
            Ok(calculate(*operator, left.operand, last, out)?)
        }
        TypedExpression::Truth { condition: c } => Ok(condition(alloc, c, next, out)?.as_given()),
        TypedExpression::Cell {
            pointer,
            before,
            field,
            block,
            site,
        } => {
            let (field, block, site) = (*field, *block, *site);
            let x = cells(alloc, pointer, before, next, out)?;
            Ok(cell_value(x, CellLink { field, block, site }, out)?)
        }
        TypedExpression::Allocate { block, site } => Ok(allocate(*block, *site, next, out)?),
        TypedExpression::GetChar { site } => Ok(get_char(*site, next, out)?),
        TypedExpression::Call {
            proc,
            arguments: es,
            result: _,
            site,
        } => {
            let x = arguments(alloc, es, next, out)?;
            Ok(used_call(*proc, x, *site, out)?)
        }
        TypedExpression::Stop { word, site, parts } => {
            let (word, site) = (*word, *site);
            let next = effects(alloc, parts, next, out)?;
            put(out, Command::Stop { word, site })?;
            Err(Halt::Stopped { next })
        }
    }
}

/// The commands of expressions whose values aren't read.
#[cycle(lower)]
pub fn effects(
    alloc: Global,
    es: &[TypedExpression],
    next: u32,
    out: &mut Vec<Command>,
) -> Result<u32, Halt>
    ensures { Does (lowered_passed (expressions_of (map typed_expression es.now)) next) (map command_tree out.old.items) (map command_tree out.new.items) result }
{
    let mut behind = next;
    for part in es {
        behind = effect(alloc, part, behind, out)?;
    }
    Ok(behind)
}

/// The commands of an expression whose value isn't read.
#[cycle(lower)]
#[tactic(auto, using(px_core::proofs::CommandEquations::trees, px_syntax::proofs::TypedEquations::typed_trees))]
pub fn effect(
    alloc: Global,
    e: &TypedExpression,
    next: u32,
    out: &mut Vec<Command>,
) -> Result<u32, Halt>
    ensures { Does (lowered_passed (tree.an_expression (typed_expression e.now) tree.no_expressions) next) (map command_tree out.old.items) (map command_tree out.new.items) result }
{
    match e {
        TypedExpression::Local { .. } => Ok(next),
        TypedExpression::Cell {
            pointer,
            before,
            field,
            block,
            site,
        } => {
            let (field, block, site) = (*field, *block, *site);
            let x = cells(alloc, pointer, before, next, out)?;
            Ok(cell_reached(x, CellLink { field, block, site }, out)?)
        }
        TypedExpression::Call {
            proc,
            arguments: es,
            result: _,
            site,
        } => {
            let x = arguments(alloc, es, next, out)?;
            Ok(unused_call(*proc, x, *site, out)?)
        }
        _ => Ok(expression(alloc, e, next, out)?.next),
    }
}

// The operators of a chain from left to right, after the first operand, whatever tree gave that.
#[cycle(lower)]
fn calculations(
    alloc: Global,
    links: &[ArithmeticLink],
    left: Given,
    out: &mut Vec<Command>,
) -> Result<Given, Halt>
    ensures { (e : tree.Expression) (n : ℕ) (before : List CommandTree) → Gives (lowered_expression e n) before (map command_tree out.old.items) (Ok left) → Gives (lowered_expression (calculated e (map arithmetic_link links.now)) n) before (map command_tree out.new.items) result }
{
    let mut x = left;
    for link in links {
        let y = expression(alloc, &link.operand, x.next, out)?;
        x = calculate(link.operator, x.operand, y, out)?;
    }
    Ok(x)
}

// What is to the left of a `*` or `->`: a pointer, and the cells after it.
#[cycle(lower)]
fn cells(
    alloc: Global,
    pointer: &TypedExpression,
    links: &[CellLink],
    next: u32,
    out: &mut Vec<Command>,
) -> Result<Given, Halt>
    ensures { Gives (lowered_expression (views.cells (typed_expression pointer.now) links.now) next) (map command_tree out.old.items) (map command_tree out.new.items) result }
{
    let mut at = expression(alloc, pointer, next, out)?;
    for link in links {
        at = cell_value(at, *link, out)?;
    }
    Ok(at)
}

/// The commands of arguments, with the operands of those that are passed.
#[cycle(lower)]
#[tactic(auto, using(px_core::proofs::CommandEquations::trees))]
pub fn arguments(
    alloc: Global,
    es: &[Argument],
    next: u32,
    out: &mut Vec<Command>,
) -> Result<Operands, Halt>
    ensures { GivesAll (lowered_arguments (arguments_of (map typed_argument es.now)) next) (map command_tree out.old.items) (map command_tree out.new.items) result }
{
    let mut operands = Vec::with_capacity(alloc, es.len())?;
    let mut behind = next;
    for e in es {
        behind = argument(alloc, e, behind, &mut operands, out)?;
    }
    Ok(Operands {
        operands,
        next: behind,
    })
}

// The commands of an argument. Its operand, where it is passed, stands behind those that are there.
#[cycle(lower)]
#[tactic(auto, using(px_syntax::proofs::TypedEquations::typed_trees))]
fn argument(
    alloc: Global,
    e: &Argument,
    next: u32,
    operands: &mut Vec<Operand>,
    out: &mut Vec<Command>,
) -> Result<u32, Halt>
    ensures { GivesMore (lowered_arguments (tree.an_argument (typed_argument e.now) tree.no_arguments) next) (map command_tree out.old.items) (map command_tree out.new.items) operands.old.items operands.new.items result }
{
    match e {
        Argument::Passed { value } => {
            let x = expression(alloc, value, next, out)?;
            operands.push(x.operand)?;
            Ok(x.next)
        }
        Argument::Erased { parts } => effects(alloc, parts, next, out),
    }
}

/// The commands of a condition.
#[cycle(lower)]
#[tactic(auto, using(px_core::proofs::CommandEquations::trees, px_syntax::proofs::TypedEquations::typed_trees))]
pub fn condition(
    alloc: Global,
    c: &Condition,
    next: u32,
    out: &mut Vec<Command>,
) -> Result<Decided, Halt>
    ensures { Decides (lowered_condition (typed_condition c.now) next) (map command_tree out.old.items) (map command_tree out.new.items) result }
{
    match c {
        Condition::Compare {
            first,
            before,
            relation,
            right,
            site,
        } => {
            let x = expression(alloc, first, next, out)?;
            let left = comparisons(alloc, before, x, out)?;
            let y = expression(alloc, right, left.next, out)?;
            Ok(compare(*relation, left.operand, y, *site, out)?)
        }
        Condition::Word { operand, site } => {
            let x = expression(alloc, operand, next, out)?;
            let zero = Given::new(Operand::Word(0), x.next);
            Ok(compare(Relation::Unequal, x.operand, zero, *site, out)?)
        }
        Condition::Pointer { operand, site } => {
            let x = expression(alloc, operand, next, out)?;
            let null = Given::new(Operand::Null, x.next);
            Ok(compare(Relation::OtherPlace, x.operand, null, *site, out)?)
        }
        Condition::And {
            first,
            before,
            right,
        } => {
            let x = condition(alloc, first, next, out)?;
            let left = conjunction(alloc, before, x, out)?;
            Ok(and_then(alloc, right, left, out)?)
        }
        Condition::Or {
            first,
            before,
            right,
        } => {
            let x = condition(alloc, first, next, out)?;
            let left = disjunction(alloc, before, x, out)?;
            Ok(or_else(alloc, right, left, out)?)
        }
        Condition::Not { condition: c } => {
            let x = condition(alloc, c, next, out)?;
            Ok(opposite(x, out)?)
        }
    }
}

// The comparisons of a chain from left to right, each of the outcome of those before it, after the first operand,
// whatever tree gave that.
#[cycle(lower)]
fn comparisons(
    alloc: Global,
    links: &[RelationLink],
    left: Given,
    out: &mut Vec<Command>,
) -> Result<Given, Halt>
    ensures { (e : tree.Expression) (n : ℕ) (before : List CommandTree) → Gives (lowered_expression e n) before (map command_tree out.old.items) (Ok left) → Gives (lowered_expression (compared e (map relation_link links.now)) n) before (map command_tree out.new.items) result }
{
    let mut x = left;
    for link in links {
        let y = expression(alloc, &link.operand, x.next, out)?;
        let outcome = compare(link.relation, x.operand, y, link.site, out)?;
        x = outcome.as_given();
    }
    Ok(x)
}

// `&&` from left to right, after the first condition, whatever tree gave that.
#[cycle(lower)]
fn conjunction(
    alloc: Global,
    links: &[Condition],
    left: Decided,
    out: &mut Vec<Command>,
) -> Result<Decided, Halt>
    ensures { (c : tree.Condition) (n : ℕ) (before : List CommandTree) → Decides (lowered_condition c n) before (map command_tree out.old.items) (Ok left) → Decides (lowered_condition (all_of c (map typed_condition links.now)) n) before (map command_tree out.new.items) result }
{
    let mut x = left;
    for right in links {
        x = and_then(alloc, right, x, out)?;
    }
    Ok(x)
}

// `||` from left to right, after the first condition, whatever tree gave that.
#[cycle(lower)]
fn disjunction(
    alloc: Global,
    links: &[Condition],
    left: Decided,
    out: &mut Vec<Command>,
) -> Result<Decided, Halt>
    ensures { (c : tree.Condition) (n : ℕ) (before : List CommandTree) → Decides (lowered_condition c n) before (map command_tree out.old.items) (Ok left) → Decides (lowered_condition (any_of c (map typed_condition links.now)) n) before (map command_tree out.new.items) result }
{
    let mut x = left;
    for right in links {
        x = or_else(alloc, right, x, out)?;
    }
    Ok(x)
}

// `&&` after its left side: the outcome of that, and of the right side where it is 1.
#[cycle(lower)]
#[tactic(auto, using(px_core::proofs::CommandEquations::trees))]
fn and_then(
    alloc: Global,
    right: &Condition,
    left: Decided,
    out: &mut Vec<Command>,
) -> Result<Decided, NoMemory>
    ensures commands { OnOk result (map command_tree out.new.items ≡ map command_tree out.old.items ++ (and_rest left.slot left.next (copied left.next (lowered_condition (typed_condition right.now) (suc left.next)))).commands) }
    ensures slot { IfOk result (λ x. x.slot ≡ left.next) }
    ensures next { IfOk result (λ x. x.next ≡ (and_rest left.slot left.next (copied left.next (lowered_condition (typed_condition right.now) (suc left.next)))).next) }
{
    let slot = left.next;
    let copied = decide(out, copy_of(slot, Operand::Slot(left.slot)), slot)?;
    let mut then = Vec::new(alloc);
    let next = behind_list(outcome(alloc, right, slot, copied.next, &mut then))?;
    let other = Vec::new(alloc);
    put(out, Command::If { slot, then, other })?;
    Ok(Decided { slot, next })
}

// `||` after its left side: the outcome of that, and of the right side where it is 0.
#[cycle(lower)]
#[tactic(auto, using(px_core::proofs::CommandEquations::trees))]
fn or_else(
    alloc: Global,
    right: &Condition,
    left: Decided,
    out: &mut Vec<Command>,
) -> Result<Decided, NoMemory>
    ensures commands { OnOk result (map command_tree out.new.items ≡ map command_tree out.old.items ++ (or_rest left.slot left.next (copied left.next (lowered_condition (typed_condition right.now) (suc left.next)))).commands) }
    ensures slot { IfOk result (λ x. x.slot ≡ left.next) }
    ensures next { IfOk result (λ x. x.next ≡ (or_rest left.slot left.next (copied left.next (lowered_condition (typed_condition right.now) (suc left.next)))).next) }
{
    let slot = left.next;
    let copied = decide(out, copy_of(slot, Operand::Slot(left.slot)), slot)?;
    let mut other = Vec::new(alloc);
    let next = behind_list(outcome(alloc, right, slot, copied.next, &mut other))?;
    let then = Vec::new(alloc);
    put(out, Command::If { slot, then, other })?;
    Ok(Decided { slot, next })
}

// The outcome of a right side, which is copied to this slot.
#[cycle(lower)]
fn outcome(
    alloc: Global,
    right: &Condition,
    to: u32,
    next: u32,
    out: &mut Vec<Command>,
) -> Result<u32, Halt>
    ensures { Does (copied to (lowered_condition (typed_condition right.now) next)) (map command_tree out.old.items) (map command_tree out.new.items) result }
{
    let y = condition(alloc, right, next, out)?;
    put(out, copy_of(to, Operand::Slot(y.slot)))?;
    Ok(y.next)
}
