ghost use Rattle.std.specs.Prelude.{◌≡◌, ◌++◌, ◌∷◌, [], map, codes, IfOk, OnOk};
ghost use Rattle.px_syntax.specs.TypedTree as T;
ghost use Rattle.px_syntax.specs.TypedViews.{typed_expression, typed_statement};
ghost use Rattle.px_real_expressions.specs.ExpressionTree.{ExpressionTree, expressions_of};
ghost use Rattle.px_real_reading.specs.Trees.{expression_tree, suffix_tree, suffixed};
ghost use Rattle.px_real_values.specs.Operands.{stop, parts};
ghost use Rattle.px_real_values.specs.Calls.{all_parts};
ghost use Rattle.px_real_values.specs.Values.{valued, given};
ghost use Rattle.px_real_values.specs.Views.{operand_seen};
ghost use Rattle.px_real_effects.specs.Effects as Rules;

use crate::assignments::{put_assigned, put_assigned_with, put_stepped};
use crate::statements::{put, put_all_evaluated};
use px_base::Site;
use px_real_expressions::{Operator, Prefix, Step};
use px_real_reading::{Expression, Suffix};
use px_real_values::{
    Callee, Environment, Library, Operand, evaluate, first_site, no_call, suffix, suffixes, type_id,
};
use px_syntax::{TypedExpression, TypedStatement};
use px_terms::NoMemory;
use std::alloc::Global;

// The place of the name `free`, where that is what is called.
fn free_at<'a>(function: &Operand<'a>) -> Option<Site>
    ensures { result ≡ Rules.free_at (operand_seen function.now) }
{
    match function {
        Operand::Named {
            callee: Callee::Library(Library::Free),
            site,
            ..
        } => Some(*site),
        _ => None,
    }
}

// What is evaluated of a call, as a statement.
#[tactic(auto, using(px_syntax::proofs::TypedEquations::typed_trees))]
fn ran(alloc: Global, value: TypedExpression) -> Result<TypedStatement, NoMemory>
    ensures { IfOk result (λ s. typed_statement s ≡ Rules.ran (typed_expression value)) }
{
    match value {
        TypedExpression::Call {
            proc,
            arguments,
            site,
            ..
        } => Ok(TypedStatement::Call {
            proc,
            arguments,
            site,
        }),
        TypedExpression::GetChar { site } => Ok(TypedStatement::GetChar { site }),
        other => Ok(TypedStatement::Evaluate {
            value: Box::new(alloc, other)?,
        }),
    }
}

// What is evaluated of a call, as statements.
fn put_ran(
    alloc: Global,
    values: Vec<TypedExpression>,
    into: &mut Vec<TypedStatement>,
) -> Result<(), NoMemory>
    ensures { OnOk result (map typed_statement into.new.items ≡ map typed_statement into.old.items ++ map Rules.ran (map typed_expression values.items)) }
{
    for value in values {
        let statement = ran(alloc, value)?;
        put(into, statement)?;
    }
    Ok(())
}

// `free` of another number of arguments than one.
fn put_no_free<E: Environment>(
    alloc: Global,
    environment: &E,
    at: Site,
    arguments: &[Expression],
    into: &mut Vec<TypedStatement>,
) -> Result<(), NoMemory>
    ensures { OnOk result (map typed_statement into.new.items ≡ map typed_statement into.old.items ++ T.evaluate (stop (all_parts (E.sees environment.now) (given (E.sees environment.now) (expressions_of (map (expression_tree (E.tokens environment.now)) arguments.now)))) ((E.sees environment.now).word_number (codes "call")) at) ∷ []) }
{
    let text = b"call".as_slice();
    let stopped = no_call(alloc, environment, text, at, arguments, Vec::new(alloc))?;
    let parts = stopped.parts(alloc, environment)?;
    put_all_evaluated(alloc, parts, into)
}

// `free`, at its name.
fn put_freeing<E: Environment>(
    alloc: Global,
    environment: &E,
    at: Site,
    arguments: &[Expression],
    into: &mut Vec<TypedStatement>,
) -> Result<(), NoMemory>
    ensures { OnOk result (map typed_statement into.new.items ≡ map typed_statement into.old.items ++ Rules.freeing (E.sees environment.now) at (given (E.sees environment.now) (expressions_of (map (expression_tree (E.tokens environment.now)) arguments.now)))) }
{
    if arguments.len() != 1 {
        return put_no_free(alloc, environment, at, arguments, into);
    }
    let argument = &arguments[0];
    let value = evaluate(alloc, environment, argument)?;
    let (block, pointer) = value.freed(alloc, environment, first_site(argument))?;
    let pointer = Box::new(alloc, pointer)?;
    let block = type_id(environment, block);
    put(
        into,
        TypedStatement::Free {
            pointer,
            block,
            site: at,
        },
    )
}

// An expression for its effects, from its operand.
fn put_parts<'a, E: Environment>(
    alloc: Global,
    environment: &E,
    operand: Operand<'a>,
    into: &mut Vec<TypedStatement>,
) -> Result<(), NoMemory>
    ensures { OnOk result (map typed_statement into.new.items ≡ map typed_statement into.old.items ++ Rules.evaluated (parts (E.sees environment.now) (operand_seen operand.entry))) }
{
    let parts = operand.parts(alloc, environment)?;
    put_all_evaluated(alloc, parts, into)
}

// A call of this function.
fn put_call<'a, E: Environment>(
    alloc: Global,
    environment: &'a E,
    arguments: &[Expression],
    call: &Suffix,
    function: Operand<'a>,
    into: &mut Vec<TypedStatement>,
) -> Result<(), NoMemory>
    ensures { (e : ExpressionTree) → operand_seen function.entry ≡ valued (E.sees environment.entry.now) e →
        OnOk result (map typed_statement into.new.items ≡ map typed_statement into.old.items ++ Rules.called_by (E.sees environment.entry.now) (Rules.free_at (operand_seen function.entry)) (given (E.sees environment.entry.now) (expressions_of (map (expression_tree (E.tokens environment.entry.now)) arguments.now))) (valued (E.sees environment.entry.now) (suffixed e (suffix_tree (E.tokens environment.entry.now) call.now)))) }
{
    match free_at(&function) {
        Some(at) => put_freeing(alloc, environment, at, arguments, into),
        None => {
            let value = suffix(alloc, environment, call, function)?;
            let parts = value.parts(alloc, environment)?;
            put_ran(alloc, parts, into)
        }
    }
}

// What stands last behind an operand, as a statement.
#[tactic(auto, using(px_real_reading::proofs::TreeEquations::trees))]
fn put_suffixed<'a, E: Environment>(
    alloc: Global,
    environment: &'a E,
    last: &Suffix,
    left: Operand<'a>,
    into: &mut Vec<TypedStatement>,
) -> Result<(), NoMemory>
    ensures { (e : ExpressionTree) → operand_seen left.entry ≡ valued (E.sees environment.entry.now) e →
        OnOk result (map typed_statement into.new.items ≡ map typed_statement into.old.items ++ Rules.performed (E.sees environment.entry.now) (suffixed e (suffix_tree (E.tokens environment.entry.now) last.now))) }
{
    match last {
        Suffix::Step { step, site } => put_stepped(alloc, environment, *step, *site, left, into),
        Suffix::Call { arguments, .. } => {
            put_call(alloc, environment, arguments, last, left, into)
        }
        _ => {
            let value = suffix(alloc, environment, last, left)?;
            put_parts(alloc, environment, value, into)
        }
    }
}

// An assignment with its operator.
fn put_assignment<E: Environment>(
    alloc: Global,
    environment: &E,
    operator: Option<Operator>,
    site: Site,
    left: &Expression,
    right: &Expression,
    into: &mut Vec<TypedStatement>,
) -> Result<(), NoMemory>
    ensures { OnOk result (map typed_statement into.new.items ≡ map typed_statement into.old.items ++ Rules.assigned_by (E.sees environment.now) operator site (valued (E.sees environment.now) (expression_tree (E.tokens environment.now) left.now)) (Rules.argument_of (E.sees environment.now) (expression_tree (E.tokens environment.now) right.now))) }
{
    let place = evaluate(alloc, environment, left)?;
    let value = evaluate(alloc, environment, right)?;
    let first = first_site(right);
    match operator {
        None => put_assigned(alloc, environment, site, place, first, value, into),
        Some(operator) => put_assigned_with(
            alloc,
            environment,
            operator,
            site,
            place,
            first,
            value,
            into,
        ),
    }
}

// `++` or `--` before an expression.
fn put_step<E: Environment>(
    alloc: Global,
    environment: &E,
    step: Step,
    site: Site,
    operand: &Expression,
    into: &mut Vec<TypedStatement>,
) -> Result<(), NoMemory>
    ensures { OnOk result (map typed_statement into.new.items ≡ map typed_statement into.old.items ++ Rules.stepped (E.sees environment.now) step site (valued (E.sees environment.now) (expression_tree (E.tokens environment.now) operand.now))) }
{
    let operand = evaluate(alloc, environment, operand)?;
    put_stepped(alloc, environment, step, site, operand, into)
}

// An expression for its effects.
fn put_value<E: Environment>(
    alloc: Global,
    environment: &E,
    expression: &Expression,
    into: &mut Vec<TypedStatement>,
) -> Result<(), NoMemory>
    ensures { OnOk result (map typed_statement into.new.items ≡ map typed_statement into.old.items ++ Rules.evaluated (parts (E.sees environment.now) (valued (E.sees environment.now) (expression_tree (E.tokens environment.now) expression.now)))) }
{
    let value = evaluate(alloc, environment, expression)?;
    put_parts(alloc, environment, value, into)
}

/// What an expression does as a statement.
#[cycle(perform)]
#[tactic(auto, using(px_real_reading::proofs::TreeEquations::trees))]
pub fn perform<E: Environment>(
    alloc: Global,
    environment: &E,
    expression: &Expression,
    into: &mut Vec<TypedStatement>,
) -> Result<(), NoMemory>
    ensures { OnOk result (map typed_statement into.new.items ≡ map typed_statement into.old.items ++ Rules.performed (E.sees environment.now) (expression_tree (E.tokens environment.now) expression.now)) }
{
    match expression {
        Expression::Parenthesised { inner, .. } => perform(alloc, environment, inner, into),
        Expression::Prefixed {
            operator: Prefix::Extension,
            operand,
            ..
        } => perform(alloc, environment, operand, into),
        Expression::Prefixed {
            operator: Prefix::Increment,
            site,
            operand,
        } => put_step(alloc, environment, Step::Increment, *site, operand, into),
        Expression::Prefixed {
            operator: Prefix::Decrement,
            site,
            operand,
        } => put_step(alloc, environment, Step::Decrement, *site, operand, into),
        Expression::Postfix {
            first,
            before,
            last,
        } => {
            let start = evaluate(alloc, environment, first)?;
            let left = suffixes(alloc, environment, before, start)?;
            put_suffixed(alloc, environment, last, left, into)
        }
        Expression::Assign {
            operator,
            site,
            left,
            right,
        } => put_assignment(alloc, environment, *operator, *site, left, right, into),
        _ => put_value(alloc, environment, expression, into),
    }
}
