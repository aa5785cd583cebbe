ghost use Rattle.std.specs.Prelude.{◌≡◌, pos};
ghost use Rattle.px_syntax.specs.ExpressionTree.{expression_tree};
ghost use Rattle.px_syntax.specs.StatementTree.{simple_tree, a_call};
ghost use Rattle.px_syntax.specs.TypedTree as T;
ghost use Rattle.px_syntax.specs.TypedViews.{typed_statement, typed_expression};
ghost use Rattle.px_bodies.specs.Environment.{environment_of};
ghost use Rattle.px_bodies.specs.Statements as rules;
ghost use Rattle.px_bodies.specs.Operands.{place_seen};
ghost use Rattle.px_bodies.specs.Outcomes.{Yields};

use crate::expressions::{arguments, operand, parameters, value};
use crate::locals::Locals;
use crate::operand::TypedPlace;
use crate::refusal::Refusal;
use crate::{CType, Environment};
use px_syntax::{
    Arithmetic, BinaryOperator, Expression, SimpleStatement, TypedExpression, TypedStatement,
};
use std::alloc::Global;

// The operator of `+=`, `-=` or `*=`.
fn arithmetic_of(operator: BinaryOperator) -> Option<Arithmetic>
    ensures { result ≡ rules.arithmetic_of operator }
{
    match operator {
        BinaryOperator::Multiply => Some(Arithmetic::Multiply),
        BinaryOperator::Add => Some(Arithmetic::Add),
        BinaryOperator::Subtract => Some(Arithmetic::Subtract),
        _ => None,
    }
}

// What an assignment writes.
fn place<'a>(
    alloc: Global,
    environment: &Environment<'a>,
    locals: &Locals<'a>,
    expression: &'a Expression,
) -> Result<TypedPlace<'a>, Refusal>
    ensures { Yields place_seen result (rules.typed_place (environment_of environment.now) locals.now.visible (expression_tree expression.now)) }
{
    operand(alloc, environment, locals, expression)?.as_place(alloc)
}

// `place += value` and the like.
fn update<'a>(
    operator: Arithmetic,
    place: TypedPlace<'a>,
    value: Box<TypedExpression>,
) -> Result<TypedStatement, Refusal>
    ensures { Yields typed_statement result (rules.typed_update operator (place_seen place.entry) (typed_expression value.value)) }
{
    if !CType::int().is_same(place.value) {
        return Err(Refusal::Rule);
    }
    Ok(TypedStatement::Update {
        operator,
        place: place.place,
        value,
    })
}

// The same of 1.
fn update_by_one<'a>(
    alloc: Global,
    operator: Arithmetic,
    place: TypedPlace<'a>,
) -> Result<TypedStatement, Refusal>
    ensures { Yields typed_statement result (rules.typed_update operator (place_seen place.entry) (T.constant (pos 1))) }
{
    let one = Box::new(alloc, TypedExpression::Constant { value: 1 })?;
    update(operator, place, one)
}

// A call whose result isn't used.
#[tactic(auto, using(px_syntax::proofs::ExpressionEquations::trees))]
fn call<'a>(
    alloc: Global,
    environment: &Environment<'a>,
    locals: &Locals<'a>,
    call: &'a Expression,
) -> Result<TypedStatement, Refusal>
    ensures { Yields typed_statement result (rules.typed_simple (environment_of environment.now) locals.now.visible (a_call (expression_tree call.now))) }
{
    match call {
        Expression::Call {
            function,
            site,
            arguments: given,
        } => {
            let wanted = parameters(environment, locals, function)?;
            let arguments = arguments(alloc, environment, locals, given, wanted)?;
            Ok(TypedStatement::Call {
                proc: environment.proc_id(function),
                arguments,
                site: *site,
            })
        }
        Expression::Free { site, pointer } => {
            let freed = operand(alloc, environment, locals, pointer)?.as_freed()?;
            Ok(TypedStatement::Free {
                pointer: Box::new(alloc, freed.pointer)?,
                block: environment.type_id(freed.block),
                site: *site,
            })
        }
        Expression::GetChar { site } => Ok(TypedStatement::GetChar { site: *site }),
        _ => Err(Refusal::Rule),
    }
}

// What stands alone before a `;` and changes something.
pub fn simple<'a>(
    alloc: Global,
    environment: &Environment<'a>,
    locals: &Locals<'a>,
    statement: &'a SimpleStatement,
) -> Result<TypedStatement, Refusal>
    ensures { Yields typed_statement result (rules.typed_simple (environment_of environment.now) locals.now.visible (simple_tree statement.now)) }
{
    match statement {
        SimpleStatement::Assign { sides } => {
            let left = place(alloc, environment, locals, &sides.place)?;
            let value = value(alloc, environment, locals, &sides.value, left.value)?;
            Ok(TypedStatement::Assign {
                place: left.place,
                value,
            })
        }
        SimpleStatement::Update { operator, sides } => {
            let Some(operator) = arithmetic_of(*operator) else {
                return Err(Refusal::Rule);
            };
            let left = place(alloc, environment, locals, &sides.place)?;
            let right = value(alloc, environment, locals, &sides.value, CType::int())?;
            update(operator, left, right)
        }
        SimpleStatement::Increment { place: left } => {
            let left = place(alloc, environment, locals, left)?;
            update_by_one(alloc, Arithmetic::Add, left)
        }
        SimpleStatement::Decrement { place: left } => {
            let left = place(alloc, environment, locals, left)?;
            update_by_one(alloc, Arithmetic::Subtract, left)
        }
        SimpleStatement::Call { call: called } => call(alloc, environment, locals, called),
    }
}
