ghost use Rattle.std.specs.Prelude.{◌≡◌, ◌++◌, ◌∷◌, [], List, map, OnOk, Some};
ghost use Rattle.px_syntax.specs.ExpressionTree.{ExpressionTree, expression_tree, expressions_of, link_tree, chained, members};
ghost use Rattle.px_syntax.specs.TypedTree.{passed};
ghost use Rattle.px_syntax.specs.TypedViews.{typed_expression, typed_argument, typed_condition};
ghost use Rattle.px_bodies.specs.Environment.{environment_of};
ghost use Rattle.px_bodies.specs.Lent.{type_of};
ghost use Rattle.px_bodies.specs.Locals.{Local};
ghost use Rattle.px_bodies.specs.Expressions as rules;
ghost use Rattle.px_bodies.specs.Operands.{operand_seen, wanted_of};
ghost use Rattle.px_bodies.specs.Outcomes.{Yields};

use crate::locals::Locals;
use crate::operand::Operand;
use crate::operators::{Sites, arrow, binary, constant, malloc, unary};
use crate::refusal::Refusal;
use crate::{CType, Environment};
use px_base::Site;
use px_syntax::{
    Argument, Arrow, Condition, Expression, Link, Name, Parameter, ResultType, TypedExpression,
};
use px_terms::NoMemory;
use std::alloc::Global;

// The token at which an expression stands.
#[tactic(auto, using(px_syntax::proofs::ExpressionEquations::trees))]
fn site_of(expression: &Expression) -> Site
    ensures { result ≡ rules.site_of (expression_tree expression.now) }
{
    match expression {
        Expression::Constant { site, .. }
        | Expression::Null { site }
        | Expression::Variable { site, .. }
        | Expression::Unary { site, .. }
        | Expression::Binary { site, .. }
        | Expression::Member { site, .. }
        | Expression::Call { site, .. }
        | Expression::Free { site, .. }
        | Expression::GetChar { site }
        | Expression::Malloc { site, .. } => *site,
    }
}

// The token at which a first operand stands with these links after it.
fn site_after(first: &Expression, links: &[Link]) -> Site
    ensures { result ≡ rules.site_of (chained (expression_tree first.now) (map link_tree links.now)) }
{
    match links.last() {
        Some(last) => last.site,
        None => site_of(first),
    }
}

// The value of the local that a name means.
fn variable<'a>(locals: &Locals<'a>, name: &Name, site: Site) -> Result<Operand<'a>, Refusal>
    ensures { Yields operand_seen result (rules.typed_variable locals.now.visible name.now site) }
{
    match locals.find(name) {
        Some(local) => Ok(Operand::OfType(
            local.value,
            TypedExpression::Local {
                local: local.number,
                site,
            },
        )),
        None => Err(Refusal::Rule),
    }
}

// The parameters of a name that may be called, where they are known.
pub fn parameters<'a>(
    environment: &Environment<'a>,
    locals: &Locals<'a>,
    name: &Name,
) -> Result<Option<&'a [Parameter]>, Refusal>
    ensures { Yields wanted_of result (rules.callable (environment_of environment.now) locals.now.visible name.now) }
{
    if locals.find(name).is_some() {
        return Err(Refusal::Rule);
    }
    match environment.signature(name) {
        Some(prototype) => Ok(Some(prototype.parameters)),
        None => Ok(None),
    }
}

// The type of a call, which isn't void.
fn call_type<'a>(environment: &Environment<'a>, name: &Name) -> Result<CType<'a>, Refusal>
    ensures { Yields type_of result (rules.call_type ((environment_of environment.now).signature name.now)) }
{
    match environment.signature(name) {
        None => Ok(CType::int()),
        Some(prototype) => match prototype.result {
            ResultType::Value(value) => Ok(CType::of(value)),
            ResultType::Void => Err(Refusal::Rule),
        },
    }
}

// The value of a call.
#[tactic(auto, using(px_syntax::proofs::TypedEquations::typed_trees))]
fn call<'a>(
    environment: &Environment<'a>,
    name: &Name,
    site: Site,
    arguments: Vec<Argument>,
) -> Result<Operand<'a>, Refusal>
    ensures { Yields operand_seen result (rules.typed_call (environment_of environment.now) name.now site (map typed_argument arguments.items)) }
{
    let value = call_type(environment, name)?;
    if !value.is_value() {
        return Err(Refusal::Rule);
    }
    let call = TypedExpression::Call {
        proc: environment.proc_id(name),
        arguments,
        result: environment.value_type(value),
        site,
    };
    Ok(Operand::OfType(value, call))
}

// A pointer with these arrows after it.
fn arrows<'a>(
    alloc: Global,
    environment: &Environment<'a>,
    path: &[Arrow],
    pointer: Operand<'a>,
) -> Result<Operand<'a>, Refusal>
    ensures { (visible : List Local) (e : ExpressionTree) → rules.typed (environment_of environment.now) visible e ≡ Some (operand_seen pointer.entry) →
        Yields operand_seen result (rules.typed (environment_of environment.now) visible (members e path.now)) }
{
    let mut pointer = pointer;
    for i in 0..path.len() {
        let next = &path[i];
        pointer = arrow(alloc, environment, &next.field, next.site, pointer)?;
    }
    Ok(pointer)
}

// An expression where these locals are visible.
#[cycle(operand)]
#[tactic(auto, using(px_syntax::proofs::ExpressionEquations::trees))]
pub fn operand<'a>(
    alloc: Global,
    environment: &Environment<'a>,
    locals: &Locals<'a>,
    expression: &'a Expression,
) -> Result<Operand<'a>, Refusal>
    ensures { Yields operand_seen result (rules.typed (environment_of environment.now) locals.now.visible (expression_tree expression.now)) }
{
    match expression {
        Expression::Constant { value, .. } => constant(*value),
        Expression::Null { .. } => Ok(Operand::Null),
        Expression::Variable { name, site } => variable(locals, name, *site),
        Expression::Unary {
            operator,
            site,
            operand: inner,
        } => {
            let at = site_of(inner);
            let inner = operand(alloc, environment, locals, inner)?;
            unary(alloc, environment, *operator, *site, at, inner)
        }
        Expression::Binary {
            first,
            before,
            operator,
            site,
            right,
        } => {
            let sites = Sites {
                operator: *site,
                left: site_after(first, before),
                right: site_of(right),
            };
            let left = operand(alloc, environment, locals, first)?;
            let left = links(alloc, environment, locals, before, site_of(first), left)?;
            let right = operand(alloc, environment, locals, right)?;
            binary(alloc, *operator, sites, left, right)
        }
        Expression::Member {
            site,
            pointer,
            before,
            field,
        } => {
            let pointer = operand(alloc, environment, locals, pointer)?;
            let pointer = arrows(alloc, environment, before, pointer)?;
            arrow(alloc, environment, field, *site, pointer)
        }
        Expression::Call {
            function,
            site,
            arguments: given,
        } => {
            let wanted = parameters(environment, locals, function)?;
            let given = arguments(alloc, environment, locals, given, wanted)?;
            call(environment, function, *site, given)
        }
        Expression::Free { .. } => Err(Refusal::Rule),
        Expression::GetChar { site } => Ok(Operand::OfType(
            CType::int(),
            TypedExpression::GetChar { site: *site },
        )),
        Expression::Malloc { site, types } => {
            malloc(environment, &types.cast, *site, &types.size)
        }
    }
}

// An operand at this token with these links after it.
#[cycle(operand)]
fn links<'a>(
    alloc: Global,
    environment: &Environment<'a>,
    locals: &Locals<'a>,
    links: &'a [Link],
    at: Site,
    first: Operand<'a>,
) -> Result<Operand<'a>, Refusal>
    ensures { (e : ExpressionTree) → rules.typed (environment_of environment.now) locals.now.visible e ≡ Some (operand_seen first.entry) → rules.site_of e ≡ at →
        Yields operand_seen result (rules.typed (environment_of environment.now) locals.now.visible (chained e (map link_tree links.now))) }
{
    let mut left = first;
    let mut at = at;
    for i in 0..links.len() {
        let link = &links[i];
        let sites = Sites {
            operator: link.site,
            left: at,
            right: site_of(&link.operand),
        };
        let right = operand(alloc, environment, locals, &link.operand)?;
        left = binary(alloc, link.operator, sites, left, right)?;
        at = link.site;
    }
    Ok(left)
}

// The arguments of a call, where these are the parameters, or none are known.
#[cycle(operand)]
pub fn arguments<'a>(
    alloc: Global,
    environment: &Environment<'a>,
    locals: &Locals<'a>,
    given: &'a [Expression],
    wanted: Option<&'a [Parameter]>,
) -> Result<Vec<Argument>, Refusal>
    ensures { Yields (λ xs. map typed_argument xs.items) result (rules.typed_arguments (environment_of environment.now) locals.now.visible (wanted_of wanted.entry) (expressions_of (map expression_tree given.now))) }
{
    let mut all = Vec::with_capacity(alloc, given.len())?;
    for i in 0..given.len() {
        let argument = operand(alloc, environment, locals, &given[i])?;
        put(&mut all, argument.as_argument(alloc, wanted, i)?)?;
    }
    match wanted {
        Some(parameters) if given.len() < parameters.len() => Err(Refusal::Rule),
        _ => Ok(all),
    }
}

// One more argument, which is passed.
fn put(all: &mut Vec<Argument>, value: TypedExpression) -> Result<(), NoMemory>
    ensures { OnOk result (map typed_argument all.new.items ≡ map typed_argument all.old.items ++ passed (typed_expression value) ∷ []) }
{
    all.push(Argument::Passed { value })?;
    Ok(())
}

// An expression as a value of a type, in a box.
pub fn value<'a>(
    alloc: Global,
    environment: &Environment<'a>,
    locals: &Locals<'a>,
    expression: &'a Expression,
    wanted: CType<'a>,
) -> Result<Box<TypedExpression>, Refusal>
    ensures { Yields (λ b. typed_expression b.value) result (rules.typed_as (environment_of environment.now) locals.now.visible (type_of wanted.entry) (expression_tree expression.now)) }
{
    let value = operand(alloc, environment, locals, expression)?.as_type(alloc, wanted)?;
    Ok(Box::new(alloc, value)?)
}

// An expression as a condition, in a box.
pub fn condition<'a>(
    alloc: Global,
    environment: &Environment<'a>,
    locals: &Locals<'a>,
    expression: &'a Expression,
) -> Result<Box<Condition>, Refusal>
    ensures { Yields (λ b. typed_condition b.value) result (rules.typed_condition (environment_of environment.now) locals.now.visible (expression_tree expression.now)) }
{
    let site = site_of(expression);
    let condition = operand(alloc, environment, locals, expression)?.as_condition(alloc, site)?;
    Ok(Box::new(alloc, condition)?)
}
