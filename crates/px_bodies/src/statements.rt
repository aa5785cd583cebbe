ghost use Rattle.std.specs.Prelude.{◌≡◌, ◌++◌, ◌∷◌, [], true, length, map, option_map, Some};
ghost use Rattle.px_syntax.specs.ExpressionTree.{expression_tree};
ghost use Rattle.px_syntax.specs.StatementTree.{first_tree, simple_tree, statement_tree, statements_of};
ghost use Rattle.px_syntax.specs.TypedTree as T;
ghost use Rattle.px_syntax.specs.TypedViews.{typed_statement, typed_condition};
ghost use Rattle.px_bodies.specs.Types.{when};
ghost use Rattle.px_bodies.specs.Environment.{environment_of};
ghost use Rattle.px_bodies.specs.Heads.{head_seen};
ghost use Rattle.px_bodies.specs.Lent.{type_of};
ghost use Rattle.px_bodies.specs.Statements as rules;
ghost use Rattle.px_bodies.specs.Outcomes.{Yields};

use crate::declarations::{declaration, put};
use crate::expressions::{condition, value};
use crate::locals::Locals;
use crate::refusal::Refusal;
use crate::simple::simple;
use crate::{CType, Environment};
use px_base::Site;
use px_syntax::{Condition, Expression, FirstClause, SimpleStatement, Statement, TypedStatement};
use std::alloc::Global;

// No statement.
#[tactic(auto, using(px_syntax::proofs::TypedEquations::typed_trees))]
fn nothing(alloc: Global) -> TypedStatement
    ensures { typed_statement result ≡ rules.nothing }
{
    TypedStatement::Block {
        statements: Vec::new(alloc),
    }
}

// What a `for` begins with.
fn first<'a>(
    alloc: Global,
    environment: &Environment<'a>,
    locals: &mut Locals<'a>,
    outer: usize,
    clause: &'a Option<FirstClause>,
) -> Result<Vec<TypedStatement>, Refusal>
    ensures { Yields (λ ss. record { trees = map typed_statement ss.items; after = locals.new }) result (rules.typed_first (environment_of environment.now) outer locals.old (option_map first_tree clause.now)) }
{
    match clause {
        None => Ok(Vec::new(alloc)),
        Some(FirstClause::Declaration(declared)) => {
            declaration(alloc, environment, locals, outer, declared)
        }
        Some(FirstClause::Simple(statement)) => {
            let mut all = Vec::new(alloc);
            put(&mut all, simple(alloc, environment, locals, statement)?)?;
            Ok(all)
        }
    }
}

// The condition of a `for`.
fn test<'a>(
    alloc: Global,
    environment: &Environment<'a>,
    locals: &Locals<'a>,
    expression: &'a Option<Expression>,
) -> Result<Option<Box<Condition>>, Refusal>
    ensures { Yields (option_map (λ b. typed_condition b.value)) result (rules.typed_test (environment_of environment.now) locals.now.visible (option_map expression_tree expression.now)) }
{
    match expression {
        Some(expression) => Ok(Some(condition(alloc, environment, locals, expression)?)),
        None => Ok(None),
    }
}

// The step of a `for`.
fn step<'a>(
    alloc: Global,
    environment: &Environment<'a>,
    locals: &Locals<'a>,
    statement: &'a Option<SimpleStatement>,
) -> Result<TypedStatement, Refusal>
    ensures { Yields typed_statement result (rules.typed_step (environment_of environment.now) locals.now.visible (option_map simple_tree statement.now)) }
{
    match statement {
        Some(statement) => simple(alloc, environment, locals, statement),
        None => Ok(nothing(alloc)),
    }
}

// `return`, with or without a value.
fn returned<'a>(
    alloc: Global,
    environment: &Environment<'a>,
    returns: Option<CType<'a>>,
    locals: &Locals<'a>,
    expression: &'a Option<Expression>,
) -> Result<TypedStatement, Refusal>
    ensures { Yields typed_statement result (rules.typed_return (environment_of environment.now) (option_map type_of returns.entry) locals.now.visible (option_map expression_tree expression.now)) }
{
    match (expression, returns) {
        (None, None) => Ok(TypedStatement::Return { value: None }),
        (Some(expression), Some(wanted)) => {
            let value = value(alloc, environment, locals, expression, wanted)?;
            Ok(TypedStatement::Return { value: Some(value) })
        }
        _ => Err(Refusal::Rule),
    }
}

// `break` or `continue`.
fn jump(in_loop: bool, jump: TypedStatement) -> Result<TypedStatement, Refusal>
    ensures { Yields typed_statement result (when in_loop (typed_statement jump)) }
{
    if in_loop {
        Ok(jump)
    } else {
        Err(Refusal::Rule)
    }
}

// No statement, in a box.
fn no_part(alloc: Global) -> Result<Box<TypedStatement>, Refusal>
    ensures { Yields (λ s. typed_statement s.value) result (Some rules.nothing) }
{
    Ok(Box::new(alloc, nothing(alloc))?)
}

// What stands between the parentheses of a `for`.
#[derive(Drop)]
pub struct Head {
    first: Vec<TypedStatement>,
    test: Option<Box<Condition>>,
    step: Box<TypedStatement>,
}

fn head_of<'a>(
    alloc: Global,
    environment: &Environment<'a>,
    locals: &mut Locals<'a>,
    clause: &'a Option<FirstClause>,
    expression: &'a Option<Expression>,
    statement: &'a Option<SimpleStatement>,
) -> Result<Head, Refusal>
    ensures { Yields (λ h. head_seen h locals.new) result (rules.typed_head (environment_of environment.now) locals.old (option_map first_tree clause.now) (option_map expression_tree expression.now) (option_map simple_tree statement.now)) }
{
    let outer = locals.height();
    let first = first(alloc, environment, locals, outer, clause)?;
    let test = test(alloc, environment, locals, expression)?;
    let step = step(alloc, environment, locals, statement)?;
    Ok(Head {
        first,
        test,
        step: Box::new(alloc, step)?,
    })
}

// A `for` of these parts.
#[tactic(auto, using(px_syntax::proofs::TypedEquations::typed_trees))]
fn for_loop(site: Site, head: Head, body: Box<TypedStatement>) -> Result<TypedStatement, Refusal>
    ensures { Yields typed_statement result (Some (T.block (T.statements_of (map typed_statement head.first.items ++ T.loop site (option_map (λ b. typed_condition b.value) head.test) (typed_statement body.value) (typed_statement head.step.value) ∷ [])))) }
{
    let Head { first, test, step } = head;
    let mut statements = first;
    let turns = TypedStatement::Loop {
        site,
        condition: test,
        body,
        step,
    };
    put(&mut statements, turns)?;
    Ok(TypedStatement::Block { statements })
}

// What a statement's place says: what its function returns, whether it stands in a loop, and where its scope
// begins among the locals.
#[derive(Clone, Copy)]
pub struct Position<'a> {
    pub returns: Option<CType<'a>>,
    pub in_loop: bool,
    pub outer: usize,
}

// A statement, where these locals are visible.
#[cycle(statement)]
#[tactic(auto, using(px_syntax::proofs::StatementEquations::trees, px_syntax::proofs::TypedEquations::typed_trees))]
pub fn statement<'a>(
    alloc: Global,
    environment: &Environment<'a>,
    position: Position<'a>,
    statement: &'a Statement,
    locals: &mut Locals<'a>,
) -> Result<TypedStatement, Refusal>
    ensures { Yields (λ s. record { tree = typed_statement s; after = locals.new }) result (rules.typed_statement (environment_of environment.now) (option_map type_of position.entry.returns) position.entry.in_loop position.entry.outer locals.old (statement_tree statement.now)) }
{
    match statement {
        Statement::Empty => Ok(nothing(alloc)),
        Statement::Block { statements: inner } => {
            let outer = locals.height();
            let position = Position { outer, ..position };
            let statements = statements(alloc, environment, position, inner, locals)?;
            locals.leave(outer)?;
            Ok(TypedStatement::Block { statements })
        }
        Statement::Declare {
            declaration: declared,
        } => {
            let statements = declaration(alloc, environment, locals, position.outer, declared)?;
            Ok(TypedStatement::Block { statements })
        }
        Statement::Simple { simple: inner } => simple(alloc, environment, locals, inner),
        Statement::If { condition: e, then } => {
            let condition = condition(alloc, environment, locals, e)?;
            let then = scope(alloc, environment, position, then, locals)?;
            let other = no_part(alloc)?;
            Ok(TypedStatement::If {
                condition,
                then,
                other,
            })
        }
        Statement::IfElse {
            condition: e,
            then,
            other,
        } => {
            let condition = condition(alloc, environment, locals, e)?;
            let then = scope(alloc, environment, position, then, locals)?;
            let other = scope(alloc, environment, position, other, locals)?;
            Ok(TypedStatement::If {
                condition,
                then,
                other,
            })
        }
        Statement::While {
            site,
            condition: e,
            body,
        } => {
            let condition = condition(alloc, environment, locals, e)?;
            let body = turns(alloc, environment, position, body, locals)?;
            let step = no_part(alloc)?;
            Ok(TypedStatement::Loop {
                site: *site,
                condition: Some(condition),
                body,
                step,
            })
        }
        Statement::For { site, head, body } => {
            let outer = locals.height();
            let head = head_of(
                alloc,
                environment,
                locals,
                &head.first,
                &head.condition,
                &head.step,
            )?;
            let body = turns(alloc, environment, position, body, locals)?;
            locals.leave(outer)?;
            for_loop(*site, head, body)
        }
        Statement::Break => jump(position.in_loop, TypedStatement::Break),
        Statement::Continue => jump(position.in_loop, TypedStatement::Continue),
        Statement::Return { value } => {
            returned(alloc, environment, position.returns, locals, value)
        }
    }
}

// A statement that is a scope of its own, as each part of another is.
#[cycle(statement)]
fn scope<'a>(
    alloc: Global,
    environment: &Environment<'a>,
    position: Position<'a>,
    part: &'a Statement,
    locals: &mut Locals<'a>,
) -> Result<Box<TypedStatement>, Refusal>
    ensures { Yields (λ s. record { tree = typed_statement s.value; after = locals.new }) result (rules.in_scope (length locals.old.visible) (rules.typed_statement (environment_of environment.now) (option_map type_of position.entry.returns) position.entry.in_loop (length locals.old.visible) locals.old (statement_tree part.now))) }
{
    let outer = locals.height();
    let position = Position { outer, ..position };
    let part = statement(alloc, environment, position, part, locals)?;
    let part = Box::new(alloc, part)?;
    locals.leave(outer)?;
    Ok(part)
}

// The body of a loop.
#[cycle(statement)]
fn turns<'a>(
    alloc: Global,
    environment: &Environment<'a>,
    position: Position<'a>,
    body: &'a Statement,
    locals: &mut Locals<'a>,
) -> Result<Box<TypedStatement>, Refusal>
    ensures { Yields (λ s. record { tree = typed_statement s.value; after = locals.new }) result (rules.in_scope (length locals.old.visible) (rules.typed_statement (environment_of environment.now) (option_map type_of position.entry.returns) true (length locals.old.visible) locals.old (statement_tree body.now))) }
{
    let position = Position {
        in_loop: true,
        ..position
    };
    scope(alloc, environment, position, body, locals)
}

// Statements in order.
#[cycle(statement)]
pub fn statements<'a>(
    alloc: Global,
    environment: &Environment<'a>,
    position: Position<'a>,
    all: &'a [Statement],
    locals: &mut Locals<'a>,
) -> Result<Vec<TypedStatement>, Refusal>
    ensures { Yields (λ ss. record { trees = map typed_statement ss.items; after = locals.new }) result (rules.typed_statements (environment_of environment.now) (option_map type_of position.entry.returns) position.entry.in_loop position.entry.outer locals.old (statements_of (map statement_tree all.now))) }
{
    let mut typed = Vec::with_capacity(alloc, all.len())?;
    for i in 0..all.len() {
        let next = statement(alloc, environment, position, &all[i], locals)?;
        put(&mut typed, next)?;
    }
    Ok(typed)
}
