ghost use Rattle.std.specs.Prelude.{◌≡◌, ◌++◌, map, flat_map, option_map, OnOk};
ghost use Rattle.px_syntax.specs.ExpressionTree.{expression_tree, expressions_of};
ghost use Rattle.px_syntax.specs.StatementTree.{statement_tree, statements_of, declaration_tree, init_tree, simple_tree, first_tree};
ghost use Rattle.px_typing.specs.Mentions.{of_type, of_size, of_expression, of_expressions, of_declaration, of_declarators, of_simple, of_first, of_statement, of_statements, of_option};

use crate::mention::{Mentioned, Mentions};
use px_syntax::{
    Base, Declaration, Expression, FirstClause, InitDeclarator, Link, SimpleStatement, Statement,
    TypeName,
};
use px_terms::NoMemory;

// What a type names.
pub(crate) fn type_mentions<'a>(out: &mut Mentions<'a>, named: &'a TypeName) -> Result<(), NoMemory>
    ensures { OnOk result (out.new ≡ out.old ++ of_type named.entry.now) }
{
    out.push(Mentioned::Named(&named.base, named.stars))
}

// What a type after `sizeof` names.
fn size_mentions<'a>(out: &mut Mentions<'a>, named: &'a TypeName) -> Result<(), NoMemory>
    ensures { OnOk result (out.new ≡ out.old ++ of_size named.entry.now) }
{
    out.push(Mentioned::Sized(&named.base, named.stars))
}

#[cycle(expressions)]
#[tactic(auto, using(px_syntax::proofs::ExpressionEquations::trees))]
fn expression_mentions<'a>(
    expression: &'a Expression,
    out: &mut Mentions<'a>,
) -> Result<(), NoMemory>
    ensures { OnOk result (out.new ≡ out.old ++ of_expression (expression_tree expression.entry.now)) }
{
    match expression {
        Expression::Unary { operand, .. } => expression_mentions(operand, out),
        Expression::Binary {
            first,
            before,
            right,
            ..
        } => {
            expression_mentions(first, out)?;
            links_mentions(before, out)?;
            expression_mentions(right, out)
        }
        Expression::Member { pointer, .. } => expression_mentions(pointer, out),
        Expression::Call {
            function,
            arguments,
            ..
        } => {
            out.push(Mentioned::Calls(function))?;
            expressions_mentions(arguments, out)
        }
        Expression::Free { pointer, .. } => expression_mentions(pointer, out),
        Expression::Malloc { types, .. } => {
            if let Some(cast) = &types.cast {
                type_mentions(out, cast)?;
            }
            size_mentions(out, &types.size)
        }
        Expression::Constant { .. }
        | Expression::Null { .. }
        | Expression::Variable { .. }
        | Expression::GetChar { .. } => Ok(()),
    }
}

// What the operands after the first one of a chain name.
#[cycle(expressions)]
fn links_mentions<'a>(links: &'a [Link], out: &mut Mentions<'a>) -> Result<(), NoMemory>
    ensures { OnOk result (out.new ≡ out.old ++ flat_map (λ l. of_expression (expression_tree l.operand)) links.entry.now) }
{
    for link in links {
        expression_mentions(&link.operand, out)?;
    }
    Ok(())
}

#[cycle(expressions)]
fn expressions_mentions<'a>(
    expressions: &'a [Expression],
    out: &mut Mentions<'a>,
) -> Result<(), NoMemory>
    ensures { OnOk result (out.new ≡ out.old ++ of_expressions (expressions_of (map expression_tree expressions.entry.now))) }
{
    for expression in expressions {
        expression_mentions(expression, out)?;
    }
    Ok(())
}

// What a value names, if there is one.
fn value_mentions<'a>(value: &'a Option<Expression>, out: &mut Mentions<'a>) -> Result<(), NoMemory>
    ensures { OnOk result (out.new ≡ out.old ++ of_option of_expression (option_map expression_tree value.entry.now)) }
{
    match value {
        Some(value) => expression_mentions(value, out),
        None => Ok(()),
    }
}

// What the declarators of a base name.
fn declarators_mentions<'a>(
    base: &'a Base,
    declarators: &'a [InitDeclarator],
    out: &mut Mentions<'a>,
) -> Result<(), NoMemory>
    ensures { OnOk result (out.new ≡ out.old ++ of_declarators base.entry.now (map init_tree declarators.entry.now)) }
{
    for declared in declarators {
        out.push(Mentioned::Named(base, declared.declarator.stars))?;
        value_mentions(&declared.value, out)?;
    }
    Ok(())
}

// What a declaration names.
fn declaration_mentions<'a>(
    declaration: &'a Declaration,
    out: &mut Mentions<'a>,
) -> Result<(), NoMemory>
    ensures { OnOk result (out.new ≡ out.old ++ of_declaration (declaration_tree declaration.entry.now)) }
{
    declarators_mentions(&declaration.base, declaration.declarators.as_slice(), out)
}

// What a simple statement names.
fn simple_mentions<'a>(simple: &'a SimpleStatement, out: &mut Mentions<'a>) -> Result<(), NoMemory>
    ensures { OnOk result (out.new ≡ out.old ++ of_simple (simple_tree simple.entry.now)) }
{
    match simple {
        SimpleStatement::Assign { sides } | SimpleStatement::Update { sides, .. } => {
            expression_mentions(&sides.place, out)?;
            expression_mentions(&sides.value, out)
        }
        SimpleStatement::Increment { place } | SimpleStatement::Decrement { place } =>
            expression_mentions(place, out),
        SimpleStatement::Call { call } => expression_mentions(call, out),
    }
}

// What the head of a `for` names.
fn head_mentions<'a>(
    first: &'a Option<FirstClause>,
    condition: &'a Option<Expression>,
    step: &'a Option<SimpleStatement>,
    out: &mut Mentions<'a>,
) -> Result<(), NoMemory>
    ensures { OnOk result (out.new ≡ out.old ++ (of_option of_first (option_map first_tree first.entry.now) ++ (of_option of_expression (option_map expression_tree condition.entry.now) ++ of_option of_simple (option_map simple_tree step.entry.now)))) }
{
    match first {
        Some(FirstClause::Declaration(declaration)) => declaration_mentions(declaration, out)?,
        Some(FirstClause::Simple(simple)) => simple_mentions(simple, out)?,
        None => {}
    }
    value_mentions(condition, out)?;
    match step {
        Some(step) => simple_mentions(step, out),
        None => Ok(()),
    }
}

#[cycle(statements)]
#[tactic(auto, using(px_syntax::proofs::StatementEquations::trees))]
fn statement_mentions<'a>(statement: &'a Statement, out: &mut Mentions<'a>) -> Result<(), NoMemory>
    ensures { OnOk result (out.new ≡ out.old ++ of_statement (statement_tree statement.entry.now)) }
{
    match statement {
        Statement::Empty | Statement::Break | Statement::Continue => Ok(()),
        Statement::Block { statements } => statements_mentions(statements, out),
        Statement::Declare { declaration } => declaration_mentions(declaration, out),
        Statement::Simple { simple } => simple_mentions(simple, out),
        Statement::If { condition, then } => {
            expression_mentions(condition, out)?;
            statement_mentions(then, out)
        }
        Statement::IfElse {
            condition,
            then,
            other,
        } => {
            expression_mentions(condition, out)?;
            statement_mentions(then, out)?;
            statement_mentions(other, out)
        }
        Statement::While {
            condition,
            body,
            ..
        } => {
            expression_mentions(condition, out)?;
            statement_mentions(body, out)
        }
        Statement::For { head, body, .. } => {
            head_mentions(&head.first, &head.condition, &head.step, out)?;
            statement_mentions(body, out)
        }
        Statement::Return { value } => value_mentions(value, out),
    }
}

// What statements name.
#[cycle(statements)]
pub(crate) fn statements_mentions<'a>(
    statements: &'a [Statement],
    out: &mut Mentions<'a>,
) -> Result<(), NoMemory>
    ensures { OnOk result (out.new ≡ out.old ++ of_statements (statements_of (map statement_tree statements.entry.now))) }
{
    for statement in statements {
        statement_mentions(statement, out)?;
    }
    Ok(())
}
