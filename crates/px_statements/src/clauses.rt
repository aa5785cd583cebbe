ghost use Rattle.std.specs.Prelude.{◌≡◌, option_map};
ghost use Rattle.px_syntax.specs.ExpressionTree.{expression_tree};
ghost use Rattle.px_syntax.specs.StatementTree.{simple_tree, first_tree};
ghost use Rattle.px_expressions.specs.declared.terminal.Terminal.TheVariants.{Semicolon, CloseParenthesis};
ghost use Rattle.px_expressions.specs.Lexemes.{seen};
ghost use Rattle.px_expressions.specs.Reading.{Gives, expression_at};
ghost use Rattle.px_statements.specs.SimpleReading.{condition_at, optional_at, first_at, simple_at};

use crate::declarations::declaration;
use crate::simple_statements::simple;
use px_expressions::{Fault, Input, Terminal, begins_type, expression, front};
use px_syntax::{Expression, FirstClause, SimpleStatement};
use std::alloc::Global;

/// A condition in parentheses, in a box.
#[tactic(auto, unfolding(crate::specs::SimpleReading::condition_at))]
pub fn condition<'a>(
    alloc: Global,
    depth: u32,
    input: Input<'a>,
) -> Result<(Box<Expression>, Input<'a>), Fault>
    ensures { Gives (λ x. (expression_tree x.0.value, seen x.1)) result (condition_at depth (seen input.entry)) }
{
    let Some((_, rest)) = front(Terminal::OpenParenthesis, input) else {
        return Err(Fault::NoParse);
    };
    let (inside, rest) = expression(alloc, depth, rest)?;
    match front(Terminal::CloseParenthesis, rest) {
        Some((_, rest)) => Ok((Box::new(alloc, inside)?, rest)),
        None => Err(Fault::NoParse),
    }
}

/// An expression that may be missing, up to a semicolon.
#[tactic(auto, unfolding(crate::specs::SimpleReading::optional_at))]
pub fn value<'a>(
    alloc: Global,
    depth: u32,
    input: Input<'a>,
) -> Result<(Option<Expression>, Input<'a>), Fault>
    ensures { Gives (λ x. (option_map expression_tree x.0, seen x.1)) result (optional_at Semicolon (expression_at depth) (seen input.entry)) }
{
    if let Some((_, rest)) = front(Terminal::Semicolon, input) {
        return Ok((None, rest));
    }
    let (value, rest) = expression(alloc, depth, input)?;
    match front(Terminal::Semicolon, rest) {
        Some((_, rest)) => Ok((Some(value), rest)),
        None => Err(Fault::NoParse),
    }
}

// What a `for` begins with.
#[tactic(auto, unfolding(crate::specs::SimpleReading::first_at))]
fn first<'a>(alloc: Global, depth: u32, input: Input<'a>) -> Result<(FirstClause, Input<'a>), Fault>
    ensures { Gives (λ x. (first_tree x.0, seen x.1)) result (first_at depth (seen input.entry)) }
{
    if begins_type(input) {
        let (declaration, rest) = declaration(alloc, depth, input)?;
        return Ok((FirstClause::Declaration(declaration), rest));
    }
    let (simple, rest) = simple(alloc, depth, input)?;
    Ok((FirstClause::Simple(simple), rest))
}

/// What a `for` begins with, which may be missing, up to its semicolon.
#[tactic(auto, unfolding(crate::specs::SimpleReading::optional_at))]
pub fn first_clause<'a>(
    alloc: Global,
    depth: u32,
    input: Input<'a>,
) -> Result<(Option<FirstClause>, Input<'a>), Fault>
    ensures { Gives (λ x. (option_map first_tree x.0, seen x.1)) result (optional_at Semicolon (first_at depth) (seen input.entry)) }
{
    if let Some((_, rest)) = front(Terminal::Semicolon, input) {
        return Ok((None, rest));
    }
    let (clause, rest) = first(alloc, depth, input)?;
    match front(Terminal::Semicolon, rest) {
        Some((_, rest)) => Ok((Some(clause), rest)),
        None => Err(Fault::NoParse),
    }
}

/// The step of a `for`, which may be missing, up to the closing parenthesis.
#[tactic(auto, unfolding(crate::specs::SimpleReading::optional_at))]
pub fn step<'a>(
    alloc: Global,
    depth: u32,
    input: Input<'a>,
) -> Result<(Option<SimpleStatement>, Input<'a>), Fault>
    ensures { Gives (λ x. (option_map simple_tree x.0, seen x.1)) result (optional_at CloseParenthesis (simple_at depth) (seen input.entry)) }
{
    if let Some((_, rest)) = front(Terminal::CloseParenthesis, input) {
        return Ok((None, rest));
    }
    let (step, rest) = simple(alloc, depth, input)?;
    match front(Terminal::CloseParenthesis, rest) {
        Some((_, rest)) => Ok((Some(step), rest)),
        None => Err(Fault::NoParse),
    }
}
