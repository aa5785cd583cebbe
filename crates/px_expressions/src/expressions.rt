ghost use Rattle.std.specs.Prelude.{◌≡◌, ◌<◌, ◌-◌, map};
ghost use Rattle.px_syntax.specs.ExpressionTree.{expression_tree};
ghost use Rattle.px_expressions.specs.Lexemes.{see, seen};
ghost use Rattle.px_expressions.specs.Reading.{Gives, chain_limit, name_at, more_at, members_at, separated_at, arguments_at, closed_at, constant_at, named_at, free_at, get_char_at, malloc_at, cast_at, parenthesised_at, primary_of, postfix_of, unary_at, levels_at, expression_at};

use crate::constants::constant_value;
use crate::fault::Fault;
use crate::fronts::front;
use crate::operators::{operator, prefix};
use crate::symbol::{Input, Symbol, name, text};
use crate::terminal::Terminal;
use crate::types::{begins_type, type_name};
use px_syntax::{Expression, MallocTypes, Name, TypeName};
use std::alloc::Global;

// How many operators or arrows one chain has at most.
const CHAIN_LIMIT: u32 = 200;

/// The expression at the front, where `depth` more may be opened, and the symbols after it.
#[tactic(auto, unfolding(crate::specs::Reading::expression_at))]
pub fn expression<'a>(
    alloc: Global,
    depth: u32,
    input: Input<'a>,
) -> Result<(Expression, Input<'a>), Fault>
    ensures { Gives (λ x. (expression_tree x.0, seen x.1)) result (expression_at depth (seen input.entry)) }
{
    levels(alloc, 6, depth, input)
}

// Operands with the operators of the levels up to this one.
#[cycle(expression)]
#[tactic(auto, unfolding(crate::specs::Reading::levels_at))]
fn levels<'a>(
    alloc: Global,
    level: u32,
    depth: u32,
    input: Input<'a>,
) -> Result<(Expression, Input<'a>), Fault>
    ensures { Gives (λ x. (expression_tree x.0, seen x.1)) result (levels_at level (unary_at depth) (seen input.entry)) }
{
    let (first, after) = unary(alloc, depth, input)?;
    let mut left = first;
    let mut rest = after;
    for below in 0..level {
        let Some(_) = operator(below + 1, rest) else {
            continue;
        };
        let (next, after) = chain(alloc, below + 1, depth, left, rest)?;
        left = next;
        rest = after;
    }
    Ok((left, rest))
}

// The operators of this level after what stands to their left, each with its right operand.
#[cycle(expression)]
fn chain<'a>(
    alloc: Global,
    level: u32,
    depth: u32,
    first: Expression,
    input: Input<'a>,
) -> Result<(Expression, Input<'a>), Fault>
    requires { 0 < level }
    ensures { Gives (λ x. (expression_tree x.0, seen x.1)) result (more_at chain_limit level (levels_at (level - 1) (unary_at depth)) (expression_tree first) (seen input.entry)) }
{
    let mut left = first;
    let mut rest = input;
    for _ in 0..CHAIN_LIMIT {
        let Some((operator, symbol, after)) = operator(level, rest) else {
            return Ok((left, rest));
        };
        let (right, after) = levels(alloc, level - 1, depth, after)?;
        left = Expression::binary(alloc, operator, symbol.site, left, right)?;
        rest = after;
    }
    Ok((left, rest))
}

/// An operator and its operand, or what has none.
#[cycle(expression)]
pub fn unary<'a>(
    alloc: Global,
    depth: u32,
    input: Input<'a>,
) -> Result<(Expression, Input<'a>), Fault>
    ensures { Gives (λ x. (expression_tree x.0, seen x.1)) result (unary_at depth (seen input.entry)) }
{
    match prefix(input) {
        Some((operator, symbol, rest)) => {
            if depth == 0 {
                return Err(Fault::NoParse);
            }
            let (operand, rest) = unary(alloc, depth - 1, rest)?;
            Ok((
                Expression::Unary {
                    operator,
                    site: symbol.site,
                    operand: Box::new(alloc, operand)?,
                },
                rest,
            ))
        }
        None => postfix(alloc, depth, input),
    }
}

// A primary and the members after it.
#[cycle(expression)]
#[tactic(auto, unfolding(crate::specs::Reading::postfix_of))]
fn postfix<'a>(
    alloc: Global,
    depth: u32,
    input: Input<'a>,
) -> Result<(Expression, Input<'a>), Fault>
    ensures { Gives (λ x. (expression_tree x.0, seen x.1)) result (postfix_of depth (unary_at (depth - 1)) (seen input.entry)) }
{
    let (first, rest) = primary(alloc, depth, input)?;
    members(alloc, first, rest)
}

/// Arrows and names after an expression.
#[tactic(auto, unfolding(crate::specs::Reading::members_at))]
pub fn members<'a>(
    alloc: Global,
    first: Expression,
    input: Input<'a>,
) -> Result<(Expression, Input<'a>), Fault>
    ensures { Gives (λ x. (expression_tree x.0, seen x.1)) result (members_at chain_limit (expression_tree first) (seen input.entry)) }
{
    let mut left = first;
    let mut rest = input;
    for _ in 0..CHAIN_LIMIT {
        let Some((arrow, after)) = front(Terminal::Arrow, rest) else {
            return Ok((left, rest));
        };
        let (field, after) = member_name(alloc, after)?;
        left = Expression::member(alloc, left, field, arrow.site)?;
        rest = after;
    }
    Ok((left, rest))
}

// The name at the front, and the symbols after it.
fn member_name<'a>(alloc: Global, input: Input<'a>) -> Result<(Name, Input<'a>), Fault>
    ensures { Gives (λ x. (x.0, seen x.1)) result (name_at (seen input.entry)) }
{
    match front(Terminal::Name, input) {
        Some((symbol, rest)) => Ok((name(alloc, rest.source, symbol)?, rest)),
        None => Err(Fault::NoParse),
    }
}

/// The primary at the front, and the symbols after it.
#[cycle(expression)]
#[tactic(auto, unfolding(crate::specs::Reading::primary_of))]
pub fn primary<'a>(
    alloc: Global,
    depth: u32,
    input: Input<'a>,
) -> Result<(Expression, Input<'a>), Fault>
    ensures { Gives (λ x. (expression_tree x.0, seen x.1)) result (primary_of depth (unary_at (depth - 1)) (seen input.entry)) }
{
    let Some((symbol, behind)) = input.first() else {
        return Err(Fault::NoParse);
    };
    let rest = Input::new(input.source, behind);
    match symbol.terminal {
        Terminal::Constant => constant(symbol, rest),
        Terminal::Null => Ok((Expression::Null { site: symbol.site }, rest)),
        Terminal::Name => named(alloc, depth, symbol, rest),
        Terminal::Free => free(alloc, depth, symbol, rest),
        Terminal::GetChar => get_char(depth, symbol, rest),
        Terminal::Malloc => malloc(alloc, depth, None, symbol, rest),
        Terminal::OpenParenthesis => parenthesised(alloc, depth, rest),
        _ => Err(Fault::NoParse),
    }
}

// A constant, whose symbol this is.
fn constant<'a>(symbol: Symbol, input: Input<'a>) -> Result<(Expression, Input<'a>), Fault>
    ensures { Gives (λ x. (expression_tree x.0, seen x.1)) result (constant_at (see input.entry.source.now symbol) (seen input.entry)) }
{
    match constant_value(text(input.source, symbol.start, symbol.end)) {
        Some(value) => Ok((
            Expression::Constant {
                value,
                site: symbol.site,
            },
            input,
        )),
        None => Err(Fault::NoParse),
    }
}

// A variable, or a call where a parenthesis opens after its name.
#[cycle(expression)]
#[tactic(auto, unfolding(crate::specs::Reading::named_at))]
fn named<'a>(
    alloc: Global,
    depth: u32,
    symbol: Symbol,
    input: Input<'a>,
) -> Result<(Expression, Input<'a>), Fault>
    ensures { Gives (λ x. (expression_tree x.0, seen x.1)) result (named_at depth (unary_at (depth - 1)) (see input.entry.source.now symbol) (seen input.entry)) }
{
    let name = name(alloc, input.source, symbol)?;
    let site = symbol.site;
    let Some((_, rest)) = front(Terminal::OpenParenthesis, input) else {
        return Ok((Expression::Variable { name, site }, input));
    };
    if depth == 0 {
        return Err(Fault::NoParse);
    }
    let (arguments, rest) = arguments(alloc, depth - 1, rest)?;
    Ok((
        Expression::Call {
            function: name,
            site,
            arguments,
        },
        rest,
    ))
}

// The arguments up to the closing parenthesis.
#[cycle(expression)]
#[tactic(auto, unfolding(crate::specs::Reading::arguments_at))]
fn arguments<'a>(
    alloc: Global,
    depth: u32,
    input: Input<'a>,
) -> Result<(Vec<Expression>, Input<'a>), Fault>
    ensures { Gives (λ x. (map expression_tree x.0.items, seen x.1)) result (arguments_at (levels_at 6 (unary_at depth)) (seen input.entry)) }
{
    if let Some((_, rest)) = front(Terminal::CloseParenthesis, input) {
        return Ok((Vec::new(alloc), rest));
    }
    let (all, rest) = separated(alloc, depth, input)?;
    match front(Terminal::CloseParenthesis, rest) {
        Some((_, rest)) => Ok((all, rest)),
        None => Err(Fault::NoParse),
    }
}

// Expressions with commas between.
#[cycle(expression)]
#[tactic(auto, unfolding(crate::specs::Reading::separated_at))]
fn separated<'a>(
    alloc: Global,
    depth: u32,
    input: Input<'a>,
) -> Result<(Vec<Expression>, Input<'a>), Fault>
    ensures { Gives (λ x. (map expression_tree x.0.items, seen x.1)) result (separated_at (levels_at 6 (unary_at depth)) (seen input.entry)) }
{
    let mut all = Vec::new(alloc);
    let (first, after) = levels(alloc, 6, depth, input)?;
    all.push(first)?;
    let mut rest = after;
    for _ in 0..after.len() {
        let Some((_, after)) = front(Terminal::Comma, rest) else {
            return Ok((all, rest));
        };
        let (next, after) = levels(alloc, 6, depth, after)?;
        all.push(next)?;
        rest = after;
    }
    Ok((all, rest))
}

// An expression up to the closing parenthesis.
#[cycle(expression)]
#[tactic(auto, unfolding(crate::specs::Reading::closed_at))]
fn closed<'a>(alloc: Global, depth: u32, input: Input<'a>) -> Result<(Expression, Input<'a>), Fault>
    ensures { Gives (λ x. (expression_tree x.0, seen x.1)) result (closed_at (levels_at 6 (unary_at depth)) (seen input.entry)) }
{
    let (inside, rest) = levels(alloc, 6, depth, input)?;
    match front(Terminal::CloseParenthesis, rest) {
        Some((_, rest)) => Ok((inside, rest)),
        None => Err(Fault::NoParse),
    }
}

// What follows the word `free`.
#[cycle(expression)]
#[tactic(auto, unfolding(crate::specs::Reading::free_at), using(px_syntax::proofs::ExpressionEquations::trees))]
fn free<'a>(
    alloc: Global,
    depth: u32,
    symbol: Symbol,
    input: Input<'a>,
) -> Result<(Expression, Input<'a>), Fault>
    ensures { Gives (λ x. (expression_tree x.0, seen x.1)) result (free_at depth (unary_at (depth - 1)) (see input.entry.source.now symbol) (seen input.entry)) }
{
    if depth == 0 {
        return Err(Fault::NoParse);
    }
    let Some((_, rest)) = front(Terminal::OpenParenthesis, input) else {
        return Err(Fault::NoParse);
    };
    let (pointer, rest) = closed(alloc, depth - 1, rest)?;
    Ok((
        Expression::Free {
            site: symbol.site,
            pointer: Box::new(alloc, pointer)?,
        },
        rest,
    ))
}

// What follows the word `getchar`.
#[tactic(auto, unfolding(crate::specs::Reading::get_char_at))]
fn get_char<'a>(
    depth: u32,
    symbol: Symbol,
    input: Input<'a>,
) -> Result<(Expression, Input<'a>), Fault>
    ensures { Gives (λ x. (expression_tree x.0, seen x.1)) result (get_char_at depth (see input.entry.source.now symbol) (seen input.entry)) }
{
    if depth == 0 {
        return Err(Fault::NoParse);
    }
    let Some((_, rest)) = front(Terminal::OpenParenthesis, input) else {
        return Err(Fault::NoParse);
    };
    match front(Terminal::CloseParenthesis, rest) {
        Some((_, rest)) => Ok((Expression::GetChar { site: symbol.site }, rest)),
        None => Err(Fault::NoParse),
    }
}

// What follows the word `malloc`.
#[tactic(auto, unfolding(crate::specs::Reading::malloc_at))]
fn malloc<'a>(
    alloc: Global,
    depth: u32,
    cast: Option<TypeName>,
    symbol: Symbol,
    input: Input<'a>,
) -> Result<(Expression, Input<'a>), Fault>
    ensures { Gives (λ x. (expression_tree x.0, seen x.1)) result (malloc_at depth cast (see input.entry.source.now symbol) (seen input.entry)) }
{
    if depth < 2 {
        return Err(Fault::NoParse);
    }
    let Some((_, rest)) = front(Terminal::OpenParenthesis, input) else {
        return Err(Fault::NoParse);
    };
    let Some((_, rest)) = front(Terminal::Sizeof, rest) else {
        return Err(Fault::NoParse);
    };
    let Some((_, rest)) = front(Terminal::OpenParenthesis, rest) else {
        return Err(Fault::NoParse);
    };
    let (size, rest) = type_name(alloc, rest)?;
    let Some((_, rest)) = front(Terminal::CloseParenthesis, rest) else {
        return Err(Fault::NoParse);
    };
    match front(Terminal::CloseParenthesis, rest) {
        Some((_, rest)) => {
            let types = Box::new(alloc, MallocTypes { cast, size })?;
            Ok((
                Expression::Malloc {
                    site: symbol.site,
                    types,
                },
                rest,
            ))
        }
        None => Err(Fault::NoParse),
    }
}

// A cast and the `malloc` after it, after the parenthesis that opens the cast.
#[tactic(auto, unfolding(crate::specs::Reading::cast_at))]
fn cast<'a>(alloc: Global, depth: u32, input: Input<'a>) -> Result<(Expression, Input<'a>), Fault>
    ensures { Gives (λ x. (expression_tree x.0, seen x.1)) result (cast_at depth (seen input.entry)) }
{
    let (cast, rest) = type_name(alloc, input)?;
    let Some((_, rest)) = front(Terminal::CloseParenthesis, rest) else {
        return Err(Fault::NoParse);
    };
    match front(Terminal::Malloc, rest) {
        Some((word, rest)) => malloc(alloc, depth, Some(cast), word, rest),
        None => Err(Fault::NoParse),
    }
}

// What follows a parenthesis that opens no call.
#[cycle(expression)]
#[tactic(auto, unfolding(crate::specs::Reading::parenthesised_at))]
fn parenthesised<'a>(
    alloc: Global,
    depth: u32,
    input: Input<'a>,
) -> Result<(Expression, Input<'a>), Fault>
    ensures { Gives (λ x. (expression_tree x.0, seen x.1)) result (parenthesised_at depth (unary_at (depth - 1)) (seen input.entry)) }
{
    if depth == 0 {
        return Err(Fault::NoParse);
    }
    if begins_type(input) {
        return cast(alloc, depth, input);
    }
    closed(alloc, depth - 1, input)
}
