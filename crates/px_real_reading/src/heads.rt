ghost use Rattle.std.specs.Prelude.{◌≡◌, drop, option_map};
ghost use Rattle.px_real_expressions.specs.Reading.{shut, shut_measure, typed_front, form_at, label_at};
ghost use Rattle.px_real_symbols.specs.Answers.{Gives, IsStop};
ghost use Rattle.px_real_symbols.specs.Symbols.{see, seen};
ghost use Rattle.px_real_reading.specs.Heads.{head_tree, head_at, measure_head, typed_head, primary_head, group_head};
ghost use Rattle.px_real_reading.specs.Parts.{Answers};

use crate::tree::Expression;
use px_base::Site;
use px_real_expressions::{Measure, Prefix, Terminal};
use px_real_symbols::Span;
use px_real_symbols::fault::Fault;
use px_real_symbols::fronts::{
    after_strings, front, identifier_front, measure, prefix, type_front,
};
use px_real_symbols::held::{held_group, type_group};
use px_real_symbols::operators::{begins_expression, opens_group};
use px_real_symbols::symbol::{Symbol, Tokens, first, name};
use std::alloc::Global;

// How an operand begins.
#[derive(Drop)]
pub enum Head {
    // An operator before it.
    Before(Prefix, Site),
    // `sizeof` or its like, and an expression follows.
    Measures(Measure, Site),
    // A type's name in parentheses, and what is cast follows.
    Casts(Site, Span),
    // A whole operand.
    Alone(Expression),
    // An operand that suffixes may follow.
    First(Expression),
    // A parenthesis that opens an expression.
    Group(Site),
}

// Where an operand would have to begin, and nothing may be opened.
pub fn shut(on: Tokens, at: usize) -> Fault
    ensures { IsStop (seen on.entry) result (shut (drop at (seen on.entry))) }
{
    match first(on, at) {
        Some((symbol, _)) => {
            if begins_expression(symbol.terminal) {
                Fault::Deep(at)
            } else {
                Fault::Wrong(at)
            }
        }
        None => Fault::Wrong(at),
    }
}

// The same in the place of what `sizeof` and its like measure.
fn shut_measure(on: Tokens, at: usize) -> Fault
    ensures { IsStop (seen on.entry) result (shut_measure (drop at (seen on.entry))) }
{
    let Some((_, inner)) = front(Terminal::OpenParenthesis, on, at) else {
        return shut(on, at);
    };
    match first(on, inner) {
        Some((symbol, _)) => {
            if opens_group(symbol.terminal) {
                Fault::Deep(inner)
            } else {
                Fault::Wrong(inner)
            }
        }
        None => Fault::Wrong(inner),
    }
}

// The parenthesis with this number, where a type's name follows.
#[tactic(auto, unfolding(px_real_expressions::specs::Reading::typed_front))]
fn typed_front(on: Tokens, at: usize) -> Option<(Symbol, usize)>
    ensures { option_map (λ x. (see on.entry.source.now x.0, drop x.1 (seen on.entry))) result ≡ typed_front (drop at (seen on.entry)) }
{
    let (symbol, next) = front(Terminal::OpenParenthesis, on, at)?;
    let _ = type_front(on, next)?;
    Some((symbol, next))
}

// What follows a word with parentheses of its own.
#[tactic(auto, unfolding(px_real_expressions::specs::Reading::form_at))]
fn form(alloc: Global, on: Tokens, symbol: Symbol, at: usize) -> Result<(Expression, usize), Fault>
    ensures { Answers on.entry result (form_at (see on.entry.source.now symbol) (drop at (seen on.entry))) }
{
    let Some((_, inner)) = front(Terminal::OpenParenthesis, on, at) else {
        return Err(Fault::Wrong(at));
    };
    let (arguments, next) = held_group(alloc, Terminal::CloseParenthesis, on, inner)?;
    let word = name(alloc, on, symbol)?;
    Ok((
        Expression::Form {
            word,
            site: symbol.site,
            arguments,
        },
        next,
    ))
}

// The label whose address is taken.
#[tactic(auto, unfolding(px_real_expressions::specs::Reading::label_at))]
fn label(alloc: Global, on: Tokens, symbol: Symbol, at: usize) -> Result<(Expression, usize), Fault>
    ensures { Answers on.entry result (label_at (see on.entry.source.now symbol) (drop at (seen on.entry))) }
{
    let Some((label, next)) = identifier_front(on, at) else {
        return Err(Fault::Wrong(at));
    };
    let name = name(alloc, on, label)?;
    Ok((
        Expression::Label {
            name,
            site: symbol.site,
        },
        next,
    ))
}

// How the operand with this number begins, where a unary expression only may stand or a cast too, and one more may be opened or not.
#[tactic(auto, unfolding(crate::specs::Heads::head_at))]
pub fn head_of(
    alloc: Global,
    on: Tokens,
    only: bool,
    may_open: bool,
    at: usize,
) -> Result<(Head, usize), Fault>
    ensures { Gives (seen on.entry) (λ x. (head_tree (seen on.entry) x.0, drop x.1 (seen on.entry))) result (head_at only may_open (drop at (seen on.entry))) }
{
    if let Some((operator, symbol, next)) = prefix(on, at) {
        if !may_open {
            return Err(Fault::Deep(at));
        }
        return Ok((Head::Before(operator, symbol.site), next));
    }
    if let Some((symbol, next)) = front(Terminal::AndAnd, on, at) {
        let (tree, rest) = label(alloc, on, symbol, next)?;
        return Ok((Head::Alone(tree), rest));
    }
    if let Some((kind, symbol, next)) = measure(on, at) {
        return measure_head(alloc, on, may_open, kind, symbol, next);
    }
    if let Some((symbol, next)) = typed_front(on, at) {
        return typed_head(alloc, on, only, symbol, next);
    }
    primary_head(alloc, on, at)
}

// What follows `sizeof` and its like.
#[tactic(auto, unfolding(crate::specs::Heads::measure_head))]
fn measure_head(
    alloc: Global,
    on: Tokens,
    may_open: bool,
    measure: Measure,
    symbol: Symbol,
    at: usize,
) -> Result<(Head, usize), Fault>
    ensures { Gives (seen on.entry) (λ x. (head_tree (seen on.entry) x.0, drop x.1 (seen on.entry))) result (measure_head may_open measure (see on.entry.source.now symbol) (drop at (seen on.entry))) }
{
    let site = symbol.site;
    let Some((_, inner)) = typed_front(on, at) else {
        if !may_open {
            return Err(shut_measure(on, at));
        }
        return Ok((Head::Measures(measure, site), at));
    };
    let (type_name, next) = type_group(alloc, on, inner)?;
    let Some(_) = front(Terminal::OpenBrace, on, next) else {
        let tree = Expression::MeasureType {
            measure,
            site,
            type_name,
        };
        return Ok((Head::Alone(tree), next));
    };
    if !may_open {
        return Err(Fault::Deep(next));
    }
    Ok((Head::Measures(measure, site), at))
}

// What follows the parenthesis that opens a type's name.
#[tactic(auto, unfolding(crate::specs::Heads::typed_head, px_real_expressions::specs::Reading::braces_at))]
fn typed_head(
    alloc: Global,
    on: Tokens,
    only: bool,
    symbol: Symbol,
    at: usize,
) -> Result<(Head, usize), Fault>
    ensures { Gives (seen on.entry) (λ x. (head_tree (seen on.entry) x.0, drop x.1 (seen on.entry))) result (typed_head only (see on.entry.source.now symbol) (drop at (seen on.entry))) }
{
    let site = symbol.site;
    let (type_name, next) = type_group(alloc, on, at)?;
    if let Some((_, inner)) = front(Terminal::OpenBrace, on, next) {
        let (values, rest) = held_group(alloc, Terminal::CloseBrace, on, inner)?;
        let tree = Expression::Literal {
            site,
            type_name,
            values,
        };
        return Ok((Head::First(tree), rest));
    }
    if only {
        return Err(Fault::Wrong(next));
    }
    Ok((Head::Casts(site, type_name), next))
}

// The primary with this number.
#[tactic(auto, unfolding(crate::specs::Heads::primary_head))]
fn primary_head(alloc: Global, on: Tokens, at: usize) -> Result<(Head, usize), Fault>
    ensures { Gives (seen on.entry) (λ x. (head_tree (seen on.entry) x.0, drop x.1 (seen on.entry))) result (primary_head (drop at (seen on.entry))) }
{
    let Some((symbol, next)) = first(on, at) else {
        return Err(Fault::Wrong(at));
    };
    let site = symbol.site;
    match symbol.terminal {
        Terminal::Name => {
            let name = name(alloc, on, symbol)?;
            Ok((Head::First(Expression::Name { name, site }), next))
        }
        Terminal::Constant => {
            let value = symbol.value;
            Ok((Head::First(Expression::Constant { value, site }), next))
        }
        Terminal::String => {
            let rest = after_strings(on, next);
            Ok((Head::First(Expression::String { site }), rest))
        }
        Terminal::Form => {
            let (tree, rest) = form(alloc, on, symbol, next)?;
            Ok((Head::First(tree), rest))
        }
        Terminal::OpenParenthesis => group_head(alloc, on, symbol, next),
        _ => Err(Fault::Wrong(at)),
    }
}

// What follows a parenthesis that opens no call and no type's name.
#[tactic(auto, unfolding(crate::specs::Heads::group_head, px_real_expressions::specs::Reading::braces_at))]
fn group_head(alloc: Global, on: Tokens, symbol: Symbol, at: usize) -> Result<(Head, usize), Fault>
    ensures { Gives (seen on.entry) (λ x. (head_tree (seen on.entry) x.0, drop x.1 (seen on.entry))) result (group_head (see on.entry.source.now symbol) (drop at (seen on.entry))) }
{
    let site = symbol.site;
    let Some((_, inner)) = front(Terminal::OpenBrace, on, at) else {
        return Ok((Head::Group(site), at));
    };
    let (body, next) = held_group(alloc, Terminal::CloseBrace, on, inner)?;
    let Some((_, rest)) = front(Terminal::CloseParenthesis, on, next) else {
        return Err(Fault::Wrong(next));
    };
    Ok((Head::First(Expression::Statement { site, body }), rest))
}
