ghost use Rattle.std.specs.Prelude.{◌≡◌, ◌-◌, ◌<◌, false, map, length, drop, option_map, IfOk, IfErr, List};
ghost use Rattle.px_real_expressions.specs.ExpressionTree.{choice, choice_or, assign};
ghost use Rattle.px_real_expressions.specs.Lexemes.{Lexeme};
ghost use Rattle.px_real_expressions.specs.Reading.{readers, operand_of, levels_at, more_at, arguments_at, suffixes_at, conditional_by, assignment_by, expression_by};
ghost use Rattle.px_real_symbols.specs.Answers.{Gives};
ghost use Rattle.px_real_symbols.specs.Symbols.{seen};
ghost use Rattle.px_real_symbols.specs.declared.fault.Fault.TheVariants.{NoMemory};
ghost use Rattle.px_real_reading.specs.Heads.{head_tree, after_head};
ghost use Rattle.px_real_reading.specs.Parts.{Answers, part_reader, suffix_at, closed_items};
ghost use Rattle.px_real_reading.specs.Trees.{expression_tree, suffix_tree};
ghost use Rattle.px_real_reading.specs.declared.expressions.Part.TheVariants.{Assignment};

use crate::heads::{Head, head_of, shut};
use crate::tree::{Expression, Suffix};
use px_base::Site;
use px_real_expressions::{Operator, Step, Terminal};
use px_real_symbols::fault::Fault;
use px_real_symbols::fronts::{assignment, front, identifier_front, operator};
use px_real_symbols::operators::wants_unary;
use px_real_symbols::symbol::{Tokens, first, left, name};
use std::alloc::Global;

// What is opened: a unary expression alone or a cast too, a conditional expression, an assignment, an expression.
#[derive(Clone, Copy)]
pub enum Part {
    Operand(bool),
    Conditional,
    Assignment,
    Expression,
}

// What is opened, where `depth` may be.
#[cycle(expression)]
#[tactic(auto, using(crate::proofs::ReaderEquations::operand_is, crate::proofs::ReaderEquations::conditional_is, crate::proofs::ReaderEquations::assignment_is, crate::proofs::ReaderEquations::expression_is))]
fn inside(
    alloc: Global,
    on: Tokens,
    part: Part,
    depth: u32,
    at: usize,
) -> Result<(Expression, usize), Fault>
    ensures { Answers on.entry result (part_reader part (readers depth) (drop at (seen on.entry))) }
{
    if depth == 0 {
        return Err(shut(on, at));
    }
    match part {
        Part::Operand(only) => operand(alloc, on, only, depth - 1, at),
        Part::Conditional => conditional(alloc, on, depth - 1, at),
        Part::Assignment => assigned(alloc, on, depth - 1, at),
        Part::Expression => expression(alloc, on, depth - 1, at),
    }
}

// Assignments with commas between, where `depth` more may be opened.
#[cycle(expression)]
#[tactic(auto, unfolding(px_real_expressions::specs::Reading::chain_at))]
pub fn expression(
    alloc: Global,
    on: Tokens,
    depth: u32,
    at: usize,
) -> Result<(Expression, usize), Fault>
    ensures { Answers on.entry result (expression_by (readers depth) (drop at (seen on.entry))) }
{
    let (first, after) = assigned(alloc, on, depth, at)?;
    let mut tree = first;
    let mut rest = after;
    for _ in 0..left(on, after) {
        let Some((operator, symbol, after)) = operator(13, on, rest) else {
            return Ok((tree, rest));
        };
        let (right, after) = assigned(alloc, on, depth, after)?;
        tree = Expression::binary(alloc, operator, symbol.site, tree, right)?;
        rest = after;
    }
    Ok((tree, rest))
}

// A conditional expression, or a unary one and what is assigned to it.
#[cycle(expression)]
#[tactic(auto, unfolding(px_real_expressions::specs::Reading::assignment_with, px_real_expressions::specs::Reading::assigned_at), using(crate::proofs::ReaderEquations::may_open, crate::proofs::ReaderEquations::may_not_open))]
fn assigned(alloc: Global, on: Tokens, depth: u32, at: usize) -> Result<(Expression, usize), Fault>
    ensures { Answers on.entry result (assignment_by (readers depth) (drop at (seen on.entry))) }
{
    let (left, next) = conditional(alloc, on, depth, at)?;
    let Some((operator, symbol, after)) = assignment(on, next) else {
        return Ok((left, next));
    };
    if !left.is_unary() {
        return Err(Fault::Wrong(next));
    }
    if depth == 0 {
        return Err(Fault::Deep(next));
    }
    let (right, rest) = inside(alloc, on, Part::Assignment, depth, after)?;
    let tree = assign_of(alloc, operator, symbol.site, left, right)?;
    Ok((tree, rest))
}

// A condition, with the two expressions of which it chooses one or without them.
#[cycle(expression)]
#[tactic(auto, unfolding(px_real_expressions::specs::Reading::conditional_of, px_real_expressions::specs::Reading::choice_at), using(crate::proofs::ReaderEquations::may_open, crate::proofs::ReaderEquations::may_not_open))]
fn conditional(
    alloc: Global,
    on: Tokens,
    depth: u32,
    at: usize,
) -> Result<(Expression, usize), Fault>
    ensures { Answers on.entry result (conditional_by (readers depth) (drop at (seen on.entry))) }
{
    let (condition, next) = levels(alloc, on, 10, depth, at)?;
    let Some((question, after)) = front(Terminal::Question, on, next) else {
        return Ok((condition, next));
    };
    let site = question.site;
    if depth == 0 {
        return Err(Fault::Deep(next));
    }
    if let Some((_, after)) = front(Terminal::Colon, on, after) {
        let (otherwise, rest) = inside(alloc, on, Part::Conditional, depth, after)?;
        let tree = chosen_or(alloc, site, condition, otherwise)?;
        return Ok((tree, rest));
    }
    let (chosen, next) = inside(alloc, on, Part::Expression, depth, after)?;
    let Some((_, after)) = front(Terminal::Colon, on, next) else {
        return Err(Fault::Wrong(next));
    };
    let (otherwise, rest) = inside(alloc, on, Part::Conditional, depth, after)?;
    let tree = chosen_of(alloc, site, condition, chosen, otherwise)?;
    Ok((tree, rest))
}

// `condition ? chosen : otherwise`.
#[tactic(auto, using(crate::proofs::TreeEquations::trees))]
fn chosen_of(
    alloc: Global,
    site: Site,
    condition: Expression,
    chosen: Expression,
    otherwise: Expression,
) -> Result<Expression, Fault>
    ensures made { IfOk result (λ e. (all : List Lexeme) → expression_tree all e ≡ choice site (expression_tree all condition) (expression_tree all chosen) (expression_tree all otherwise)) }
    ensures no_memory { IfErr result (λ e. e ≡ NoMemory) }
{
    let condition = Box::new(alloc, condition)?;
    let chosen = Box::new(alloc, chosen)?;
    let otherwise = Box::new(alloc, otherwise)?;
    Ok(Expression::Choice {
        site,
        condition,
        chosen,
        otherwise,
    })
}

// `condition ?: otherwise`.
#[tactic(auto, using(crate::proofs::TreeEquations::trees))]
fn chosen_or(
    alloc: Global,
    site: Site,
    condition: Expression,
    otherwise: Expression,
) -> Result<Expression, Fault>
    ensures made { IfOk result (λ e. (all : List Lexeme) → expression_tree all e ≡ choice_or site (expression_tree all condition) (expression_tree all otherwise)) }
    ensures no_memory { IfErr result (λ e. e ≡ NoMemory) }
{
    let condition = Box::new(alloc, condition)?;
    let otherwise = Box::new(alloc, otherwise)?;
    Ok(Expression::ChoiceOr {
        site,
        condition,
        otherwise,
    })
}

// An assignment.
#[tactic(auto, using(crate::proofs::TreeEquations::trees))]
fn assign_of(
    alloc: Global,
    operator: Option<Operator>,
    site: Site,
    left: Expression,
    right: Expression,
) -> Result<Expression, Fault>
    ensures made { IfOk result (λ e. (all : List Lexeme) → expression_tree all e ≡ assign operator site (expression_tree all left) (expression_tree all right)) }
    ensures no_memory { IfErr result (λ e. e ≡ NoMemory) }
{
    let left = Box::new(alloc, left)?;
    let right = Box::new(alloc, right)?;
    Ok(Expression::Assign {
        operator,
        site,
        left,
        right,
    })
}

// Operands with the operators of the levels up to this one.
#[cycle(expression)]
#[tactic(auto, unfolding(px_real_expressions::specs::Reading::levels_at))]
fn levels(
    alloc: Global,
    on: Tokens,
    level: u32,
    depth: u32,
    at: usize,
) -> Result<(Expression, usize), Fault>
    ensures { Answers on.entry result (levels_at level (operand_of false (readers depth)) (drop at (seen on.entry))) }
{
    let (first, after) = operand(alloc, on, false, depth, at)?;
    let mut tree = first;
    let mut rest = after;
    for below in 0..level {
        let Some(_) = operator(below + 1, on, rest) else {
            continue;
        };
        let (next, after) = chain(alloc, on, below + 1, depth, tree, rest)?;
        tree = next;
        rest = after;
    }
    Ok((tree, rest))
}

// The operators of this level after what stands to their left, each with its right operand.
#[cycle(expression)]
fn chain(
    alloc: Global,
    on: Tokens,
    level: u32,
    depth: u32,
    first: Expression,
    at: usize,
) -> Result<(Expression, usize), Fault>
    requires { 0 < level }
    ensures { Answers on.entry result (more_at (length (drop at (seen on.entry))) level (levels_at (level - 1) (operand_of false (readers depth))) (expression_tree (seen on.entry) first) (drop at (seen on.entry))) }
{
    let mut tree = first;
    let mut rest = at;
    for _ in 0..left(on, at) {
        let Some((operator, symbol, after)) = operator(level, on, rest) else {
            return Ok((tree, rest));
        };
        let (right, after) = levels(alloc, on, level - 1, depth, after)?;
        tree = Expression::binary(alloc, operator, symbol.site, tree, right)?;
        rest = after;
    }
    Ok((tree, rest))
}

// A unary expression, or a cast where not only those are wanted.
#[cycle(expression)]
fn operand(
    alloc: Global,
    on: Tokens,
    only: bool,
    depth: u32,
    at: usize,
) -> Result<(Expression, usize), Fault>
    ensures { Answers on.entry result (operand_of only (readers depth) (drop at (seen on.entry))) }
{
    let (head, next) = head_of(alloc, on, only, depth > 0, at)?;
    behind(alloc, on, depth, head, next)
}

// The rest of an operand that begins so.
#[cycle(expression)]
#[tactic(auto, unfolding(px_real_expressions::specs::Reading::closed_at), using(crate::proofs::TreeEquations::trees))]
fn behind(
    alloc: Global,
    on: Tokens,
    depth: u32,
    head: Head,
    at: usize,
) -> Result<(Expression, usize), Fault>
    ensures { Answers on.entry result (after_head (head_tree (seen on.entry) head) (readers depth) (drop at (seen on.entry))) }
{
    match head {
        Head::Before(operator, site) => {
            let part = Part::Operand(wants_unary(operator));
            let (operand, rest) = inside(alloc, on, part, depth, at)?;
            let operand = Box::new(alloc, operand)?;
            Ok((
                Expression::Prefixed {
                    operator,
                    site,
                    operand,
                },
                rest,
            ))
        }
        Head::Measures(measure, site) => {
            let (operand, rest) = inside(alloc, on, Part::Operand(true), depth, at)?;
            let operand = Box::new(alloc, operand)?;
            Ok((
                Expression::Measure {
                    measure,
                    site,
                    operand,
                },
                rest,
            ))
        }
        Head::Casts(site, type_name) => {
            let (operand, rest) = inside(alloc, on, Part::Operand(false), depth, at)?;
            let operand = Box::new(alloc, operand)?;
            Ok((
                Expression::Cast {
                    site,
                    type_name,
                    operand,
                },
                rest,
            ))
        }
        Head::Alone(tree) => Ok((tree, at)),
        Head::First(tree) => suffixes(alloc, on, depth, tree, at),
        Head::Group(site) => {
            let (inner, next) = inside(alloc, on, Part::Expression, depth, at)?;
            let Some((_, rest)) = front(Terminal::CloseParenthesis, on, next) else {
                return Err(Fault::Wrong(next));
            };
            let inner = Box::new(alloc, inner)?;
            suffixes(
                alloc,
                on,
                depth,
                Expression::Parenthesised { site, inner },
                rest,
            )
        }
    }
}

// The suffixes after what stands to their left.
#[cycle(expression)]
fn suffixes(
    alloc: Global,
    on: Tokens,
    depth: u32,
    first: Expression,
    at: usize,
) -> Result<(Expression, usize), Fault>
    ensures { Answers on.entry result (suffixes_at (readers depth) (length (drop at (seen on.entry))) (expression_tree (seen on.entry) first) (drop at (seen on.entry))) }
{
    let mut tree = first;
    let mut rest = at;
    for _ in 0..left(on, at) {
        let (suffix, after) = suffix(alloc, on, depth, rest)?;
        let Some(suffix) = suffix else {
            return Ok((tree, rest));
        };
        tree = Expression::suffixed(alloc, tree, suffix)?;
        rest = after;
    }
    Ok((tree, rest))
}

// The suffix with this number, if one is there.
#[cycle(expression)]
#[tactic(auto, unfolding(crate::specs::Parts::suffix_at, px_real_expressions::specs::Reading::closed_at), using(crate::proofs::ReaderEquations::may_open, crate::proofs::ReaderEquations::may_not_open, crate::proofs::TreeEquations::trees))]
fn suffix(
    alloc: Global,
    on: Tokens,
    depth: u32,
    at: usize,
) -> Result<(Option<Suffix>, usize), Fault>
    ensures { Gives (seen on.entry) (λ x. (option_map (suffix_tree (seen on.entry)) x.0, drop x.1 (seen on.entry))) result (suffix_at (readers depth) (drop at (seen on.entry))) }
{
    let Some((symbol, next)) = first(on, at) else {
        return Ok((None, at));
    };
    let site = symbol.site;
    match symbol.terminal {
        Terminal::OpenBracket => {
            if depth == 0 {
                return Err(Fault::Deep(at));
            }
            let (index, last) = inside(alloc, on, Part::Expression, depth, next)?;
            let Some((_, rest)) = front(Terminal::CloseBracket, on, last) else {
                return Err(Fault::Wrong(last));
            };
            let index = Box::new(alloc, index)?;
            Ok((Some(Suffix::Index { site, index }), rest))
        }
        Terminal::OpenParenthesis => {
            let (arguments, rest) = arguments(alloc, on, depth, next)?;
            Ok((Some(Suffix::Call { site, arguments }), rest))
        }
        Terminal::Dot => {
            let Some((member, rest)) = identifier_front(on, next) else {
                return Err(Fault::Wrong(next));
            };
            let name = name(alloc, on, member)?;
            Ok((Some(Suffix::Member { site, name }), rest))
        }
        Terminal::Arrow => {
            let Some((member, rest)) = identifier_front(on, next) else {
                return Err(Fault::Wrong(next));
            };
            let name = name(alloc, on, member)?;
            Ok((Some(Suffix::PointerMember { site, name }), rest))
        }
        Terminal::PlusPlus => {
            let step = Step::Increment;
            Ok((Some(Suffix::Step { step, site }), next))
        }
        Terminal::MinusMinus => {
            let step = Step::Decrement;
            Ok((Some(Suffix::Step { step, site }), next))
        }
        _ => Ok((None, at)),
    }
}

// The arguments up to the closing parenthesis.
#[cycle(expression)]
fn arguments(
    alloc: Global,
    on: Tokens,
    depth: u32,
    at: usize,
) -> Result<(Vec<Expression>, usize), Fault>
    ensures { Gives (seen on.entry) (λ x. (map (expression_tree (seen on.entry)) x.0.items, drop x.1 (seen on.entry))) result (arguments_at (part_reader Assignment (readers depth)) (drop at (seen on.entry))) }
{
    if let Some((_, rest)) = front(Terminal::CloseParenthesis, on, at) {
        return Ok((Vec::new(alloc), rest));
    }
    let (first, after) = inside(alloc, on, Part::Assignment, depth, at)?;
    let mut all = Vec::new(alloc);
    all.push(first)?;
    let mut rest = after;
    for _ in 0..left(on, after) {
        let Some((_, after)) = front(Terminal::Comma, on, rest) else {
            return all_arguments(on, all, rest);
        };
        let (next, after) = inside(alloc, on, Part::Assignment, depth, after)?;
        all.push(next)?;
        rest = after;
    }
    all_arguments(on, all, rest)
}

// These arguments, where the parenthesis closes after them.
fn all_arguments(
    on: Tokens,
    all: Vec<Expression>,
    at: usize,
) -> Result<(Vec<Expression>, usize), Fault>
    ensures { Gives (seen on.entry) (λ x. (map (expression_tree (seen on.entry)) x.0.items, drop x.1 (seen on.entry))) result (closed_items (map (expression_tree (seen on.entry)) all.items) (drop at (seen on.entry))) }
{
    match front(Terminal::CloseParenthesis, on, at) {
        Some((_, rest)) => Ok((all, rest)),
        None => Err(Fault::Wrong(at)),
    }
}
