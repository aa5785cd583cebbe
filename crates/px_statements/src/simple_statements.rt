ghost use Rattle.std.specs.Prelude.{◌≡◌, option_map};
ghost use Rattle.px_syntax.specs.ExpressionTree.{expression_tree};
ghost use Rattle.px_syntax.specs.StatementTree.{simple_tree};
ghost use Rattle.px_expressions.specs.Lexemes.{seen};
ghost use Rattle.px_expressions.specs.Reading.{Gives, or_else};
ghost use Rattle.px_statements.specs.SimpleReading.{is_variable_tree, is_call_tree, opens, plain_lvalue_at, lvalue_at, update_of, update_front, assigned_at, call_at, simple_at};

use px_expressions::{Fault, Input, Terminal, expression, front, members, primary, unary};
use px_syntax::{BinaryOperator, Expression, Sides, SimpleStatement, UnaryOperator};
use std::alloc::Global;

// Whether the expression is a variable.
#[tactic(auto, using(px_syntax::proofs::ExpressionEquations::trees))]
fn is_variable(tree: &Expression) -> bool
    ensures { result ≡ is_variable_tree (expression_tree tree.now) }
{
    matches!(tree, Expression::Variable { .. })
}

// Whether the expression is a call.
#[tactic(auto, using(px_syntax::proofs::ExpressionEquations::trees))]
fn is_call(tree: &Expression) -> bool
    ensures { result ≡ is_call_tree (expression_tree tree.now) }
{
    matches!(
        tree,
        Expression::Call { .. } | Expression::Free { .. } | Expression::GetChar { .. }
    )
}

// Whether a parenthesis stands at the front.
fn opens(input: Input) -> bool
    ensures { result ≡ opens (seen input.entry) }
{
    match input.first() {
        Some((symbol, _)) => symbol.terminal == Terminal::OpenParenthesis,
        None => false,
    }
}

// The lvalue at the front, where it begins with no star.
#[tactic(auto, using(px_syntax::proofs::ExpressionEquations::trees))]
fn lvalue_without_star<'a>(
    alloc: Global,
    depth: u32,
    input: Input<'a>,
) -> Result<(Expression, Input<'a>), Fault>
    ensures { Gives (λ x. (expression_tree x.0, seen x.1)) result (plain_lvalue_at depth (seen input.entry)) }
{
    let (first, rest) = primary(alloc, depth, input)?;
    if front(Terminal::Arrow, rest).is_some() {
        return members(alloc, first, rest);
    }
    if opens(input) || !is_variable(&first) {
        return Err(Fault::NoParse);
    }
    Ok((first, rest))
}

// The lvalue at the front.
#[tactic(auto, unfolding(crate::specs::SimpleReading::lvalue_at), using(px_syntax::proofs::ExpressionEquations::trees))]
fn lvalue<'a>(alloc: Global, depth: u32, input: Input<'a>) -> Result<(Expression, Input<'a>), Fault>
    ensures { Gives (λ x. (expression_tree x.0, seen x.1)) result (lvalue_at depth (seen input.entry)) }
{
    let Some((star, rest)) = front(Terminal::Star, input) else {
        return lvalue_without_star(alloc, depth, input);
    };
    if depth == 0 {
        return Err(Fault::NoParse);
    }
    let (operand, rest) = unary(alloc, depth - 1, rest)?;
    Ok((
        Expression::Unary {
            operator: UnaryOperator::Indirection,
            site: star.site,
            operand: Box::new(alloc, operand)?,
        },
        rest,
    ))
}

// The arithmetic operator of an assignment.
fn update_of(terminal: Terminal) -> Option<BinaryOperator>
    ensures { result ≡ update_of terminal }
{
    match terminal {
        Terminal::PlusEqual => Some(BinaryOperator::Add),
        Terminal::MinusEqual => Some(BinaryOperator::Subtract),
        Terminal::StarEqual => Some(BinaryOperator::Multiply),
        _ => None,
    }
}

// The arithmetic operator of the assignment at the front.
fn update<'a>(input: Input<'a>) -> Option<(BinaryOperator, Input<'a>)>
    ensures { option_map (λ x. (x.0, seen x.1)) result ≡ update_front (seen input.entry) }
{
    match input.first() {
        Some((symbol, rest)) => match update_of(symbol.terminal) {
            Some(operator) => Some((operator, Input::new(input.source, rest))),
            None => None,
        },
        None => None,
    }
}

// What follows an lvalue that stands on the left.
#[tactic(auto, unfolding(crate::specs::SimpleReading::assigned_at))]
fn assigned<'a>(
    alloc: Global,
    depth: u32,
    place: Expression,
    input: Input<'a>,
) -> Result<(SimpleStatement, Input<'a>), Fault>
    ensures { Gives (λ x. (simple_tree x.0, seen x.1)) result (assigned_at depth (expression_tree place) (seen input.entry)) }
{
    if let Some((_, rest)) = front(Terminal::Equal, input) {
        let (value, rest) = expression(alloc, depth, rest)?;
        let sides = Box::new(alloc, Sides { place, value })?;
        return Ok((SimpleStatement::Assign { sides }, rest));
    }
    if let Some((operator, rest)) = update(input) {
        let (value, rest) = expression(alloc, depth, rest)?;
        let sides = Box::new(alloc, Sides { place, value })?;
        return Ok((SimpleStatement::Update { operator, sides }, rest));
    }
    if let Some((_, rest)) = front(Terminal::PlusPlus, input) {
        return Ok((SimpleStatement::Increment { place }, rest));
    }
    match front(Terminal::MinusMinus, input) {
        Some((_, rest)) => Ok((SimpleStatement::Decrement { place }, rest)),
        None => Err(Fault::NoParse),
    }
}

// The call at the front.
#[tactic(auto, unfolding(crate::specs::SimpleReading::call_at))]
fn call<'a>(
    alloc: Global,
    depth: u32,
    input: Input<'a>,
) -> Result<(SimpleStatement, Input<'a>), Fault>
    ensures { Gives (λ x. (simple_tree x.0, seen x.1)) result (call_at depth (seen input.entry)) }
{
    if opens(input) {
        return Err(Fault::NoParse);
    }
    let (call, rest) = primary(alloc, depth, input)?;
    if !is_call(&call) {
        return Err(Fault::NoParse);
    }
    Ok((SimpleStatement::Call { call }, rest))
}

// What begins with a star: an lvalue that is given a value.
fn starred_act<'a>(
    alloc: Global,
    depth: u32,
    input: Input<'a>,
) -> Result<(SimpleStatement, Input<'a>), Fault>
    ensures { Gives (λ x. (simple_tree x.0, seen x.1)) result (or_else (lvalue_at depth (seen input.entry)) (λ x. assigned_at depth x.0 x.1) (call_at depth (seen input.entry))) }
{
    match lvalue(alloc, depth, input) {
        Ok((place, rest)) => assigned(alloc, depth, place, rest),
        Err(Fault::NoParse) => call(alloc, depth, input),
        Err(Fault::NoMemory) => Err(Fault::NoMemory),
    }
}

// What begins with no star: an lvalue that is given a value, or a call. The expression at the front is read once for both.
#[tactic(auto, unfolding(crate::specs::SimpleReading::call_at), using(px_syntax::proofs::ExpressionEquations::trees))]
fn plain_act<'a>(
    alloc: Global,
    depth: u32,
    input: Input<'a>,
) -> Result<(SimpleStatement, Input<'a>), Fault>
    ensures { Gives (λ x. (simple_tree x.0, seen x.1)) result (or_else (plain_lvalue_at depth (seen input.entry)) (λ x. assigned_at depth x.0 x.1) (call_at depth (seen input.entry))) }
{
    let (first, rest) = primary(alloc, depth, input)?;
    if front(Terminal::Arrow, rest).is_some() {
        return match members(alloc, first, rest) {
            Ok((place, rest)) => assigned(alloc, depth, place, rest),
            Err(Fault::NoParse) => call(alloc, depth, input),
            Err(Fault::NoMemory) => Err(Fault::NoMemory),
        };
    }
    if opens(input) {
        return Err(Fault::NoParse);
    }
    if is_variable(&first) {
        return assigned(alloc, depth, first, rest);
    }
    if !is_call(&first) {
        return Err(Fault::NoParse);
    }
    Ok((SimpleStatement::Call { call: first }, rest))
}

// An lvalue that is given a value, or a call.
#[tactic(auto, unfolding(crate::specs::SimpleReading::lvalue_at))]
fn act<'a>(
    alloc: Global,
    depth: u32,
    input: Input<'a>,
) -> Result<(SimpleStatement, Input<'a>), Fault>
    ensures { Gives (λ x. (simple_tree x.0, seen x.1)) result (or_else (lvalue_at depth (seen input.entry)) (λ x. assigned_at depth x.0 x.1) (call_at depth (seen input.entry))) }
{
    match front(Terminal::Star, input) {
        Some(_) => starred_act(alloc, depth, input),
        None => plain_act(alloc, depth, input),
    }
}

/// The simple statement at the front, without its semicolon.
#[tactic(auto, unfolding(crate::specs::SimpleReading::simple_at))]
pub fn simple<'a>(
    alloc: Global,
    depth: u32,
    input: Input<'a>,
) -> Result<(SimpleStatement, Input<'a>), Fault>
    ensures { Gives (λ x. (simple_tree x.0, seen x.1)) result (simple_at depth (seen input.entry)) }
{
    if let Some((_, rest)) = front(Terminal::PlusPlus, input) {
        let (place, rest) = lvalue(alloc, depth, rest)?;
        return Ok((SimpleStatement::Increment { place }, rest));
    }
    if let Some((_, rest)) = front(Terminal::MinusMinus, input) {
        let (place, rest) = lvalue(alloc, depth, rest)?;
        return Ok((SimpleStatement::Decrement { place }, rest));
    }
    act(alloc, depth, input)
}
