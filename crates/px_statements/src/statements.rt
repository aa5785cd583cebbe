ghost use Rattle.std.specs.Prelude.{◌≡◌, ◌-◌, [], length, map};
ghost use Rattle.px_syntax.specs.ExpressionTree.{expression_tree};
ghost use Rattle.px_syntax.specs.StatementTree.{statement_tree};
ghost use Rattle.px_syntax.specs.StatementTree as Tree;
ghost use Rattle.px_expressions.specs.Lexemes.{seen};
ghost use Rattle.px_expressions.specs.Reading.{Gives};
ghost use Rattle.px_statements.specs.StatementReading.{statements_at, sub_at, branches_at, if_at, while_at, for_at, block_at, empty_block_at, word_at, return_at, declare_at, act_at, statement_of, statement_at};

use crate::clauses::{condition, first_clause, step, value};
use crate::declarations::declaration;
use crate::simple_statements::simple;
use px_base::Site;
use px_expressions::{Fault, Input, Terminal, begins_type, front};
use px_syntax::{Expression, ForHead, Statement};
use std::alloc::Global;

// The statement at the front, where `depth` more may be opened, and the symbols after it.
#[cycle(statement)]
#[tactic(auto, unfolding(crate::specs::StatementReading::statement_of), using(px_syntax::proofs::StatementEquations::trees))]
fn statement<'a>(
    alloc: Global,
    depth: u32,
    input: Input<'a>,
) -> Result<(Statement, Input<'a>), Fault>
    ensures { Gives (λ x. (statement_tree x.0, seen x.1)) result (statement_of depth (statement_at (depth - 1)) (seen input.entry)) }
{
    let Some((symbol, behind)) = input.first() else {
        return Err(Fault::NoParse);
    };
    let rest = Input::new(input.source, behind);
    match symbol.terminal {
        Terminal::Semicolon => Ok((Statement::Empty, rest)),
        Terminal::Break => break_word(rest),
        Terminal::Continue => continue_word(rest),
        Terminal::Return => return_value(alloc, depth, rest),
        Terminal::Int | Terminal::Struct => declare(alloc, depth, input),
        Terminal::OpenBrace if depth == 0 => empty_block(alloc, rest),
        Terminal::If | Terminal::While | Terminal::For if depth == 0 => Err(Fault::NoParse),
        Terminal::OpenBrace => block(alloc, depth - 1, rest),
        Terminal::If => choice(alloc, depth - 1, rest),
        Terminal::While => while_loop(alloc, depth - 1, symbol.site, rest),
        Terminal::For => for_loop(alloc, depth - 1, symbol.site, rest),
        _ => act(alloc, depth, input),
    }
}

// The statement at the front, by its depth alone.
#[cycle(statement)]
#[tactic(auto, using(crate::proofs::StatementEquations::statement_is))]
fn any_statement<'a>(
    alloc: Global,
    depth: u32,
    input: Input<'a>,
) -> Result<(Statement, Input<'a>), Fault>
    ensures { Gives (λ x. (statement_tree x.0, seen x.1)) result (statement_at depth (seen input.entry)) }
{
    statement(alloc, depth, input)
}

// A statement inside another, which is no declaration.
#[cycle(statement)]
#[tactic(auto, unfolding(crate::specs::StatementReading::sub_at))]
fn inner<'a>(alloc: Global, depth: u32, input: Input<'a>) -> Result<(Statement, Input<'a>), Fault>
    ensures { Gives (λ x. (statement_tree x.0, seen x.1)) result (sub_at (statement_at depth) (seen input.entry)) }
{
    if begins_type(input) {
        return Err(Fault::NoParse);
    }
    any_statement(alloc, depth, input)
}

// What follows an `if`.
#[cycle(statement)]
#[tactic(auto, unfolding(crate::specs::StatementReading::if_at))]
fn choice<'a>(alloc: Global, depth: u32, input: Input<'a>) -> Result<(Statement, Input<'a>), Fault>
    ensures { Gives (λ x. (statement_tree x.0, seen x.1)) result (if_at depth (statement_at depth) (seen input.entry)) }
{
    let (condition, rest) = condition(alloc, depth, input)?;
    branches(alloc, depth, condition, rest)
}

// What follows an `if` and its condition.
#[cycle(statement)]
#[tactic(auto, unfolding(crate::specs::StatementReading::branches_at), using(px_syntax::proofs::StatementEquations::trees))]
fn branches<'a>(
    alloc: Global,
    depth: u32,
    condition: Box<Expression>,
    input: Input<'a>,
) -> Result<(Statement, Input<'a>), Fault>
    ensures { Gives (λ x. (statement_tree x.0, seen x.1)) result (branches_at (statement_at depth) (expression_tree condition.value) (seen input.entry)) }
{
    let (then, rest) = inner(alloc, depth, input)?;
    match front(Terminal::Else, rest) {
        Some((_, rest)) => {
            let (other, rest) = inner(alloc, depth, rest)?;
            Ok((
                Statement::IfElse {
                    condition,
                    then: Box::new(alloc, then)?,
                    other: Box::new(alloc, other)?,
                },
                rest,
            ))
        }
        None => Ok((
            Statement::If {
                condition,
                then: Box::new(alloc, then)?,
            },
            rest,
        )),
    }
}

// What follows a `while`.
#[cycle(statement)]
#[tactic(auto, unfolding(crate::specs::StatementReading::while_at), using(px_syntax::proofs::StatementEquations::trees))]
fn while_loop<'a>(
    alloc: Global,
    depth: u32,
    site: Site,
    input: Input<'a>,
) -> Result<(Statement, Input<'a>), Fault>
    ensures { Gives (λ x. (statement_tree x.0, seen x.1)) result (while_at depth (statement_at depth) site (seen input.entry)) }
{
    let (condition, rest) = condition(alloc, depth, input)?;
    let (body, rest) = inner(alloc, depth, rest)?;
    Ok((
        Statement::While {
            site,
            condition,
            body: Box::new(alloc, body)?,
        },
        rest,
    ))
}

// What follows a `for`.
#[cycle(statement)]
#[tactic(auto, unfolding(crate::specs::StatementReading::for_at), using(px_syntax::proofs::StatementEquations::trees))]
fn for_loop<'a>(
    alloc: Global,
    depth: u32,
    site: Site,
    input: Input<'a>,
) -> Result<(Statement, Input<'a>), Fault>
    ensures { Gives (λ x. (statement_tree x.0, seen x.1)) result (for_at depth (statement_at depth) site (seen input.entry)) }
{
    let Some((_, rest)) = front(Terminal::OpenParenthesis, input) else {
        return Err(Fault::NoParse);
    };
    let (first, rest) = first_clause(alloc, depth, rest)?;
    let (condition, rest) = value(alloc, depth, rest)?;
    let (step, rest) = step(alloc, depth, rest)?;
    let head = Box::new(
        alloc,
        ForHead {
            first,
            condition,
            step,
        },
    )?;
    let (body, rest) = inner(alloc, depth, rest)?;
    Ok((
        Statement::For {
            site,
            head,
            body: Box::new(alloc, body)?,
        },
        rest,
    ))
}

// What follows an opening brace that is a statement.
#[cycle(statement)]
#[tactic(auto, unfolding(crate::specs::StatementReading::block_at), using(px_syntax::proofs::StatementEquations::trees))]
fn block<'a>(alloc: Global, depth: u32, input: Input<'a>) -> Result<(Statement, Input<'a>), Fault>
    ensures { Gives (λ x. (statement_tree x.0, seen x.1)) result (block_at (statement_at depth) (seen input.entry)) }
{
    let (statements, rest) = statements(alloc, depth, input)?;
    Ok((Statement::Block { statements }, rest))
}

// What follows an opening brace where nothing more may be opened.
#[tactic(auto, unfolding(crate::specs::StatementReading::empty_block_at), using(px_syntax::proofs::StatementEquations::trees))]
fn empty_block<'a>(alloc: Global, input: Input<'a>) -> Result<(Statement, Input<'a>), Fault>
    ensures { Gives (λ x. (statement_tree x.0, seen x.1)) result (empty_block_at (seen input.entry)) }
{
    match front(Terminal::CloseBrace, input) {
        Some((_, rest)) => Ok((
            Statement::Block {
                statements: Vec::new(alloc),
            },
            rest,
        )),
        None => Err(Fault::NoParse),
    }
}

// The statements up to the closing brace.
#[cycle(statement)]
fn statements<'a>(
    alloc: Global,
    depth: u32,
    input: Input<'a>,
) -> Result<(Vec<Statement>, Input<'a>), Fault>
    ensures { Gives (λ x. (map statement_tree x.0.items, seen x.1)) result (statements_at (length (seen input.entry)) (statement_at depth) [] (seen input.entry)) }
{
    let mut all = Vec::new(alloc);
    let mut rest = input;
    for _ in 0..input.len() {
        if let Some((_, after)) = front(Terminal::CloseBrace, rest) {
            return Ok((all, after));
        }
        let (next, after) = any_statement(alloc, depth, rest)?;
        all.push(next)?;
        rest = after;
    }
    Err(Fault::NoParse)
}

// What follows the word `break`.
#[tactic(auto, unfolding(crate::specs::StatementReading::word_at), using(px_syntax::proofs::StatementEquations::trees))]
fn break_word<'a>(input: Input<'a>) -> Result<(Statement, Input<'a>), Fault>
    ensures { Gives (λ x. (statement_tree x.0, seen x.1)) result (word_at Tree.break (seen input.entry)) }
{
    match front(Terminal::Semicolon, input) {
        Some((_, rest)) => Ok((Statement::Break, rest)),
        None => Err(Fault::NoParse),
    }
}

// What follows the word `continue`.
#[tactic(auto, unfolding(crate::specs::StatementReading::word_at), using(px_syntax::proofs::StatementEquations::trees))]
fn continue_word<'a>(input: Input<'a>) -> Result<(Statement, Input<'a>), Fault>
    ensures { Gives (λ x. (statement_tree x.0, seen x.1)) result (word_at Tree.continue (seen input.entry)) }
{
    match front(Terminal::Semicolon, input) {
        Some((_, rest)) => Ok((Statement::Continue, rest)),
        None => Err(Fault::NoParse),
    }
}

// What follows the word `return`.
#[tactic(auto, unfolding(crate::specs::StatementReading::return_at), using(px_syntax::proofs::StatementEquations::trees))]
fn return_value<'a>(
    alloc: Global,
    depth: u32,
    input: Input<'a>,
) -> Result<(Statement, Input<'a>), Fault>
    ensures { Gives (λ x. (statement_tree x.0, seen x.1)) result (return_at depth (seen input.entry)) }
{
    let (value, rest) = value(alloc, depth, input)?;
    Ok((Statement::Return { value }, rest))
}

// A declaration and its semicolon.
#[tactic(auto, unfolding(crate::specs::StatementReading::declare_at), using(px_syntax::proofs::StatementEquations::trees))]
fn declare<'a>(alloc: Global, depth: u32, input: Input<'a>) -> Result<(Statement, Input<'a>), Fault>
    ensures { Gives (λ x. (statement_tree x.0, seen x.1)) result (declare_at depth (seen input.entry)) }
{
    let (declaration, rest) = declaration(alloc, depth, input)?;
    match front(Terminal::Semicolon, rest) {
        Some((_, rest)) => Ok((Statement::Declare { declaration }, rest)),
        None => Err(Fault::NoParse),
    }
}

// A simple statement and its semicolon.
#[tactic(auto, unfolding(crate::specs::StatementReading::act_at), using(px_syntax::proofs::StatementEquations::trees))]
fn act<'a>(alloc: Global, depth: u32, input: Input<'a>) -> Result<(Statement, Input<'a>), Fault>
    ensures { Gives (λ x. (statement_tree x.0, seen x.1)) result (act_at depth (seen input.entry)) }
{
    let (simple, rest) = simple(alloc, depth, input)?;
    match front(Terminal::Semicolon, rest) {
        Some((_, rest)) => Ok((Statement::Simple { simple }, rest)),
        None => Err(Fault::NoParse),
    }
}

/// The statements of a function's body up to the closing brace, where `depth` more may be opened.
#[tactic(auto)]
pub fn body<'a>(
    alloc: Global,
    depth: u32,
    input: Input<'a>,
) -> Result<(Vec<Statement>, Input<'a>), Fault>
    ensures { Gives (λ x. (map statement_tree x.0.items, seen x.1)) result (statements_at (length (seen input.entry)) (statement_at depth) [] (seen input.entry)) }
{
    statements(alloc, depth, input)
}
