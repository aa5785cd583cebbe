ghost use Rattle.std.specs.Prelude.{◌≡◌, List, drop, map, length, option_map, IfOk};
ghost use Rattle.px_real_expressions.specs.Lexemes.{Lexeme};
ghost use Rattle.px_real_symbols.specs.Answers.{Gives};
ghost use Rattle.px_real_symbols.specs.Symbols.{seen};
ghost use Rattle.px_real_statements.specs.Reading.{items_at, block_at, if_at, switch_at, while_at, do_at, for_at, unlabelled_of, statement_of, statement_at};
ghost use Rattle.px_real_statements.specs.StatementTree.{labelled_by};
ghost use Rattle.px_real_blocks.specs.Parts.{read_of, read_view, unread_at};
ghost use Rattle.px_real_blocks.specs.Trees.{label_tree, statement_tree};

use crate::labels::labels;
use crate::phrases::{condition, up_to};
use crate::simple::{break_word, continue_word, goto, return_value, simple};
use crate::tree::{Label, Statement};
use px_base::Site;
use px_real_expressions::Terminal;
use px_real_symbols::fault::Fault;
use px_real_symbols::fronts::front;
use px_real_symbols::held::held;
use px_real_symbols::symbol::{Tokens, first, left};
use px_terms::NoMemory;
use std::alloc::Global;

// The statement at this number, where so many may stand within one another, and the number of the token after it.
#[cycle(statement)]
fn statement(alloc: Global, on: Tokens, depth: u32, at: usize) -> Result<(Statement, usize), Fault>
    ensures { Gives (seen on.entry) (λ x. (statement_tree (seen on.entry) x.0, drop x.1 (seen on.entry))) result (statement_at depth (drop at (seen on.entry))) }
{
    if depth == 0 {
        return Err(Fault::Deep(at));
    }
    let (labels, next) = labels(alloc, on, at)?;
    let (statement, after) = unlabelled(alloc, on, depth - 1, next)?;
    let statement = labelled(alloc, labels, statement)?;
    Ok((statement, after))
}

// A statement without its labels, where so many may stand within it.
#[cycle(statement)]
#[tactic(auto, unfolding(px_real_statements::specs::Reading::unlabelled_of), using(crate::proofs::StatementEquations::trees))]
fn unlabelled(alloc: Global, on: Tokens, depth: u32, at: usize) -> Result<(Statement, usize), Fault>
    ensures { Gives (seen on.entry) (λ x. (statement_tree (seen on.entry) x.0, drop x.1 (seen on.entry))) result (unlabelled_of (statement_at depth) (drop at (seen on.entry))) }
{
    let Some((symbol, next)) = first(on, at) else {
        return Err(Fault::Wrong(at));
    };
    let site = symbol.site;
    match symbol.terminal {
        Terminal::Semicolon => Ok((Statement::Empty, next)),
        Terminal::OpenBrace => block(alloc, on, depth, next),
        Terminal::If => choice(alloc, on, depth, site, next),
        Terminal::Switch => switch(alloc, on, depth, site, next),
        Terminal::While => while_loop(alloc, on, depth, site, next),
        Terminal::Do => do_loop(alloc, on, depth, site, next),
        Terminal::For => for_loop(alloc, on, depth, site, next),
        Terminal::Goto => goto(alloc, on, site, next),
        Terminal::Break => break_word(on, site, next),
        Terminal::Continue => continue_word(on, site, next),
        Terminal::Return => return_value(alloc, on, site, next),
        _ => simple(alloc, on, at),
    }
}

// A statement with labels before it, if there are some.
#[tactic(auto, using(crate::proofs::StatementEquations::trees))]
fn labelled(alloc: Global, labels: Vec<Label>, statement: Statement) -> Result<Statement, NoMemory>
    ensures { IfOk result (λ s. (all : List Lexeme) → statement_tree all s ≡ labelled_by (map (label_tree all) labels.items) (statement_tree all statement)) }
{
    if labels.is_empty() {
        return Ok(statement);
    }
    let statement = Box::new(alloc, statement)?;
    Ok(Statement::Labelled { labels, statement })
}

// What follows an opening brace that is a statement.
#[cycle(statement)]
#[tactic(auto, unfolding(px_real_statements::specs::Reading::block_at, px_real_expressions::specs::Reading::closed_at), using(crate::proofs::StatementEquations::trees))]
fn block(alloc: Global, on: Tokens, depth: u32, at: usize) -> Result<(Statement, usize), Fault>
    ensures { Gives (seen on.entry) (λ x. (statement_tree (seen on.entry) x.0, drop x.1 (seen on.entry))) result (block_at (statement_at depth) (drop at (seen on.entry))) }
{
    let (statements, next) = items(alloc, on, depth, at)?;
    match front(Terminal::CloseBrace, on, next) {
        Some((_, after)) => Ok((Statement::Block { statements }, after)),
        None => Err(Fault::Wrong(next)),
    }
}

// The statements up to a closing brace, and its number; where one isn't read, all up to the brace is one.
#[cycle(statement)]
pub fn items(
    alloc: Global,
    on: Tokens,
    depth: u32,
    start: usize,
) -> Result<(Vec<Statement>, usize), Fault>
    ensures { Gives (seen on.entry) (λ x. (map (statement_tree (seen on.entry)) x.0.items, drop x.1 (seen on.entry))) result (items_at (length (drop start (seen on.entry))) (statement_at depth) (drop start (seen on.entry))) }
{
    let mut all = Vec::new(alloc);
    let mut at = start;
    for _ in 0..left(on, start) {
        if let Some(_) = front(Terminal::CloseBrace, on, at) {
            return Ok((all, at));
        }
        let Some((next, after)) = some_statement(alloc, on, depth, at)? else {
            let (last, after) = unread(alloc, on, at)?;
            all.push(last)?;
            return Ok((all, after));
        };
        all.push(next)?;
        at = after;
    }
    Ok((all, at))
}

// The statement at this number, if one is read there, and the number of the token after it.
#[cycle(statement)]
fn some_statement(
    alloc: Global,
    on: Tokens,
    depth: u32,
    at: usize,
) -> Result<Option<(Statement, usize)>, NoMemory>
    ensures { IfOk result (λ o. option_map (read_view (seen on.entry)) o ≡ read_of (statement_at depth (drop at (seen on.entry)))) }
{
    match statement(alloc, on, depth, at) {
        Ok(read) => Ok(Some(read)),
        Err(Fault::NoMemory) => Err(NoMemory),
        Err(Fault::Wrong(_)) => Ok(None),
        Err(Fault::Deep(_)) => Ok(None),
    }
}

// What begins with no statement, up to a closing brace, and the number of that.
#[tactic(auto, unfolding(crate::specs::Parts::unread_at), using(crate::proofs::StatementEquations::trees))]
fn unread(alloc: Global, on: Tokens, at: usize) -> Result<(Statement, usize), Fault>
    ensures { Gives (seen on.entry) (λ x. (statement_tree (seen on.entry) x.0, drop x.1 (seen on.entry))) result (unread_at (drop at (seen on.entry))) }
{
    let (tokens, next) = held(alloc, Terminal::CloseBrace, on, at)?;
    match front(Terminal::CloseBrace, on, next) {
        Some(_) => Ok((Statement::Unread { tokens }, next)),
        None => Err(Fault::Wrong(next)),
    }
}

// What follows an `if`.
#[cycle(statement)]
#[tactic(auto, unfolding(px_real_statements::specs::Reading::if_at), using(crate::proofs::StatementEquations::trees))]
fn choice(
    alloc: Global,
    on: Tokens,
    depth: u32,
    site: Site,
    at: usize,
) -> Result<(Statement, usize), Fault>
    ensures { Gives (seen on.entry) (λ x. (statement_tree (seen on.entry) x.0, drop x.1 (seen on.entry))) result (if_at (statement_at depth) site (drop at (seen on.entry))) }
{
    let (condition, next) = condition(alloc, on, at)?;
    let (then, after) = statement(alloc, on, depth, next)?;
    let then = Box::new(alloc, then)?;
    let Some((_, next)) = front(Terminal::Else, on, after) else {
        return Ok((
            Statement::If {
                site,
                condition,
                then,
            },
            after,
        ));
    };
    let (other, after) = statement(alloc, on, depth, next)?;
    let other = Box::new(alloc, other)?;
    Ok((
        Statement::IfElse {
            site,
            condition,
            then,
            other,
        },
        after,
    ))
}

// What follows a `switch`.
#[cycle(statement)]
#[tactic(auto, unfolding(px_real_statements::specs::Reading::switch_at), using(crate::proofs::StatementEquations::trees))]
fn switch(
    alloc: Global,
    on: Tokens,
    depth: u32,
    site: Site,
    at: usize,
) -> Result<(Statement, usize), Fault>
    ensures { Gives (seen on.entry) (λ x. (statement_tree (seen on.entry) x.0, drop x.1 (seen on.entry))) result (switch_at (statement_at depth) site (drop at (seen on.entry))) }
{
    let (value, next) = condition(alloc, on, at)?;
    let (body, after) = statement(alloc, on, depth, next)?;
    let body = Box::new(alloc, body)?;
    Ok((Statement::Switch { site, value, body }, after))
}

// What follows a `while` that begins a loop.
#[cycle(statement)]
#[tactic(auto, unfolding(px_real_statements::specs::Reading::while_at), using(crate::proofs::StatementEquations::trees))]
fn while_loop(
    alloc: Global,
    on: Tokens,
    depth: u32,
    site: Site,
    at: usize,
) -> Result<(Statement, usize), Fault>
    ensures { Gives (seen on.entry) (λ x. (statement_tree (seen on.entry) x.0, drop x.1 (seen on.entry))) result (while_at (statement_at depth) site (drop at (seen on.entry))) }
{
    let (condition, next) = condition(alloc, on, at)?;
    let (body, after) = statement(alloc, on, depth, next)?;
    let body = Box::new(alloc, body)?;
    Ok((
        Statement::While {
            site,
            condition,
            body,
        },
        after,
    ))
}

// What follows a `do`.
#[cycle(statement)]
#[tactic(auto, unfolding(px_real_statements::specs::Reading::do_at), using(crate::proofs::StatementEquations::trees))]
fn do_loop(
    alloc: Global,
    on: Tokens,
    depth: u32,
    site: Site,
    at: usize,
) -> Result<(Statement, usize), Fault>
    ensures { Gives (seen on.entry) (λ x. (statement_tree (seen on.entry) x.0, drop x.1 (seen on.entry))) result (do_at (statement_at depth) site (drop at (seen on.entry))) }
{
    let (body, next) = statement(alloc, on, depth, at)?;
    let Some((_, inner)) = front(Terminal::While, on, next) else {
        return Err(Fault::Wrong(next));
    };
    let (condition, last) = condition(alloc, on, inner)?;
    let Some((_, after)) = front(Terminal::Semicolon, on, last) else {
        return Err(Fault::Wrong(last));
    };
    let body = Box::new(alloc, body)?;
    Ok((
        Statement::Do {
            site,
            body,
            condition,
        },
        after,
    ))
}

// What follows a `for`.
#[cycle(statement)]
#[tactic(auto, unfolding(px_real_statements::specs::Reading::for_at), using(crate::proofs::StatementEquations::trees))]
fn for_loop(
    alloc: Global,
    on: Tokens,
    depth: u32,
    site: Site,
    at: usize,
) -> Result<(Statement, usize), Fault>
    ensures { Gives (seen on.entry) (λ x. (statement_tree (seen on.entry) x.0, drop x.1 (seen on.entry))) result (for_at (statement_at depth) site (drop at (seen on.entry))) }
{
    let Some((_, inner)) = front(Terminal::OpenParenthesis, on, at) else {
        return Err(Fault::Wrong(at));
    };
    let (first, next) = up_to(alloc, Terminal::Semicolon, on, inner)?;
    let (condition, next) = up_to(alloc, Terminal::Semicolon, on, next)?;
    let (step, next) = up_to(alloc, Terminal::CloseParenthesis, on, next)?;
    let (body, after) = statement(alloc, on, depth, next)?;
    let body = Box::new(alloc, body)?;
    Ok((
        Statement::For {
            site,
            first,
            condition,
            step,
            body,
        },
        after,
    ))
}
