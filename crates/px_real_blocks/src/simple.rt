ghost use Rattle.std.specs.Prelude.{◌≡◌, drop};
ghost use Rattle.px_real_symbols.specs.Answers.{Gives};
ghost use Rattle.px_real_symbols.specs.Symbols.{seen};
ghost use Rattle.px_real_statements.specs.Reading.{goto_at, return_at, word_at, simple_at};
ghost use Rattle.px_real_statements.specs.Grammar.{begins_simple};
ghost use Rattle.px_real_statements.specs.StatementTree as Tree;
ghost use Rattle.px_real_blocks.specs.Trees.{statement_tree};

use crate::phrases::up_to;
use crate::tree::Statement;
use px_base::Site;
use px_real_expressions::Terminal;
use px_real_symbols::fault::Fault;
use px_real_symbols::fronts::front;
use px_real_symbols::symbol::{Tokens, first};
use std::alloc::Global;

// Whether a declaration or an expression begins with it.
fn begins_simple(terminal: Terminal) -> bool
    ensures { result ≡ begins_simple terminal }
{
    match terminal {
        Terminal::If
        | Terminal::Else
        | Terminal::Switch
        | Terminal::While
        | Terminal::Do
        | Terminal::For
        | Terminal::Goto
        | Terminal::Break
        | Terminal::Continue
        | Terminal::Return
        | Terminal::Case
        | Terminal::Default => false,
        Terminal::OpenBrace
        | Terminal::CloseBrace
        | Terminal::CloseParenthesis
        | Terminal::CloseBracket
        | Terminal::Question
        | Terminal::Colon
        | Terminal::Semicolon => false,
        _ => true,
    }
}

// A declaration or an expression, and its semicolon.
#[tactic(auto, unfolding(px_real_statements::specs::Reading::simple_at), using(crate::proofs::StatementEquations::trees))]
pub fn simple(alloc: Global, on: Tokens, at: usize) -> Result<(Statement, usize), Fault>
    ensures { Gives (seen on.entry) (λ x. (statement_tree (seen on.entry) x.0, drop x.1 (seen on.entry))) result (simple_at (drop at (seen on.entry))) }
{
    let Some((symbol, _)) = first(on, at) else {
        return Err(Fault::Wrong(at));
    };
    if !begins_simple(symbol.terminal) {
        return Err(Fault::Wrong(at));
    }
    let (tokens, after) = up_to(alloc, Terminal::Semicolon, on, at)?;
    Ok((Statement::Simple { tokens }, after))
}

// What follows the word `goto`.
#[tactic(auto, unfolding(px_real_statements::specs::Reading::goto_at), using(crate::proofs::StatementEquations::trees))]
pub fn goto(alloc: Global, on: Tokens, site: Site, at: usize) -> Result<(Statement, usize), Fault>
    ensures { Gives (seen on.entry) (λ x. (statement_tree (seen on.entry) x.0, drop x.1 (seen on.entry))) result (goto_at site (drop at (seen on.entry))) }
{
    let (target, after) = up_to(alloc, Terminal::Semicolon, on, at)?;
    Ok((Statement::Goto { site, target }, after))
}

// What follows the word `return`.
#[tactic(auto, unfolding(px_real_statements::specs::Reading::return_at), using(crate::proofs::StatementEquations::trees))]
pub fn return_value(
    alloc: Global,
    on: Tokens,
    site: Site,
    at: usize,
) -> Result<(Statement, usize), Fault>
    ensures { Gives (seen on.entry) (λ x. (statement_tree (seen on.entry) x.0, drop x.1 (seen on.entry))) result (return_at site (drop at (seen on.entry))) }
{
    let (value, after) = up_to(alloc, Terminal::Semicolon, on, at)?;
    Ok((Statement::Return { site, value }, after))
}

// What follows the word `break`.
#[tactic(auto, unfolding(px_real_statements::specs::Reading::word_at), using(crate::proofs::StatementEquations::trees))]
pub fn break_word(on: Tokens, site: Site, at: usize) -> Result<(Statement, usize), Fault>
    ensures { Gives (seen on.entry) (λ x. (statement_tree (seen on.entry) x.0, drop x.1 (seen on.entry))) result (word_at (Tree.break site) (drop at (seen on.entry))) }
{
    match front(Terminal::Semicolon, on, at) {
        Some((_, after)) => Ok((Statement::Break { site }, after)),
        None => Err(Fault::Wrong(at)),
    }
}

// What follows the word `continue`.
#[tactic(auto, unfolding(px_real_statements::specs::Reading::word_at), using(crate::proofs::StatementEquations::trees))]
pub fn continue_word(on: Tokens, site: Site, at: usize) -> Result<(Statement, usize), Fault>
    ensures { Gives (seen on.entry) (λ x. (statement_tree (seen on.entry) x.0, drop x.1 (seen on.entry))) result (word_at (Tree.continue site) (drop at (seen on.entry))) }
{
    match front(Terminal::Semicolon, on, at) {
        Some((_, after)) => Ok((Statement::Continue { site }, after)),
        None => Err(Fault::Wrong(at)),
    }
}
