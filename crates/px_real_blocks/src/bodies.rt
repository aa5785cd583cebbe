ghost use Rattle.std.specs.Prelude.{◌≡◌, false, map, drop, IfOk, IsErrOf, List, []};
ghost use Rattle.px_real_expressions.specs.Grammar.{Between, IsHeld};
ghost use Rattle.px_real_expressions.specs.Lexemes.{Lexeme};
ghost use Rattle.px_real_expressions.specs.declared.terminal.Terminal.TheVariants.{OpenBrace, CloseBrace};
ghost use Rattle.px_real_symbols.specs.Answers.{Gives};
ghost use Rattle.px_real_symbols.specs.Symbols.{seen, lexemes};
ghost use Rattle.px_real_blocks.specs.Parts.{nesting_limit, no_types, IsBracedBody, nothing_left, braced_at};
ghost use Rattle.px_real_blocks.specs.Trees.{statement_tree};
ghost use Rattle.px_real_blocks.specs.declared.bodies.BodyFault.TheVariants.{NotBraced, NoMemory};

use crate::statements::items;
use crate::tree::Statement;
use px_real_expressions::Terminal;
use px_real_symbols::TypeNames;
use px_real_symbols::fault::Fault;
use px_real_symbols::fronts::front;
use px_real_symbols::symbol::{Tokens, symbols};
use px_real_tokens::Token;
use px_terms::NoMemory as OutOfMemory;
use std::alloc::Global;
use thiserror::Error;

// How many statements may stand within one another.
const NESTING_LIMIT: u32 = 200;

/// Why a body isn't read.
#[derive(Clone, Copy, Debug, PartialEq, Eq, Error)]
pub enum BodyFault {
    /// It isn't one pair of braces, between which brackets match.
    #[error("this is no body of a function")]
    NotBraced,
    /// There is no memory for the trees.
    #[error("out of memory")]
    NoMemory,
}

impl From<OutOfMemory> for BodyFault {
    ghost from_gives = { λ _ e. e ≡ NoMemory };

    fn from(_error: OutOfMemory) -> BodyFault {
        BodyFault::NoMemory
    }
}

// No word is the name of a type.
struct NoTypes;

impl TypeNames for NoTypes {
    ghost named = { λ _ word. false };

    fn is_type(&self, _word: &[u8]) -> bool {
        false
    }
}

// These statements, where nothing is left.
fn nothing_left(on: Tokens, statements: Vec<Statement>, at: usize) -> Result<Vec<Statement>, Fault>
    ensures { Gives (seen on.entry) (λ ss. (map (statement_tree (seen on.entry)) ss.items, [])) result (nothing_left (map (statement_tree (seen on.entry)) statements.items) (drop at (seen on.entry))) }
{
    if at < on.symbols.len() {
        return Err(Fault::Wrong(at));
    }
    Ok(statements)
}

// What all that is read has between its braces.
#[tactic(auto, unfolding(crate::specs::Parts::braced_at, px_real_statements::specs::Reading::body_at))]
fn braced(alloc: Global, on: Tokens) -> Result<Vec<Statement>, Fault>
    ensures { Gives (seen on.entry) (λ ss. (map (statement_tree (seen on.entry)) ss.items, [])) result (braced_at nesting_limit (seen on.entry)) }
{
    let Some((_, inner)) = front(Terminal::OpenBrace, on, 0) else {
        return Err(Fault::Wrong(0));
    };
    let (statements, next) = items(alloc, on, NESTING_LIMIT, inner)?;
    let Some((_, after)) = front(Terminal::CloseBrace, on, next) else {
        return Err(Fault::Wrong(next));
    };
    nothing_left(on, statements, after)
}

// The same, with faults as callers see them.
#[tactic(auto, using(crate::proofs::BodyLemmas::braced_is))]
fn read(alloc: Global, on: Tokens) -> Result<Vec<Statement>, BodyFault>
    ensures found { IfOk result (λ ss. IsBracedBody (seen on.entry) (map (statement_tree (seen on.entry)) ss.items)) }
    ensures unbraced { IsErrOf result NotBraced → (o : Lexeme) (a : List Lexeme) → Between OpenBrace CloseBrace IsHeld (seen on.entry) o a → ⊥ }
{
    match braced(alloc, on) {
        Ok(statements) => Ok(statements),
        Err(Fault::Wrong(_)) => Err(BodyFault::NotBraced),
        Err(Fault::Deep(_)) => Err(BodyFault::NotBraced),
        Err(Fault::NoMemory) => Err(BodyFault::NoMemory),
    }
}

/// The statements of a function's body; these tokens are the body, with its braces. What is held in the trees is numbered as the
/// tokens are.
///
/// A statement that isn't read costs what stands behind it in its block. Which words are names of types makes no difference.
pub fn body_of(alloc: Global, source: &[u8], tokens: &[Token]) -> Result<Vec<Statement>, BodyFault>
    // What is given is the body of the grammar.
    ensures found { IfOk result (λ ss. IsBracedBody (lexemes no_types source.now tokens.now) (map (statement_tree (lexemes no_types source.now tokens.now)) ss.items)) }
    // Where they are said to be no body, they aren't braces around brackets that match.
    ensures unbraced { IsErrOf result NotBraced → (o : Lexeme) (a : List Lexeme) → Between OpenBrace CloseBrace IsHeld (lexemes no_types source.now tokens.now) o a → ⊥ }
{
    let symbols = symbols(alloc, source, &NoTypes, tokens)?;
    let on = Tokens {
        source,
        symbols: &symbols,
    };
    read(alloc, on)
}
