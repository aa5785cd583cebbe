ghost use Rattle.std.specs.Prelude.{◌≡◌, ℕ, IfOk, IsErrOf};
ghost use Rattle.px_real_expressions.specs.Grammar.{IsExpression};
ghost use Rattle.px_real_symbols.specs.Answers.{Gives};
ghost use Rattle.px_real_symbols.specs.Symbols.{lexemes, seen};
ghost use Rattle.px_real_reading.specs.Faults.{whole_at, nesting_limit, GoesWrong, NestsTooDeep};
ghost use Rattle.px_real_reading.specs.Trees.{expression_tree};
ghost use Rattle.px_real_reading.specs.declared.reading.ExpressionFault.TheVariants.{NotAnExpression, Deep, NoMemory};

use crate::expressions;
use crate::tree::Expression;
use px_real_symbols::fault::Fault;
use px_real_symbols::symbol::{Tokens, TypeNames, symbols};
use px_real_tokens::Token;
use px_terms::NoMemory as OutOfMemory;
use std::alloc::Global;
use thiserror::Error;

// How many brackets, operators before their operands, choices and assignments may stand within one another. At the most operators
// between two of them, so many take some two megabytes of the stack.
const NESTING_LIMIT: u32 = 200;

/// Why tokens have no tree.
#[derive(Clone, Copy, Debug, PartialEq, Eq, Error)]
pub enum ExpressionFault {
    /// They are no expression. The number is that of the token at which reading from left to right stops, or how many there are
    /// where it stops at their end.
    #[error("this is no expression")]
    NotAnExpression(usize),
    /// They are no expression that nests no deeper than expressions are read: reading stops at the token with this number, which
    /// would be one more that is opened, or would begin what is.
    #[error("the expression nests too deep")]
    Deep(usize),
    /// There is no memory for the tree.
    #[error("out of memory")]
    NoMemory,
}

impl From<OutOfMemory> for ExpressionFault {
    ghost from_gives = { λ _ e. e ≡ NoMemory };

    fn from(_error: OutOfMemory) -> ExpressionFault {
        ExpressionFault::NoMemory
    }
}

// The tree of all that is read.
fn whole(alloc: Global, on: Tokens) -> Result<Expression, Fault>
    ensures { Gives (seen on.entry) (expression_tree (seen on.entry)) result (whole_at nesting_limit (seen on.entry)) }
{
    let (tree, next) = expressions::expression(alloc, on, NESTING_LIMIT, 0)?;
    if next < on.symbols.len() {
        return Err(Fault::Wrong(next));
    }
    Ok(tree)
}

// The same, with faults as callers see them.
#[tactic(auto, using(crate::proofs::WholeLemmas::goes_wrong, crate::proofs::WholeLemmas::nests_too_deep, crate::proofs::Deeper::whole_is))]
fn read(alloc: Global, on: Tokens) -> Result<Expression, ExpressionFault>
    ensures found { IfOk result (λ e. IsExpression nesting_limit (seen on.entry) (expression_tree (seen on.entry) e)) }
    ensures wrong { (at : ℕ) → IsErrOf result (NotAnExpression at) → GoesWrong at (seen on.entry) }
    ensures deep { (at : ℕ) → IsErrOf result (Deep at) → NestsTooDeep at (seen on.entry) }
{
    match whole(alloc, on) {
        Ok(tree) => Ok(tree),
        Err(Fault::Wrong(at)) => {
            let at = at.min(on.symbols.len());
            Err(ExpressionFault::NotAnExpression(at))
        }
        Err(Fault::Deep(at)) => {
            let at = at.min(on.symbols.len());
            Err(ExpressionFault::Deep(at))
        }
        Err(Fault::NoMemory) => Err(ExpressionFault::NoMemory),
    }
}

/// The expression that these tokens are, all of them; `types` says which words are names of types where it stands. What is held
/// in the tree is numbered as the tokens are.
///
/// Reading goes from left to right and never back, and takes time linear in the tokens. Chains of operators, suffixes and
/// arguments may be as long as they like; only what nests takes stack.
pub fn expression_of<T: TypeNames>(
    alloc: Global,
    source: &[u8],
    tokens: &[Token],
    types: &T,
) -> Result<Expression, ExpressionFault>
    // What is given is the tree of the grammar.
    ensures found { IfOk result (λ e. IsExpression nesting_limit (lexemes (T.named types.now) source.now tokens.now) (expression_tree (lexemes (T.named types.now) source.now tokens.now) e)) }
    // Where they are said to be no expression they are none, and reading stops at this token.
    ensures wrong { (at : ℕ) → IsErrOf result (NotAnExpression at) → GoesWrong at (lexemes (T.named types.now) source.now tokens.now) }
    // Where they are said to nest too deep they do, and reading stops at this token.
    ensures deep { (at : ℕ) → IsErrOf result (Deep at) → NestsTooDeep at (lexemes (T.named types.now) source.now tokens.now) }
{
    let symbols = symbols(alloc, source, types, tokens)?;
    let on = Tokens {
        source,
        symbols: &symbols,
    };
    read(alloc, on)
}
