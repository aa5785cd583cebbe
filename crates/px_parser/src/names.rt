ghost use Rattle.std.specs.Prelude.{◌≡◌, List, ℕ, None, IfOk, IfSome, IfNone};
ghost use Rattle.px_lexer.specs.declared.token.Token.{Token as SpecToken};
ghost use Rattle.px_lexer.specs.Lent.{as_tokens};
ghost use Rattle.px_parser.specs.Names.{is_parenthesis, before_first, IsFunctionName};
ghost use Rattle.px_parser.specs.Existence.{SomeName};

use px_cutting::is_function_shaped;
use px_expressions::text;
use px_lexer::{Punctuator, Token, TokenKind, TokenSlice};
use px_syntax::Name;
use px_terms::NoMemory as OutOfMemory;
use std::alloc::Global;

// Whether the token is a `(`.
fn is_parenthesis(kind: TokenKind) -> bool
    ensures { result ≡ is_parenthesis kind }
{
    match kind {
        TokenKind::Punctuator(Punctuator::OpenParenthesis) => true,
        _ => false,
    }
}

// The token before the first `(`.
fn before_parenthesis(tokens: TokenSlice) -> Option<Token>
    ensures { result ≡ before_first None (as_tokens tokens.entry) }
{
    let mut last = None;
    for i in 0..tokens.len() {
        let token = tokens.at(i);
        if is_parenthesis(token.kind()) {
            return last;
        }
        last = Some(token.token());
    }
    None
}

/// The name of an item of the shape of a function, whose tokens these are and whose bytes are those of the
/// source: the word directly before its first `(`, where a word stands there. The item needs no tree.
pub fn function_name(
    alloc: Global,
    source: &[u8],
    tokens: TokenSlice,
) -> Result<Option<Name>, OutOfMemory>
    ensures named { IfOk result (λ r. IfSome r (λ name. IsFunctionName source.now (as_tokens tokens.entry) name)) }
    ensures unnamed { IfOk result (λ r. IfNone r ((name : List ℕ) → IsFunctionName source.now (as_tokens tokens.entry) name → ⊥)) }
{
    if !is_function_shaped(alloc, tokens)? {
        return Ok(None);
    }
    match before_parenthesis(tokens) {
        Some(token) => match token.kind {
            TokenKind::Word => {
                let name = Name::from_slice(alloc, text(source, token.start, token.end))?;
                Ok(Some(name))
            }
            _ => Ok(None),
        },
        None => Ok(None),
    }
}

/// Tokens have a name, or there is none.
pub fn some_name()
    ensures { SomeName }
{}

/// An item has at most one name.
pub fn one_name()
    ensures { (source : List ℕ) (ts : List SpecToken) (a b : List ℕ) → IsFunctionName source ts a → IsFunctionName source ts b → a ≡ b }
{}
