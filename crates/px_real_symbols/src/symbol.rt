ghost use Rattle.std.specs.Prelude.{◌≡◌, List, ℕ, Bool, length, map, drop, option_map, IfOk};
ghost use Rattle.px_expressions.specs.Lexemes.{text_of};
ghost use Rattle.px_real_symbols.specs.Words.{terminal_of};
ghost use Rattle.px_real_symbols.specs.Symbols.{lexeme, lexemes, see, seen, first};

use crate::words::{keyword_of, punctuator_terminal, value_of};
use px_base::Site;
use px_expressions::text;
use px_real_expressions::Terminal;
use px_real_tokens::{Token, TokenKind};
use px_syntax::Name;
use px_terms::NoMemory;
use std::alloc::Global;

/// Which words are names of types, by the declarations in scope.
pub trait TypeNames {
    /// Whether a word is one.
    ghost named: { Self → List ℕ → Bool };

    /// Whether this word is one.
    fn is_type(&self, word: &[u8]) -> bool
        ensures { result ≡ named self.now word.now };
}

/// A token as the grammar sees it. Its text is the bytes of the source from `start` up to `end`.
#[derive(Clone, Copy)]
pub struct Symbol {
    pub terminal: Terminal,
    pub site: Site,
    pub start: u32,
    pub end: u32,
    pub value: Option<u32>,
}

/// All that is read, and the source that has the texts.
#[derive(Clone, Copy)]
pub struct Tokens<'a> {
    pub source: &'a [u8],
    pub symbols: &'a [Symbol],
}

// The terminal that a token of this kind and text is.
fn terminal_of<T: TypeNames>(types: &T, text: &[u8], kind: TokenKind) -> Terminal
    ensures { result ≡ terminal_of (T.named types.now) text.now kind }
{
    match kind {
        TokenKind::Word => match keyword_of(text) {
            Some(terminal) => terminal,
            None => {
                if types.is_type(text) {
                    Terminal::TypeName
                } else {
                    Terminal::Name
                }
            }
        },
        TokenKind::Number(_) | TokenKind::Character(_) => Terminal::Constant,
        TokenKind::String => Terminal::String,
        TokenKind::Punctuator(punctuator) => punctuator_terminal(punctuator),
        TokenKind::Hash | TokenKind::HashHash => Terminal::Outside,
    }
}

// A token as the grammar sees it.
fn as_symbol<T: TypeNames>(source: &[u8], types: &T, token: Token) -> Symbol
    ensures { see source.now result ≡ lexeme (T.named types.now) source.now token }
{
    let word = text(source, token.start, token.end);
    Symbol {
        terminal: terminal_of(types, word, token.kind),
        site: token.site,
        start: token.start,
        end: token.end,
        value: value_of(token.kind),
    }
}

/// The tokens as the grammar sees them.
pub fn symbols<T: TypeNames>(
    alloc: Global,
    source: &[u8],
    types: &T,
    tokens: &[Token],
) -> Result<Vec<Symbol>, NoMemory>
    ensures { IfOk result (λ symbols. map (see source.now) symbols.items ≡ lexemes (T.named types.now) source.now tokens.now) }
{
    let mut symbols = Vec::new(alloc);
    for &token in tokens {
        symbols.push(as_symbol(source, types, token))?;
    }
    Ok(symbols)
}

/// The symbol with this number, and the number of the next.
pub fn first(on: Tokens, at: usize) -> Option<(Symbol, usize)>
    ensures { option_map (λ x. (see on.entry.source.now x.0, drop x.1 (seen on.entry))) result ≡ first (drop at (seen on.entry)) }
{
    if at < on.symbols.len() {
        Some((on.symbols[at], at + 1))
    } else {
        None
    }
}

/// How many tokens there are from this number on.
pub fn left(on: Tokens, at: usize) -> usize
    ensures { result ≡ length (drop at (seen on.entry)) }
{
    on.symbols.len().saturating_sub(at)
}

/// The text of a symbol, as a name.
pub fn name(alloc: Global, on: Tokens, symbol: Symbol) -> Result<Name, NoMemory>
    ensures { IfOk result (λ n. n ≡ text_of on.entry.source.now symbol.start symbol.end) }
{
    Name::from_slice(alloc, text(on.source, symbol.start, symbol.end))
}
