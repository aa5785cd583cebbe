ghost use Rattle.std.specs.Prelude.{◌≡◌, ◌==◌, ◌∷◌, [], length, IfOk, IfSome, IfNone};
ghost use Rattle.px_lexer.specs.Lent.{as_tokens};
ghost use Rattle.px_expressions.specs.Lexemes.{text_of, lexemes, see, seen};

use crate::terminal::Terminal;
use crate::words::terminal_of;
use px_base::Site;
use px_lexer::TokenSlice;
use px_syntax::Name;
use px_terms::NoMemory;
use std::alloc::Global;

/// A token as the grammar sees it. Its text is the bytes of the source from `start` up to `end`.
#[derive(Clone, Copy)]
pub struct Symbol {
    pub terminal: Terminal,
    pub site: Site,
    pub start: u32,
    pub end: u32,
}

/// Tokens to be read, the terminal that the first of them is, and the source that has their texts.
#[derive(Clone, Copy)]
pub struct Input<'a> {
    pub source: &'a [u8],
    pub terminal: Terminal,
    tokens: TokenSlice<'a>,
}

impl<'a> Input<'a> {
    /// All of the tokens.
    pub fn new(source: &'a [u8], tokens: TokenSlice<'a>) -> Input<'a>
        ensures same_source { result.source.now ≡ source.now }
        ensures reads { seen result ≡ lexemes source.now (as_tokens tokens.entry) }
    {
        let terminal = match tokens.split_first() {
            Some((token, _)) => {
                terminal_of(text(source, token.start(), token.end()), token.kind())
            }
            None => Terminal::Outside,
        };
        Input {
            source,
            terminal,
            tokens,
        }
    }

    /// How many tokens there are.
    #[tactic(auto, using(crate::proofs::Loops::led_length))]
    pub fn len(self) -> usize
        ensures { result ≡ length (seen self.entry) }
    {
        self.tokens.len()
    }

    /// Whether there are no tokens.
    #[tactic(auto, using(crate::proofs::Loops::led_length))]
    pub fn is_empty(self) -> bool
        ensures { result ≡ (length (seen self.entry) == 0) }
    {
        self.tokens.is_empty()
    }

    /// The first token as a symbol, and those after it.
    pub fn first(self) -> Option<(Symbol, TokenSlice<'a>)>
        ensures some { IfSome result (λ x. seen self.entry ≡ see self.entry.source.now x.0 ∷ lexemes self.entry.source.now (as_tokens x.1)) }
        ensures none { IfNone result (seen self.entry ≡ []) }
    {
        let (token, rest) = self.tokens.split_first()?;
        let symbol = Symbol {
            terminal: self.terminal,
            site: token.site(),
            start: token.start(),
            end: token.end(),
        };
        Some((symbol, rest))
    }
}

/// The bytes of a source from a start up to an end.
pub fn text(source: &[u8], start: u32, end: u32) -> &[u8]
    ensures { result.now ≡ text_of source.now start end }
{
    let end = source.len().min(end as usize);
    let start = end.min(start as usize);
    &source[start..end]
}

/// The text of a symbol, as a name.
pub fn name(alloc: Global, source: &[u8], symbol: Symbol) -> Result<Name, NoMemory>
    ensures { IfOk result (λ n. n ≡ text_of source.now symbol.start symbol.end) }
{
    Name::from_slice(alloc, text(source, symbol.start, symbol.end))
}
