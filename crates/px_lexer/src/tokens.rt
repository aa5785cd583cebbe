ghost use Rattle.std.specs.Prelude.{◌≡◌, ◌==◌, ◌+◌, ◌-◌, ◌<◌, ◌≤◌, ◌∷◌, [], take, drop, length, get_or, IfSome, IfNone};
ghost use Rattle.px_lexer.specs.declared.token.Token.{Token as SpecToken};
ghost use Rattle.px_lexer.specs.Lent.{as_token, as_tokens};

use crate::kept::KeptToken;
use crate::places::Lines;
use crate::token::{Token, TokenKind};
use px_base::Site;
use std::marker::Model;

/// The tokens of a source, in order. Contracts see the list of them.
///
/// Each takes 12 bytes: its site is worked out from the lines of the source where it is asked for, of which the one is
/// looked at first that the token most often stands on.
#[derive(Drop)]
pub struct Tokens {
    pub(crate) lines: Lines,
    pub(crate) kept: Vec<KeptToken>,
}

impl Model for Tokens {
    ghost use Rattle.std.specs.Prelude.{List};
    ghost use Rattle.px_lexer.specs.declared.token.Token.{Token};
    ghost use Rattle.px_lexer.specs.Kept.{all_on_lines};

    ghost Value = { List Token };

    ghost view = { λ t. all_on_lines t.lines.file t.lines.starts.items t.kept.items };
}

/// Tokens that stand side by side in a source, lent. Contracts see the list of them, by `as_tokens`.
#[derive(Clone, Copy)]
pub struct TokenSlice<'a> {
    lines: &'a Lines,
    kept: &'a [KeptToken],
}

/// A token of a source, lent. Contracts see the token, by `as_token`.
#[derive(Clone, Copy)]
pub struct LentToken<'a> {
    lines: &'a Lines,
    kept: KeptToken,
}

impl Tokens {
    /// All of the tokens.
    pub fn as_slice(&self) -> TokenSlice<'_>
        ensures { as_tokens result ≡ self.now }
    {
        TokenSlice {
            lines: &self.lines,
            kept: &self.kept,
        }
    }
}

impl<'a> TokenSlice<'a> {
    /// How many tokens there are.
    pub fn len(self) -> usize
        ensures { result ≡ length (as_tokens self.entry) }
    {
        self.kept.len()
    }

    /// Whether there are no tokens.
    pub fn is_empty(self) -> bool
        ensures { result ≡ (length (as_tokens self.entry) == 0) }
    {
        self.kept.is_empty()
    }

    /// The token with this number.
    pub fn at(self, index: usize) -> LentToken<'a>
        requires { index < length (as_tokens self) }
        ensures token { (d : SpecToken) → as_token result ≡ get_or (as_tokens self.entry) index d }
        ensures behind { drop index (as_tokens self.entry) ≡ as_token result ∷ drop (index + 1) (as_tokens self.entry) }
    {
        LentToken {
            lines: self.lines,
            kept: self.kept[index],
        }
    }

    /// The tokens after so many.
    pub fn skip(self, count: usize) -> TokenSlice<'a>
        requires { count ≤ length (as_tokens self) }
        ensures { as_tokens result ≡ drop count (as_tokens self.entry) }
    {
        TokenSlice {
            lines: self.lines,
            kept: &self.kept[count..],
        }
    }

    /// The tokens from one number up to another.
    pub fn range(self, first: usize, after: usize) -> TokenSlice<'a>
        requires order { first ≤ after }
        requires within { after ≤ length (as_tokens self) }
        ensures { as_tokens result ≡ take (after - first) (drop first (as_tokens self.entry)) }
    {
        TokenSlice {
            lines: self.lines,
            kept: &self.kept[first..after],
        }
    }

    /// The first token, and those after it.
    pub fn split_first(self) -> Option<(LentToken<'a>, TokenSlice<'a>)>
        ensures some { IfSome result (λ x. as_tokens self.entry ≡ as_token x.0 ∷ as_tokens x.1) }
        ensures none { IfNone result (as_tokens self.entry ≡ []) }
    {
        match self.kept {
            [first, rest @ ..] => Some((
                LentToken {
                    lines: self.lines,
                    kept: *first,
                },
                TokenSlice {
                    lines: self.lines,
                    kept: rest,
                },
            )),
            [] => None,
        }
    }
}

impl LentToken<'_> {
    /// The token, with its site.
    pub fn token(self) -> Token
        ensures { result ≡ as_token self.entry }
    {
        Token {
            kind: self.kept.kind,
            site: self.site(),
            start: self.kept.start,
            end: self.kept.end,
        }
    }

    /// What the token is.
    pub fn kind(self) -> TokenKind
        ensures { result ≡ (as_token self.entry).kind }
    {
        self.kept.kind
    }

    /// Where its bytes begin.
    pub fn start(self) -> u32
        ensures { result ≡ (as_token self.entry).start }
    {
        self.kept.start
    }

    /// Where its bytes end.
    pub fn end(self) -> u32
        ensures { result ≡ (as_token self.entry).end }
    {
        self.kept.end
    }

    /// The site of its first byte, by a search among the lines where the one that is looked at first isn't its own.
    pub fn site(self) -> Site
        ensures { result ≡ (as_token self.entry).site }
    {
        self.lines.site(self.kept.near, self.kept.start)
    }
}
