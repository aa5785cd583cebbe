ghost use Rattle.std.specs.Prelude.{◌≡◌};
ghost use Rattle.px_real_tokens.specs.declared.token.LexFault.TheVariants.{NoMemory};

use px_base::Site;
use px_lexer::Punctuator;
use std::alloc::{AllocError, AllocFailed};
use thiserror::Error;

/// A token of a file: its bytes are those from `start` up to `end`, the first of them at `site`.
#[derive(Clone, Copy, Debug, PartialEq, Eq)]
pub struct Token {
    pub kind: TokenKind,
    pub site: Site,
    pub start: u32,
    pub end: u32,
}

/// What a token is.
#[derive(Clone, Copy, Debug, PartialEq, Eq)]
pub enum TokenKind {
    /// A keyword or an identifier (C11 6.4.1, 6.4.2). Bytes from 128 on and `$` are letters.
    Word,
    /// A preprocessing number (C11 6.4.8), with its value where it is an integer constant without a suffix
    /// (6.4.4.1) of at most 2147483647. Every other number has a value from outside the profile.
    Number(Option<u32>),
    /// A character constant (C11 6.4.4.4), with its value where it is one plain character of ASCII, one
    /// simple escape or `\0`, and has no prefix. Every other one has a value from outside the profile.
    Character(Option<u32>),
    /// A string literal (C11 6.4.5), with its prefix and its quotes.
    String,
    /// A punctuator (C11 6.4.6). A digraph is the punctuator that it stands for.
    Punctuator(Punctuator),
    /// A `#` that doesn't begin its line, or its digraph.
    Hash,
    /// A `##` that doesn't begin its line, or its digraph.
    HashHash,
}

/// Why a file has no tokens: its first fault.
#[derive(Clone, Copy, Debug, PartialEq, Eq, Error)]
pub enum LexFault {
    /// A byte begins no token, blank or comment. The first quote of a string or a character that isn't
    /// closed on its line is such a byte.
    #[error("no token begins here")]
    Byte(Site),
    /// A `/*` isn't closed.
    #[error("the comment isn't closed")]
    Comment(Site),
    /// A line begins with `#`, and has neither a number after it nor `line`, `pragma` or `ident`.
    #[error("not preprocessed")]
    NotPreprocessed(Site),
    #[error("out of memory")]
    NoMemory,
}

impl From<AllocError> for LexFault {
    ghost from_gives = { λ _ e. e ≡ NoMemory };

    fn from(_error: AllocError) -> LexFault {
        LexFault::NoMemory
    }
}

impl<T: Drop> From<AllocFailed<T>> for LexFault {
    ghost from_gives = { λ _ e. e ≡ NoMemory };

    fn from(_error: AllocFailed<T>) -> LexFault {
        LexFault::NoMemory
    }
}
