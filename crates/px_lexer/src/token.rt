ghost use Rattle.std.specs.Prelude.{◌≡◌};
ghost use Rattle.px_lexer.specs.declared.token.LexFault.TheVariants.{NoMemory};

use px_base::Site;
use std::alloc::{AllocError, AllocFailed};
use thiserror::Error;

/// A token of a source: its bytes are those from `start` up to `end`, the first of them at `site`.
#[derive(Clone, Copy, Debug, PartialEq, Eq)]
pub struct Token {
    pub kind: TokenKind,
    pub site: Site,
    pub start: u32,
    pub end: u32,
}

/// What a token is.
#[derive(Clone, Copy, Debug, PartialEq, Eq)]
pub enum TokenKind {
    /// A keyword or an identifier (C17 6.4.1, 6.4.2), in ASCII.
    Word,
    /// A decimal constant without a suffix, from 0 to 2147483647.
    Constant,
    /// Any other number: octal, hexadecimal, floating, with a suffix, or no number of C at all.
    OtherNumber,
    /// A string literal (C17 6.4.5), with its quotes.
    String,
    /// A character constant (C17 6.4.4.4), with its quotes.
    Character,
    /// A directive line (C17 6.10) other than `#include`, from its `#` to the end of the line.
    Directive,
    /// A punctuator (C17 6.4.6).
    Punctuator(Punctuator),
}

/// The punctuators of C17 6.4.6, but for `#`, `##` and the digraphs.
#[derive(Clone, Copy, Debug, PartialEq, Eq)]
pub enum Punctuator {
    OpenBrace,
    CloseBrace,
    OpenParenthesis,
    CloseParenthesis,
    OpenBracket,
    CloseBracket,
    Semicolon,
    Comma,
    Dot,
    Arrow,
    PlusPlus,
    MinusMinus,
    Plus,
    Minus,
    Star,
    Slash,
    Percent,
    Not,
    Tilde,
    Ampersand,
    Bar,
    Caret,
    AndAnd,
    OrOr,
    Less,
    Greater,
    LessEqual,
    GreaterEqual,
    EqualEqual,
    NotEqual,
    ShiftLeft,
    ShiftRight,
    Equal,
    PlusEqual,
    MinusEqual,
    StarEqual,
    SlashEqual,
    PercentEqual,
    AmpersandEqual,
    BarEqual,
    CaretEqual,
    ShiftLeftEqual,
    ShiftRightEqual,
    Question,
    Colon,
    Ellipsis,
}

/// Why a source has no tokens: its first fault.
#[derive(Clone, Copy, Debug, PartialEq, Eq, Error)]
pub enum LexFault {
    /// A byte begins no token, blank, comment or `#include` line. The first quote of a string or a
    /// character that isn't closed on its line is such a byte, and so is a `#` after a token.
    #[error("no token begins here")]
    Byte(Site),
    /// A `/*` isn't closed.
    #[error("the comment isn't closed")]
    Comment(Site),
    /// A decimal constant is above 2147483647.
    #[error("the constant is too large")]
    Constant(Site),
    #[error("out of memory")]
    NoMemory,
}

impl From<AllocError> for LexFault {
    ghost from_gives = { λ _ e. e ≡ NoMemory };

    fn from(_error: AllocError) -> LexFault {
        LexFault::NoMemory
    }
}

impl<T: Drop> From<AllocFailed<T>> for LexFault {
    ghost from_gives = { λ _ e. e ≡ NoMemory };

    fn from(_error: AllocFailed<T>) -> LexFault {
        LexFault::NoMemory
    }
}
