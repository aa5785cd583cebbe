ghost use Rattle.std.specs.Prelude.{◌<◌};

use crate::token::TokenKind;

// A token as it is kept: without its site, which the lines give.
#[derive(Clone, Copy)]
pub struct KeptToken {
    pub kind: TokenKind,
    // The line, from 0, at which its site is looked for first. Nothing is promised of it; most often the token stands there.
    pub near: u16,
    pub start: u32,
    pub end: u32,
    ghost some: { start < end },
}
