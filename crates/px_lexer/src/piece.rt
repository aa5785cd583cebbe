use crate::token::TokenKind;

// What stands at a place of the source.
#[derive(Clone, Copy)]
pub enum Piece {
    Token(TokenKind),
    // Blanks, a comment, or an `#include` line.
    Space,
    // A decimal constant above 2147483647.
    LargeConstant,
    // A `/*` that isn't closed, and what follows it.
    OpenComment,
}

// What a byte can begin.
#[derive(Clone, Copy)]
pub enum Class {
    Letter,
    Digit,
    Blank,
    Quote,
    Apostrophe,
    Hash,
    Slash,
    Other,
}

// Where a place after the `#` of a line stands, before the next word.
#[derive(Clone, Copy)]
pub enum Gap {
    // Outside of comments.
    Outside,
    // After a slash that may begin a comment.
    Slash,
    // In a comment.
    Inside,
    // In a comment, after a star.
    Star,
}
