use crate::token::TokenKind;

// What stands at a place of a file.
#[derive(Clone, Copy)]
pub enum Piece {
    Token(TokenKind),
    // Blanks, a comment, or a line of a preprocessor.
    Space,
    // A backslash before the end of a line, which joins it with the next.
    Join,
    // Any other line that begins with `#`.
    Directive,
    // A `/*` that isn't closed, and what follows it.
    OpenComment,
}

// What a byte can begin.
#[derive(Clone, Copy)]
pub enum Class {
    Letter,
    Digit,
    Blank,
    Quote,
    Hash,
    Percent,
    Dot,
    Slash,
    Backslash,
    Other,
}

// Where a place after the `#` of a line stands, before the next word.
#[derive(Clone, Copy)]
pub enum Gap {
    // Outside of comments.
    Outside,
    // After a slash that may begin a comment.
    Slash,
    // After a backslash that may join the line with the next.
    Backslash,
    // In a comment.
    Inside,
    // In a comment, after a star.
    Star,
}
