ghost use Rattle.std.specs.Prelude.{◌≡◌};
ghost use Rattle.px_cutting.specs.Roles.{role_of, closes_brace, is_directive, is_parentheses, opens_body};

use px_lexer::{Punctuator, TokenKind};

/// A pair of brackets.
#[derive(Clone, Copy, Debug, PartialEq, Eq)]
pub enum Pair {
    Parentheses,
    Brackets,
    Braces,
}

/// What a token is where a file is cut into items.
#[derive(Clone, Copy, Debug)]
pub enum Role {
    Opens(Pair),
    Closes(Pair),
    Semicolon,
    Directive,
    Other,
}

// What a token of this kind is where a file is cut.
pub fn role_of(kind: TokenKind) -> Role
    ensures { result ≡ role_of kind }
{
    match kind {
        TokenKind::Punctuator(Punctuator::OpenParenthesis) => Role::Opens(Pair::Parentheses),
        TokenKind::Punctuator(Punctuator::CloseParenthesis) => Role::Closes(Pair::Parentheses),
        TokenKind::Punctuator(Punctuator::OpenBracket) => Role::Opens(Pair::Brackets),
        TokenKind::Punctuator(Punctuator::CloseBracket) => Role::Closes(Pair::Brackets),
        TokenKind::Punctuator(Punctuator::OpenBrace) => Role::Opens(Pair::Braces),
        TokenKind::Punctuator(Punctuator::CloseBrace) => Role::Closes(Pair::Braces),
        TokenKind::Punctuator(Punctuator::Semicolon) => Role::Semicolon,
        TokenKind::Directive => Role::Directive,
        _ => Role::Other,
    }
}

// Whether brackets that open here, after a `)` or not, hold the body of a function.
pub fn opens_body(pair: Pair, after: bool) -> bool
    ensures { result ≡ opens_body pair after }
{
    match pair {
        Pair::Braces => after,
        _ => false,
    }
}

// Whether the pair is that of `(` and `)`.
pub fn is_parentheses(pair: Pair) -> bool
    ensures { result ≡ is_parentheses pair }
{
    match pair {
        Pair::Parentheses => true,
        _ => false,
    }
}

// Whether the token is a directive.
pub fn is_directive(role: Role) -> bool
    ensures { result ≡ is_directive role }
{
    match role {
        Role::Directive => true,
        _ => false,
    }
}

// Whether the token closes a brace.
pub fn closes_brace(role: Role) -> bool
    ensures { result ≡ closes_brace role }
{
    match role {
        Role::Closes(Pair::Braces) => true,
        _ => false,
    }
}
