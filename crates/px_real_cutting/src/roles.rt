ghost use Rattle.std.specs.Prelude.{◌≡◌};
ghost use Rattle.px_real_cutting.specs.Roles.{text_of, takes_parentheses, role_of, as_mark, opens, before_group, is_parameters, before_semicolon};

use px_base::Site;
use px_lexer::Punctuator;
use px_real_tokens::{Token, TokenKind};

/// A pair of brackets.
#[derive(Clone, Copy, Debug, PartialEq, Eq)]
pub enum Pair {
    Parentheses,
    Brackets,
    Braces,
}

/// What a token is where a file is cut into items.
#[derive(Clone, Copy, Debug)]
pub enum Role {
    Opens(Pair),
    Closes(Pair),
    Semicolon,
    /// A word, but for those of C that take parentheses of their own.
    Name,
    Other,
}

/// A token as cutting sees it: its role and its place.
#[derive(Clone, Copy, Debug)]
pub struct Mark {
    pub role: Role,
    pub site: Site,
}

/// What stands directly before a place outside all brackets.
#[derive(Clone, Copy, Debug)]
pub enum Before {
    /// Nothing: a piece begins here.
    Nothing,
    /// A name.
    Name,
    /// The `)` of parentheses that stand directly after a name.
    Parameters,
    /// The `)` of parentheses that stand directly after a `)` of these two.
    MoreParameters,
    /// Anything else, as the `)` of an attribute or of a cast.
    Other,
}

/// How a piece ends.
#[derive(Clone, Copy, Debug)]
pub enum Ending {
    /// At a `;`, and a name stands directly after parameters: this may be the head of an old-style definition.
    Head,
    /// At any other `;`.
    Declaration,
    /// At the `}` of a body that stands directly after parameters.
    Definition,
    /// At the `}` of a `{` that begins the piece.
    Body,
}

// The bytes of a token.
fn text<'a>(source: &'a [u8], token: Token) -> &'a [u8]
    ensures { result.now ≡ text_of source.now token }
{
    let end = source.len().min(token.end as usize);
    let start = end.min(token.start as usize);
    &source[start..end]
}

// Whether a word takes parentheses of its own.
fn takes_parentheses(word: &[u8]) -> bool
    ensures { result ≡ takes_parentheses word.now }
{
    word == b"__attribute__".as_slice()
        || word == b"__attribute".as_slice()
        || word == b"__asm__".as_slice()
        || word == b"__asm".as_slice()
        || word == b"asm".as_slice()
        || word == b"__typeof__".as_slice()
        || word == b"__typeof".as_slice()
        || word == b"typeof".as_slice()
        || word == b"__extension__".as_slice()
        || word == b"_Alignas".as_slice()
        || word == b"_Alignof".as_slice()
        || word == b"__alignof__".as_slice()
        || word == b"__alignof".as_slice()
        || word == b"_Atomic".as_slice()
        || word == b"_Static_assert".as_slice()
        || word == b"sizeof".as_slice()
}

// What a token of this kind and text is where a file is cut.
fn role_of(word: &[u8], kind: TokenKind) -> Role
    ensures { result ≡ role_of word.now kind }
{
    match kind {
        TokenKind::Word => {
            if takes_parentheses(word) {
                Role::Other
            } else {
                Role::Name
            }
        }
        TokenKind::Punctuator(Punctuator::OpenParenthesis) => Role::Opens(Pair::Parentheses),
        TokenKind::Punctuator(Punctuator::CloseParenthesis) => Role::Closes(Pair::Parentheses),
        TokenKind::Punctuator(Punctuator::OpenBracket) => Role::Opens(Pair::Brackets),
        TokenKind::Punctuator(Punctuator::CloseBracket) => Role::Closes(Pair::Brackets),
        TokenKind::Punctuator(Punctuator::OpenBrace) => Role::Opens(Pair::Braces),
        TokenKind::Punctuator(Punctuator::CloseBrace) => Role::Closes(Pair::Braces),
        TokenKind::Punctuator(Punctuator::Semicolon) => Role::Semicolon,
        _ => Role::Other,
    }
}

// A token as cutting sees it.
pub fn as_mark(source: &[u8], token: Token) -> Mark
    ensures { result ≡ as_mark source.now token }
{
    Mark {
        role: role_of(text(source, token), token.kind),
        site: token.site,
    }
}

// How the piece ends where these brackets close, if it does.
pub fn opens(pair: Pair, before: Before) -> Option<Ending>
    ensures { result ≡ opens pair before }
{
    match (pair, before) {
        (Pair::Braces, Before::Nothing) => Some(Ending::Body),
        (Pair::Braces, Before::Parameters | Before::MoreParameters) => Some(Ending::Definition),
        _ => None,
    }
}

// What the closing bracket is to what stands after it.
pub fn before_group(pair: Pair, before: Before) -> Before
    ensures { result ≡ before_group pair before }
{
    match (pair, before) {
        (Pair::Parentheses, Before::Name) => Before::Parameters,
        (Pair::Parentheses, Before::Parameters | Before::MoreParameters) => Before::MoreParameters,
        _ => Before::Other,
    }
}

// Whether parameters stand directly before.
pub fn is_parameters(before: Before) -> bool
    ensures { result ≡ is_parameters before }
{
    matches!(before, Before::Parameters)
}

// How the piece ends at a `;`.
pub fn before_semicolon(head: bool) -> Ending
    ensures { result ≡ before_semicolon head }
{
    if head {
        Ending::Head
    } else {
        Ending::Declaration
    }
}
