ghost use Rattle.std.specs.Prelude.{◌≡◌};
ghost use Rattle.px_expressions.specs.Terminals.{keyword_of, is_outside, word_terminal, punctuator_terminal, is_outside_punctuator, terminal_of};

use crate::terminal::Terminal;
use px_lexer::{Punctuator, TokenKind};

// The terminal of its own that the word is.
fn keyword_of(text: &[u8]) -> Option<Terminal>
    ensures { result ≡ keyword_of text.now }
{
    if text == b"int".as_slice() {
        Some(Terminal::Int)
    } else if text == b"if".as_slice() {
        Some(Terminal::If)
    } else if text == b"return".as_slice() {
        Some(Terminal::Return)
    } else if text == b"struct".as_slice() {
        Some(Terminal::Struct)
    } else if text == b"NULL".as_slice() {
        Some(Terminal::Null)
    } else if text == b"void".as_slice() {
        Some(Terminal::Void)
    } else if text == b"else".as_slice() {
        Some(Terminal::Else)
    } else if text == b"while".as_slice() {
        Some(Terminal::While)
    } else if text == b"for".as_slice() {
        Some(Terminal::For)
    } else if text == b"free".as_slice() {
        Some(Terminal::Free)
    } else if text == b"malloc".as_slice() {
        Some(Terminal::Malloc)
    } else if text == b"sizeof".as_slice() {
        Some(Terminal::Sizeof)
    } else if text == b"static".as_slice() {
        Some(Terminal::Static)
    } else if text == b"break".as_slice() {
        Some(Terminal::Break)
    } else if text == b"continue".as_slice() {
        Some(Terminal::Continue)
    } else if text == b"getchar".as_slice() {
        Some(Terminal::GetChar)
    } else {
        None
    }
}

/// Whether the word is one of C that no item may hold.
pub fn is_outside(text: &[u8]) -> bool
    ensures { result ≡ is_outside text.now }
{
    text == b"goto".as_slice()
        || text == b"switch".as_slice()
        || text == b"case".as_slice()
        || text == b"default".as_slice()
        || text == b"do".as_slice()
        || text == b"union".as_slice()
        || text == b"enum".as_slice()
        || text == b"typedef".as_slice()
        || text == b"unsigned".as_slice()
        || text == b"signed".as_slice()
        || text == b"short".as_slice()
        || text == b"long".as_slice()
        || text == b"char".as_slice()
        || text == b"float".as_slice()
        || text == b"double".as_slice()
        || text == b"volatile".as_slice()
        || text == b"const".as_slice()
        || text == b"register".as_slice()
        || text == b"auto".as_slice()
        || text == b"inline".as_slice()
        || text == b"restrict".as_slice()
        || text == b"extern".as_slice()
        || text == b"realloc".as_slice()
        || text == b"calloc".as_slice()
}

// The terminal that the word is. The words that aren't names have two to eight letters.
fn word_terminal(text: &[u8]) -> Terminal
    ensures { result ≡ word_terminal text.now }
{
    if text.len() < 2 {
        return Terminal::Name;
    }
    if text.len() > 8 {
        return Terminal::Name;
    }
    match keyword_of(text) {
        Some(terminal) => terminal,
        None => {
            if is_outside(text) {
                Terminal::Outside
            } else {
                Terminal::Name
            }
        }
    }
}

// The terminal that the punctuator is.
fn punctuator_terminal(punctuator: Punctuator) -> Terminal
    ensures { result ≡ punctuator_terminal punctuator }
{
    match punctuator {
        Punctuator::OpenBrace => Terminal::OpenBrace,
        Punctuator::CloseBrace => Terminal::CloseBrace,
        Punctuator::OpenParenthesis => Terminal::OpenParenthesis,
        Punctuator::CloseParenthesis => Terminal::CloseParenthesis,
        Punctuator::Semicolon => Terminal::Semicolon,
        Punctuator::Comma => Terminal::Comma,
        Punctuator::Arrow => Terminal::Arrow,
        Punctuator::PlusPlus => Terminal::PlusPlus,
        Punctuator::MinusMinus => Terminal::MinusMinus,
        Punctuator::Plus => Terminal::Plus,
        Punctuator::Minus => Terminal::Minus,
        Punctuator::Star => Terminal::Star,
        Punctuator::Slash => Terminal::Slash,
        Punctuator::Percent => Terminal::Percent,
        Punctuator::Not => Terminal::Not,
        Punctuator::AndAnd => Terminal::AndAnd,
        Punctuator::OrOr => Terminal::OrOr,
        Punctuator::Less => Terminal::Less,
        Punctuator::Greater => Terminal::Greater,
        Punctuator::LessEqual => Terminal::LessEqual,
        Punctuator::GreaterEqual => Terminal::GreaterEqual,
        Punctuator::EqualEqual => Terminal::EqualEqual,
        Punctuator::NotEqual => Terminal::NotEqual,
        Punctuator::Equal => Terminal::Equal,
        Punctuator::PlusEqual => Terminal::PlusEqual,
        Punctuator::MinusEqual => Terminal::MinusEqual,
        Punctuator::StarEqual => Terminal::StarEqual,
        _ => Terminal::Outside,
    }
}

/// Whether the punctuator is one that no item may hold.
pub fn is_outside_punctuator(punctuator: Punctuator) -> bool
    ensures { result ≡ is_outside_punctuator punctuator }
{
    match punctuator_terminal(punctuator) {
        Terminal::Outside => true,
        _ => false,
    }
}

/// The terminal that a token of this kind and text is.
pub fn terminal_of(text: &[u8], kind: TokenKind) -> Terminal
    ensures { result ≡ terminal_of text.now kind }
{
    match kind {
        TokenKind::Word => word_terminal(text),
        TokenKind::Constant => Terminal::Constant,
        TokenKind::Punctuator(punctuator) => punctuator_terminal(punctuator),
        _ => Terminal::Outside,
    }
}
