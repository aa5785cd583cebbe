ghost use Rattle.std.specs.Prelude.{◌≡◌, ◌+◌, ◌<◌, ◌≤◌, length, IfSome};
ghost use Rattle.px_lexer.specs.Scanning.{single, pair, triple};
ghost use Rattle.px_real_tokens.specs.Scanning.{any_pair, punctuator_at};

use crate::piece::Piece;
use crate::token::TokenKind;
use px_lexer::Punctuator;

// The punctuator of one byte.
fn single(byte: u8) -> Option<Punctuator>
    ensures { result ≡ single byte }
{
    match byte {
        b'{' => Some(Punctuator::OpenBrace),
        b'}' => Some(Punctuator::CloseBrace),
        b'(' => Some(Punctuator::OpenParenthesis),
        b')' => Some(Punctuator::CloseParenthesis),
        b'[' => Some(Punctuator::OpenBracket),
        b']' => Some(Punctuator::CloseBracket),
        b';' => Some(Punctuator::Semicolon),
        b',' => Some(Punctuator::Comma),
        b'.' => Some(Punctuator::Dot),
        b'+' => Some(Punctuator::Plus),
        b'-' => Some(Punctuator::Minus),
        b'*' => Some(Punctuator::Star),
        b'/' => Some(Punctuator::Slash),
        b'%' => Some(Punctuator::Percent),
        b'!' => Some(Punctuator::Not),
        b'~' => Some(Punctuator::Tilde),
        b'&' => Some(Punctuator::Ampersand),
        b'|' => Some(Punctuator::Bar),
        b'^' => Some(Punctuator::Caret),
        b'<' => Some(Punctuator::Less),
        b'>' => Some(Punctuator::Greater),
        b'=' => Some(Punctuator::Equal),
        b'?' => Some(Punctuator::Question),
        b':' => Some(Punctuator::Colon),
        _ => None,
    }
}

// The punctuator of two bytes, where it is no digraph.
fn pair(first: u8, second: u8) -> Option<Punctuator>
    ensures { result ≡ pair first second }
{
    if second == b'=' {
        return match first {
            b'<' => Some(Punctuator::LessEqual),
            b'>' => Some(Punctuator::GreaterEqual),
            b'=' => Some(Punctuator::EqualEqual),
            b'!' => Some(Punctuator::NotEqual),
            b'+' => Some(Punctuator::PlusEqual),
            b'-' => Some(Punctuator::MinusEqual),
            b'*' => Some(Punctuator::StarEqual),
            b'/' => Some(Punctuator::SlashEqual),
            b'%' => Some(Punctuator::PercentEqual),
            b'&' => Some(Punctuator::AmpersandEqual),
            b'|' => Some(Punctuator::BarEqual),
            b'^' => Some(Punctuator::CaretEqual),
            _ => None,
        };
    }
    if first == second {
        return match first {
            b'+' => Some(Punctuator::PlusPlus),
            b'-' => Some(Punctuator::MinusMinus),
            b'&' => Some(Punctuator::AndAnd),
            b'|' => Some(Punctuator::OrOr),
            b'<' => Some(Punctuator::ShiftLeft),
            b'>' => Some(Punctuator::ShiftRight),
            _ => None,
        };
    }
    if first == b'-' && second == b'>' {
        Some(Punctuator::Arrow)
    } else {
        None
    }
}

// The punctuator of three bytes.
fn triple(first: u8, second: u8, third: u8) -> Option<Punctuator>
    ensures { result ≡ triple first second third }
{
    match (first, second, third) {
        (b'.', b'.', b'.') => Some(Punctuator::Ellipsis),
        (b'<', b'<', b'=') => Some(Punctuator::ShiftLeftEqual),
        (b'>', b'>', b'=') => Some(Punctuator::ShiftRightEqual),
        _ => None,
    }
}

// The punctuator of two bytes, which may be a digraph.
fn any_pair(first: u8, second: u8) -> Option<Punctuator>
    ensures { result ≡ any_pair first second }
{
    match (first, second) {
        (b'<', b':') => Some(Punctuator::OpenBracket),
        (b':', b'>') => Some(Punctuator::CloseBracket),
        (b'<', b'%') => Some(Punctuator::OpenBrace),
        (b'%', b'>') => Some(Punctuator::CloseBrace),
        _ => pair(first, second),
    }
}

// The longest punctuator at the front, and its length.
#[tactic(auto, unfolding(crate::specs::Scanning::punctuator_at))]
pub fn punctuator_at(bytes: &[u8]) -> Option<(Piece, usize)>
    ensures exact { result ≡ punctuator_at bytes.now }
    ensures within { IfSome result (λ x. (0 < x.1) × (x.1 ≤ length bytes.now)) }
{
    if let [first, second, third, ..] = bytes
        && let Some(found) = triple(*first, *second, *third)
    {
        return Some((Piece::Token(TokenKind::Punctuator(found)), 3));
    }
    if let [first, second, ..] = bytes
        && let Some(found) = any_pair(*first, *second)
    {
        return Some((Piece::Token(TokenKind::Punctuator(found)), 2));
    }
    if let [first, ..] = bytes
        && let Some(found) = single(*first)
    {
        return Some((Piece::Token(TokenKind::Punctuator(found)), 1));
    }
    None
}
