ghost use Rattle.std.specs.Prelude.{◌≡◌, ◌+◌, ◌<◌, ◌≤◌, length, min};
ghost use Rattle.std.specs.List.{list_all};
ghost use Rattle.px_lexer.specs.Bytes.{is_digit};
ghost use Rattle.px_lexer.specs.Spelling.{has_plain_front, is_plain_decimal, decimal};
ghost use Rattle.px_lexer.specs.Scanning.{number_at, number_of};

use crate::bytes::{is_digit, number_run};
use crate::piece::Piece;
use crate::token::TokenKind;

// The first number that is no constant.
const LIMIT: u64 = 2_147_483_648;

// Whether no 0 stands in front of others.
fn has_plain_front(text: &[u8]) -> bool
    ensures { result ≡ has_plain_front text.now }
{
    match text {
        [first, rest @ ..] => *first != b'0' || rest.is_empty(),
        [] => false,
    }
}

fn are_digits(text: &[u8]) -> bool
    ensures { result ≡ list_all is_digit text.now }
{
    text.iter().all(|byte| is_digit(*byte))
}

// Whether the bytes are digits alone, with no 0 in front of others.
fn is_plain_decimal(text: &[u8]) -> bool
    ensures { result ≡ is_plain_decimal text.now }
{
    has_plain_front(text) && are_digits(text)
}

// The number that the digits write, or `LIMIT` where it is more.
fn capped_decimal(digits: &[u8]) -> u64
    ensures { result ≡ min (decimal digits.now) LIMIT }
{
    let mut number = 0;
    for digit in digits {
        number = (number * 10 + u64::from(digit.saturating_sub(b'0'))).min(LIMIT);
    }
    number
}

// Which piece a number is.
#[tactic(auto, unfolding(crate::specs::Scanning::number_of))]
fn number_of(text: &[u8]) -> Piece
    ensures { result ≡ number_of text.now }
{
    if !is_plain_decimal(text) {
        Piece::Token(TokenKind::OtherNumber)
    } else if capped_decimal(text) < LIMIT {
        Piece::Token(TokenKind::Constant)
    } else {
        Piece::LargeConstant
    }
}

// The number at the front, and its length.
pub fn number_at(bytes: &[u8]) -> (Piece, usize)
    requires { 0 < length bytes.now }
    ensures exact { result ≡ number_at bytes.now }
    ensures within { (0 < result.1) × (result.1 ≤ length bytes.now) }
{
    let count = number_run(&bytes[1..]) + 1;
    (number_of(&bytes[..count]), count)
}
