ghost use Rattle.std.specs.Prelude.{◌≡◌, ◌+◌, ◌<◌, ◌≤◌, ◌∷◌, length, min};
ghost use Rattle.px_real_tokens.specs.Bytes.{number_goes_on, run_of};
ghost use Rattle.px_real_tokens.specs.Values.{digit_value, are_digits, written_in, small_in, hexadecimal, after_zero, number_value};
ghost use Rattle.px_real_tokens.specs.Scanning.{number_at};

use crate::bytes::is_name_byte;
use crate::piece::Piece;
use crate::token::TokenKind;

// The first number that is no constant.
const LIMIT: u64 = 2_147_483_648;

// The value of a digit, or 16.
fn digit_value(byte: u8) -> u64
    ensures exact { result ≡ digit_value byte }
    ensures small { result ≤ 16 }
{
    match byte {
        b'0'..=b'9' => u64::from(byte - b'0'),
        b'a'..=b'f' => u64::from(byte - b'a') + 10,
        b'A'..=b'F' => u64::from(byte - b'A') + 10,
        _ => 16,
    }
}

fn are_digits(base: u64, text: &[u8]) -> bool
    ensures { result ≡ are_digits base text.now }
{
    text.iter().all(|byte| digit_value(*byte) < base)
}

// The number that the digits write, or `LIMIT` where it is more.
fn capped(base: u64, digits: &[u8]) -> u64
    requires some { 0 < base }
    requires few { base ≤ 16 }
    ensures { result ≡ min (written_in base digits.now) LIMIT }
{
    let mut number = 0;
    for digit in digits {
        number = (number * base + digit_value(*digit)).min(LIMIT);
    }
    number
}

// The number that the bytes write in a base, where they are its digits and it is small.
fn small_in(base: u64, text: &[u8]) -> Option<u32>
    requires some { 0 < base }
    requires few { base ≤ 16 }
    ensures { result ≡ small_in base text.now }
{
    if !are_digits(base, text) {
        return None;
    }
    let number = capped(base, text);
    if number < LIMIT {
        Some(number as u32)
    } else {
        None
    }
}

fn hexadecimal(text: &[u8]) -> Option<u32>
    ensures { result ≡ hexadecimal text.now }
{
    if text.is_empty() {
        return None;
    }
    small_in(16, text)
}

fn after_zero(text: &[u8]) -> Option<u32>
    ensures { result ≡ after_zero text.now }
{
    match text {
        [] => Some(0),
        [b'x' | b'X', rest @ ..] => hexadecimal(rest),
        _ => small_in(8, text),
    }
}

// The value of an integer constant.
fn number_value(text: &[u8]) -> Option<u32>
    ensures { result ≡ number_value text.now }
{
    match text {
        [] => None,
        [b'0', rest @ ..] => after_zero(rest),
        _ => small_in(10, text),
    }
}

// Whether a number goes on with a byte after the byte before it.
fn number_goes_on(before: u8, byte: u8) -> bool
    ensures { result ≡ number_goes_on before byte }
{
    is_name_byte(byte)
        || byte == b'.'
        || matches!(byte, b'+' | b'-') && matches!(before, b'e' | b'E' | b'p' | b'P')
}

// How many bytes a number goes on after its first one.
#[tactic(auto, unfolding(crate::specs::Bytes::run_of))]
fn number_run(first: u8, bytes: &[u8]) -> usize
    ensures exact { result ≡ run_of number_goes_on first bytes.now }
    ensures within { result ≤ length bytes.now }
{
    let mut before = first;
    for (index, byte) in bytes.iter().enumerate() {
        if !number_goes_on(before, *byte) {
            return index;
        }
        before = *byte;
    }
    bytes.len()
}

// The number at the front that begins with the first byte, and its length.
pub fn number_at(first: u8, rest: &[u8], bytes: &[u8]) -> (Piece, usize)
    requires { bytes.now ≡ first ∷ rest.now }
    ensures exact { result ≡ number_at first rest.now }
    ensures within { (0 < result.1) × (result.1 ≤ length bytes.now) }
{
    let count = number_run(first, rest) + 1;
    (
        Piece::Token(TokenKind::Number(number_value(&bytes[..count]))),
        count,
    )
}
