ghost use Rattle.std.specs.Prelude.{◌≡◌, ◌+◌, ◌<◌, ◌≤◌, length, IfSome};
ghost use Rattle.px_real_tokens.specs.Values.{plain_value, escape_value, character_value};
ghost use Rattle.px_real_tokens.specs.Spelling.{is_encoding};
ghost use Rattle.px_real_tokens.specs.Scanning.{literal_kind, literal_at, word_at};

use crate::bytes::name_run;
use crate::ends::quote_end;
use crate::piece::Piece;
use crate::token::TokenKind;

fn plain_value(byte: u8) -> Option<u32>
    ensures { result ≡ plain_value byte }
{
    match byte {
        b'\'' | b'\\' => None,
        b' '..=b'~' => Some(u32::from(byte)),
        _ => None,
    }
}

// The value of the escape that the byte is, after a backslash.
fn escape_value(byte: u8) -> Option<u32>
    ensures { result ≡ escape_value byte }
{
    match byte {
        b'0' => Some(0),
        b'a' => Some(7),
        b'b' => Some(8),
        b'f' => Some(12),
        b'n' => Some(10),
        b'r' => Some(13),
        b't' => Some(9),
        b'v' => Some(11),
        b'\'' | b'"' | b'?' | b'\\' => Some(u32::from(byte)),
        _ => None,
    }
}

// The value of a character constant, which has its quotes.
fn character_value(text: &[u8]) -> Option<u32>
    ensures { result ≡ character_value text.now }
{
    match text {
        [b'\'', byte, _] => plain_value(*byte),
        [b'\'', b'\\', byte, _] => escape_value(*byte),
        _ => None,
    }
}

// What a string or a character is.
fn literal_kind(quote: u8, text: &[u8]) -> TokenKind
    ensures { result ≡ literal_kind quote text.now }
{
    if quote == b'"' {
        TokenKind::String
    } else {
        TokenKind::Character(character_value(text))
    }
}

// Whether the word is a prefix of strings and characters.
fn is_encoding(word: &[u8]) -> bool
    ensures { result ≡ is_encoding word.now }
{
    match word {
        [b'L' | b'U' | b'u'] => true,
        [b'u', b'8'] => true,
        _ => false,
    }
}

// The string or the character at the front whose quote stands after so many bytes, and its length.
pub fn literal_at(skip: usize, bytes: &[u8]) -> Option<(Piece, usize)>
    requires { skip ≤ length bytes.now }
    ensures exact { result ≡ literal_at skip bytes.now }
    ensures within { IfSome result (λ x. (0 < x.1) × (x.1 ≤ length bytes.now)) }
{
    let [quote, rest @ ..] = &bytes[skip..] else {
        return None;
    };
    if *quote != b'"' && *quote != b'\'' {
        return None;
    }
    let count = skip + quote_end(*quote, rest)? + 1;
    let kind = literal_kind(*quote, &bytes[..count]);
    Some((Piece::Token(kind), count))
}

// The word at the front, or the string or the character whose prefix it is, and its length.
#[tactic(auto, unfolding(crate::specs::Scanning::word_at))]
pub fn word_at(bytes: &[u8]) -> (Piece, usize)
    requires { 0 < length bytes.now }
    ensures exact { result ≡ word_at bytes.now }
    ensures within { (0 < result.1) × (result.1 ≤ length bytes.now) }
{
    let count = name_run(&bytes[1..]) + 1;
    let word = (Piece::Token(TokenKind::Word), count);
    if is_encoding(&bytes[..count]) {
        literal_at(count, bytes).unwrap_or(word)
    } else {
        word
    }
}
