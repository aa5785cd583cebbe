ghost use Rattle.std.specs.Prelude.{◌≡◌, ◌≤◌, length};
ghost use Rattle.std.specs.List.{prefix_len, list_any};
ghost use Rattle.px_lexer.specs.Bytes.{is_digit, is_blank, is_line_byte, is_line_feed, is_word_byte, is_number_byte};
ghost use Rattle.px_lexer.specs.Scanning.{class_of};

use crate::piece::Class;

// What the byte can begin.
#[tactic(auto, unfolding(crate::specs::Scanning::class_of))]
pub fn class_of(byte: u8) -> Class
    ensures { result ≡ class_of byte }
{
    match byte {
        b'a'..=b'z' | b'A'..=b'Z' | b'_' => Class::Letter,
        b'0'..=b'9' => Class::Digit,
        b' ' | 9..=13 => Class::Blank,
        b'"' => Class::Quote,
        b'\'' => Class::Apostrophe,
        b'#' => Class::Hash,
        b'/' => Class::Slash,
        _ => Class::Other,
    }
}

pub fn is_digit(byte: u8) -> bool
    ensures { result ≡ is_digit byte }
{
    matches!(byte, b'0'..=b'9')
}

pub fn is_blank(byte: u8) -> bool
    ensures { result ≡ is_blank byte }
{
    matches!(byte, b' ' | 9..=13)
}

// Whether the byte may stand in a word.
pub fn is_word_byte(byte: u8) -> bool
    ensures { result ≡ is_word_byte byte }
{
    matches!(byte, b'a'..=b'z' | b'A'..=b'Z' | b'_' | b'0'..=b'9')
}

// Whether the byte may stand in a number.
pub fn is_number_byte(byte: u8) -> bool
    ensures { result ≡ is_number_byte byte }
{
    is_word_byte(byte) || byte == b'.'
}

// How many bytes at the front may stand in a word.
pub fn word_run(bytes: &[u8]) -> usize
    ensures exact { result ≡ prefix_len is_word_byte bytes.now }
    ensures within { result ≤ length bytes.now }
{
    bytes.iter().take_while(|byte| is_word_byte(**byte)).count()
}

// How many bytes at the front may stand in a number.
pub fn number_run(bytes: &[u8]) -> usize
    ensures exact { result ≡ prefix_len is_number_byte bytes.now }
    ensures within { result ≤ length bytes.now }
{
    bytes
        .iter()
        .take_while(|byte| is_number_byte(**byte))
        .count()
}

// How many bytes at the front are blanks.
pub fn blank_run(bytes: &[u8]) -> usize
    ensures exact { result ≡ prefix_len is_blank bytes.now }
    ensures within { result ≤ length bytes.now }
{
    bytes.iter().take_while(|byte| is_blank(**byte)).count()
}

// How many bytes at the front stand on the line.
pub fn line_run(bytes: &[u8]) -> usize
    ensures exact { result ≡ prefix_len is_line_byte bytes.now }
    ensures within { result ≤ length bytes.now }
{
    bytes.iter().take_while(|byte| **byte != b'\n').count()
}

// Whether a line feed is among the bytes.
pub fn has_line_feed(bytes: &[u8]) -> bool
    ensures { result ≡ list_any is_line_feed bytes.now }
{
    bytes.iter().any(|byte| *byte == b'\n')
}
