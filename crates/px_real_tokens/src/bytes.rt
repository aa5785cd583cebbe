ghost use Rattle.std.specs.Prelude.{◌≡◌, ◌≤◌, length};
ghost use Rattle.std.specs.List.{prefix_len, list_any};
ghost use Rattle.px_lexer.specs.Bytes.{is_digit, is_blank, is_line_feed};
ghost use Rattle.px_real_tokens.specs.Bytes.{is_name_byte, name_goes_on, begins_digit, begins_byte};
ghost use Rattle.px_real_tokens.specs.Scanning.{class_of};

use crate::piece::Class;

// What the byte can begin.
#[tactic(auto, unfolding(crate::specs::Scanning::class_of))]
pub fn class_of(byte: u8) -> Class
    ensures { result ≡ class_of byte }
{
    match byte {
        b'a'..=b'z' | b'A'..=b'Z' | b'_' | b'$' | 128..=255 => Class::Letter,
        b'0'..=b'9' => Class::Digit,
        b' ' | 9..=13 => Class::Blank,
        b'"' | b'\'' => Class::Quote,
        b'#' => Class::Hash,
        b'%' => Class::Percent,
        b'.' => Class::Dot,
        b'/' => Class::Slash,
        b'\\' => Class::Backslash,
        _ => Class::Other,
    }
}

pub fn is_digit(byte: u8) -> bool
    ensures { result ≡ is_digit byte }
{
    matches!(byte, b'0'..=b'9')
}

// Whether the byte may stand in a name.
pub fn is_name_byte(byte: u8) -> bool
    ensures { result ≡ is_name_byte byte }
{
    matches!(byte, b'a'..=b'z' | b'A'..=b'Z' | b'_' | b'0'..=b'9' | b'$' | 128..=255)
}

pub fn is_blank(byte: u8) -> bool
    ensures { result ≡ is_blank byte }
{
    matches!(byte, b' ' | 9..=13)
}

// Whether a name would go on here.
pub fn name_goes_on(bytes: &[u8]) -> bool
    ensures { result ≡ name_goes_on bytes.now }
{
    match bytes {
        [first, ..] => is_name_byte(*first),
        [] => false,
    }
}

// Whether a digit stands here.
pub fn begins_digit(bytes: &[u8]) -> bool
    ensures { result ≡ begins_digit bytes.now }
{
    match bytes {
        [first, ..] => is_digit(*first),
        [] => false,
    }
}

// Whether the bytes begin with this one.
pub fn begins_byte(byte: u8, bytes: &[u8]) -> bool
    ensures { result ≡ begins_byte byte bytes.now }
{
    match bytes {
        [first, ..] => *first == byte,
        [] => false,
    }
}

// How many bytes at the front may stand in a name.
pub fn name_run(bytes: &[u8]) -> usize
    ensures exact { result ≡ prefix_len is_name_byte bytes.now }
    ensures within { result ≤ length bytes.now }
{
    bytes.iter().take_while(|byte| is_name_byte(**byte)).count()
}

// How many bytes at the front are blanks.
pub fn blank_run(bytes: &[u8]) -> usize
    ensures exact { result ≡ prefix_len is_blank bytes.now }
    ensures within { result ≤ length bytes.now }
{
    bytes.iter().take_while(|byte| is_blank(**byte)).count()
}

// Whether a line feed is among the bytes.
pub fn has_line_feed(bytes: &[u8]) -> bool
    ensures { result ≡ list_any is_line_feed bytes.now }
{
    bytes.iter().any(|byte| *byte == b'\n')
}
