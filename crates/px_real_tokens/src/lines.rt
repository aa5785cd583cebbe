ghost use Rattle.std.specs.Prelude.{◌≡◌, ◌+◌, ◌^◌, ◌<◌, ◌≤◌, length, true};
ghost use Rattle.px_real_tokens.specs.Spelling.{begins_with, begins_marker};
ghost use Rattle.px_real_tokens.specs.Scanning.{marks_from, line_at, hash_at, digraph_at};
ghost use Rattle.px_real_tokens.specs.declared.piece.Gap.TheVariants.{Outside};

use crate::bytes::{begins_byte, begins_digit, is_blank, name_goes_on};
use crate::ends::line_run;
use crate::piece::{Gap, Piece};
use crate::token::TokenKind;

// Whether this word stands here.
fn begins_with(text: &[u8], bytes: &[u8]) -> bool
    ensures { result ≡ begins_with text.now bytes.now }
{
    bytes.starts_with(text) && !name_goes_on(&bytes[text.len()..])
}

// Whether a number stands here, or a word of the lines that a preprocessor leaves.
fn begins_marker(bytes: &[u8]) -> bool
    ensures { result ≡ begins_marker bytes.now }
{
    begins_digit(bytes)
        || begins_with(b"line", bytes)
        || begins_with(b"pragma", bytes)
        || begins_with(b"ident", bytes)
}

// Whether a preprocessor leaves the line that has this after its `#`.
#[tactic(auto, unfolding(crate::specs::Scanning::marks_from))]
fn is_marker(line: &[u8]) -> bool
    ensures { result ≡ marks_from Outside line.now }
{
    let mut gap = Gap::Outside;
    for (index, byte) in line.iter().enumerate() {
        gap = match gap {
            Gap::Outside if is_blank(*byte) => Gap::Outside,
            Gap::Outside if *byte == b'/' => Gap::Slash,
            Gap::Outside if *byte == b'\\' => Gap::Backslash,
            Gap::Outside => return begins_marker(&line[index..]),
            Gap::Slash if *byte == b'*' => Gap::Inside,
            Gap::Backslash if *byte == b'\n' => Gap::Outside,
            Gap::Slash | Gap::Backslash => return false,
            Gap::Inside | Gap::Star if *byte == b'*' => Gap::Star,
            Gap::Star if *byte == b'/' => Gap::Outside,
            Gap::Inside | Gap::Star => Gap::Inside,
        };
    }
    false
}

// The line whose `#`, of so many bytes, stands before these, and its length.
fn line_at(skip: usize, bytes: &[u8]) -> (Piece, usize)
    requires { skip + length bytes.now < 2 ^ 64 }
    ensures exact { result ≡ line_at skip bytes.now }
    ensures within { (skip ≤ result.1) × (result.1 ≤ skip + length bytes.now) }
{
    let count = line_run(bytes);
    let piece = if is_marker(&bytes[..count]) {
        Piece::Space
    } else {
        Piece::Directive
    };
    (piece, skip + count)
}

// What begins with `#`, and its length; `fresh` says whether a line of its own may begin here.
pub fn hash_at(fresh: bool, rest: &[u8]) -> (Piece, usize)
    requires { length rest.now + 1 < 2 ^ 64 }
    ensures exact { result ≡ hash_at fresh rest.now }
    ensures within { (0 < result.1) × (result.1 ≤ 1 + length rest.now) }
{
    if fresh {
        return line_at(1, rest);
    }
    if begins_byte(b'#', rest) {
        (Piece::Token(TokenKind::HashHash), 2)
    } else {
        (Piece::Token(TokenKind::Hash), 1)
    }
}

// What begins with `%:`, and its length.
pub fn digraph_at(fresh: bool, rest: &[u8]) -> (Piece, usize)
    requires { length rest.now + 2 < 2 ^ 64 }
    ensures exact { result ≡ digraph_at fresh rest.now }
    ensures within { (0 < result.1) × (result.1 ≤ 2 + length rest.now) }
{
    if fresh {
        return line_at(2, rest);
    }
    match rest {
        [b'%', b':', ..] => (Piece::Token(TokenKind::HashHash), 4),
        _ => (Piece::Token(TokenKind::Hash), 2),
    }
}
