ghost use Rattle.std.specs.Prelude.{◌≡◌, ◌+◌, ◌^◌, ◌<◌, ◌≤◌, length};
ghost use Rattle.px_lexer.specs.Bytes.{goes_on};
ghost use Rattle.px_lexer.specs.Scanning.{includes_from, is_include, line_at};
ghost use Rattle.px_lexer.specs.declared.piece.Gap.TheVariants.{Outside};

use crate::bytes::{is_blank, is_word_byte, line_run};
use crate::piece::{Gap, Piece};
use crate::token::TokenKind;

// Whether a word would go on here.
fn goes_on(bytes: &[u8]) -> bool
    ensures { result ≡ goes_on bytes.now }
{
    match bytes {
        [first, ..] => is_word_byte(*first),
        [] => false,
    }
}

// Whether a word begins here that is `include`.
fn is_include(bytes: &[u8]) -> bool
    ensures { result ≡ is_include bytes.now }
{
    bytes.starts_with(b"include") && !goes_on(&bytes[7..])
}

// Whether the next word is `include`, where the `#` of the line stands before.
#[tactic(auto, unfolding(crate::specs::Scanning::includes_from))]
fn includes(line: &[u8]) -> bool
    ensures { result ≡ includes_from Outside line.now }
{
    let mut gap = Gap::Outside;
    for (index, byte) in line.iter().enumerate() {
        gap = match gap {
            Gap::Outside if is_blank(*byte) => Gap::Outside,
            Gap::Outside if *byte == b'/' => Gap::Slash,
            Gap::Outside => return is_include(&line[index..]),
            Gap::Slash if *byte == b'*' => Gap::Inside,
            Gap::Slash => return false,
            Gap::Inside | Gap::Star if *byte == b'*' => Gap::Star,
            Gap::Star if *byte == b'/' => Gap::Outside,
            Gap::Inside | Gap::Star => Gap::Inside,
        };
    }
    false
}

// The line whose `#` stands before these bytes, and its length.
pub fn line_at(bytes: &[u8]) -> (Piece, usize)
    requires { length bytes.now < 2 ^ 32 }
    ensures exact { result ≡ line_at bytes.now }
    ensures within { (0 < result.1) × (result.1 ≤ length bytes.now + 1) }
{
    let count = line_run(bytes);
    let piece = if includes(&bytes[..count]) {
        Piece::Space
    } else {
        Piece::Token(TokenKind::Directive)
    };
    (piece, count + 1)
}
