ghost use Rattle.std.specs.Prelude.{◌≡◌, ◌+◌, ◌^◌, ◌<◌, ◌≤◌, length, IfSome};
ghost use Rattle.px_lexer.specs.Scanning.{piece_at, slash_at};

use crate::bytes::{blank_run, class_of, line_run, word_run};
use crate::ends::{comment_end, quote_end};
use crate::lines::line_at;
use crate::numbers::number_at;
use crate::piece::{Class, Piece};
use crate::punctuators::punctuator_at;
use crate::token::TokenKind;

// The piece at the front that begins with a slash, and its length.
fn slash_at(bytes: &[u8]) -> Option<(Piece, usize)>
    requires { length bytes.now < 2 ^ 32 }
    ensures exact { result ≡ slash_at bytes.now }
    ensures within { IfSome result (λ x. (0 < x.1) × (x.1 ≤ length bytes.now)) }
{
    match bytes {
        [_, b'/', rest @ ..] => Some((Piece::Space, line_run(rest) + 2)),
        [_, b'*', rest @ ..] => match comment_end(rest) {
            Some(count) => Some((Piece::Space, count + 2)),
            None => Some((Piece::OpenComment, bytes.len())),
        },
        _ => punctuator_at(bytes),
    }
}

// The piece at the front, and its length; `fresh` says whether a line of its own may begin here.
#[tactic(auto, unfolding(crate::specs::Scanning::piece_at))]
pub fn piece_at(fresh: bool, bytes: &[u8]) -> Option<(Piece, usize)>
    requires { length bytes.now < 2 ^ 32 }
    ensures exact { result ≡ piece_at fresh bytes.now }
    ensures within { IfSome result (λ x. (0 < x.1) × (x.1 ≤ length bytes.now)) }
{
    let [first, rest @ ..] = bytes else {
        return None;
    };
    match class_of(*first) {
        Class::Letter => Some((Piece::Token(TokenKind::Word), word_run(rest) + 1)),
        Class::Digit => Some(number_at(bytes)),
        Class::Blank => Some((Piece::Space, blank_run(rest) + 1)),
        Class::Quote => Some((Piece::Token(TokenKind::String), quote_end(b'"', rest)? + 1)),
        Class::Apostrophe => Some((
            Piece::Token(TokenKind::Character),
            quote_end(b'\'', rest)? + 1,
        )),
        Class::Hash if fresh => Some(line_at(rest)),
        Class::Hash => None,
        Class::Slash => slash_at(bytes),
        Class::Other => punctuator_at(bytes),
    }
}
