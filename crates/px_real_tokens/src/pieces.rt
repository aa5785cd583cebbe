ghost use Rattle.std.specs.Prelude.{◌≡◌, ◌+◌, ◌^◌, ◌<◌, ◌≤◌, length, IfSome};
ghost use Rattle.px_real_tokens.specs.Scanning.{piece_at, slash_at};

use crate::bytes::{begins_byte, begins_digit, blank_run, class_of};
use crate::ends::{comment_end, line_run};
use crate::lines::{digraph_at, hash_at};
use crate::literals::{literal_at, word_at};
use crate::numbers::number_at;
use crate::piece::{Class, Piece};
use crate::punctuators::punctuator_at;

// The piece at the front that begins with a slash, and its length.
fn slash_at(bytes: &[u8]) -> Option<(Piece, usize)>
    requires { length bytes.now < 2 ^ 32 }
    ensures exact { result ≡ slash_at bytes.now }
    ensures within { IfSome result (λ x. (0 < x.1) × (x.1 ≤ length bytes.now)) }
{
    match bytes {
        [_, b'/', rest @ ..] => Some((Piece::Space, line_run(rest) + 2)),
        [_, b'*', rest @ ..] => match comment_end(rest) {
            Some(count) => Some((Piece::Space, count + 2)),
            None => Some((Piece::OpenComment, bytes.len())),
        },
        _ => punctuator_at(bytes),
    }
}

// The piece at the front, and its length; `fresh` says whether a line of its own may begin here.
#[tactic(auto, unfolding(crate::specs::Scanning::piece_at))]
pub fn piece_at(fresh: bool, bytes: &[u8]) -> Option<(Piece, usize)>
    requires { length bytes.now < 2 ^ 32 }
    ensures exact { result ≡ piece_at fresh bytes.now }
    ensures within { IfSome result (λ x. (0 < x.1) × (x.1 ≤ length bytes.now)) }
{
    let [first, rest @ ..] = bytes else {
        return None;
    };
    match class_of(*first) {
        Class::Letter => Some(word_at(bytes)),
        Class::Digit => Some(number_at(*first, rest, bytes)),
        Class::Blank => Some((Piece::Space, blank_run(rest) + 1)),
        Class::Quote => literal_at(0, bytes),
        Class::Hash => Some(hash_at(fresh, rest)),
        Class::Percent if begins_byte(b':', rest) => Some(digraph_at(fresh, &rest[1..])),
        Class::Dot if begins_digit(rest) => Some(number_at(*first, rest, bytes)),
        Class::Slash => slash_at(bytes),
        Class::Backslash if begins_byte(b'\n', rest) => Some((Piece::Join, 2)),
        Class::Backslash => None,
        Class::Percent | Class::Dot | Class::Other => punctuator_at(bytes),
    }
}
