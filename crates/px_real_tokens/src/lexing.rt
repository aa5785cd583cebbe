ghost use Rattle.std.specs.Prelude.{◌≡◌, ◌≢◌, ◌+◌, ◌^◌, ◌<◌, ◌++◌, length, Ok, Err, None, Some, IfOk, IfErr, OnOk};
ghost use Rattle.px_real_tokens.specs.Tokens.{Lexes, tokens_of, fault_of, fresh_after};
ghost use Rattle.px_real_tokens.specs.declared.token.LexFault.TheVariants.{NoMemory};

use crate::bytes::has_line_feed;
use crate::cursor::{Cursor, cursor_after, cursor_site};
use crate::piece::Piece;
use crate::pieces::piece_at;
use crate::token::{LexFault, Token};
use px_base::Site;
use std::alloc::Global;

/// The tokens of a preprocessed file, or its first fault; `file` is the number that their sites have.
///
/// At each place the longest piece is taken: a token, blanks, a comment, or a line that begins with `#`
/// (C11 6.4). `Byte` comes where none begins, `Comment` at a `/*` that isn't closed, `NotPreprocessed` at
/// a line that begins with `#`, but for those that a preprocessor leaves.
pub fn lex(alloc: Global, source: &[u8], file: u32) -> Result<Vec<Token>, LexFault>
    requires { length source.now < 2 ^ 32 }
    ensures tokens { IfOk result (λ tokens. Lexes file source.now (Ok tokens.items)) }
    ensures fault { IfErr result (λ e. e ≢ NoMemory → Lexes file source.now (Err e)) }
{
    let mut tokens = Vec::new(alloc);
    let mut fresh = true;
    let mut start = 0;
    let mut cursor = Cursor { line: 1, column: 1 };
    let mut rest = source;
    while !rest.is_empty() {
        let site = cursor_site(file, cursor);
        let Some((piece, count)) = piece_at(fresh, rest) else {
            return Err(LexFault::Byte(site));
        };
        let end = start + count;
        put(&mut tokens, piece, site, start as u32, end as u32)?;
        let (front, after) = rest.split_at(count);
        fresh = fresh_after(fresh, piece, front);
        cursor = cursor_after(cursor, front);
        start = end;
        rest = after;
    }
    Ok(tokens)
}

// Adds what the piece gives.
fn put(
    tokens: &mut Vec<Token>,
    piece: Piece,
    site: Site,
    start: u32,
    end: u32,
) -> Result<(), LexFault>
    ensures tokens { OnOk result (tokens.new.items ≡ tokens.old.items ++ tokens_of piece site start end) }
    ensures no_fault { OnOk result (fault_of piece site ≡ None) }
    ensures fault { IfErr result (λ e. e ≢ NoMemory → fault_of piece site ≡ Some e) }
{
    match piece {
        Piece::Token(kind) => tokens.push(Token {
            kind,
            site,
            start,
            end,
        })?,
        Piece::Space | Piece::Join => {}
        Piece::Directive => return Err(LexFault::NotPreprocessed(site)),
        Piece::OpenComment => return Err(LexFault::Comment(site)),
    }
    Ok(())
}

// Whether nothing but blanks and comments stands on the line before the place after the piece.
fn fresh_after(fresh: bool, piece: Piece, front: &[u8]) -> bool
    ensures { result ≡ fresh_after fresh piece front.now }
{
    match piece {
        Piece::Space => fresh || has_line_feed(front),
        Piece::Join => fresh,
        _ => false,
    }
}
