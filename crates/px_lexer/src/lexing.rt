ghost use Rattle.std.specs.Prelude.{◌≡◌, ◌≢◌, ◌⊎◌, ◌+◌, ◌^◌, ◌<◌, ◌++◌, length, Ok, Err, None, Some, IfOk, IfErr, OnOk};
ghost use Rattle.px_lexer.specs.Tokens.{Lexes, tokens_of, fault_of, fresh_after};
ghost use Rattle.px_lexer.specs.Kept.{all_on_lines};
ghost use Rattle.px_lexer.specs.Places.{site_at};
ghost use Rattle.px_lexer.specs.declared.token.LexFault.TheVariants.{NoMemory};

use crate::bytes::has_line_feed;
use crate::kept::KeptToken;
use crate::piece::Piece;
use crate::pieces::piece_at;
use crate::places::Lines;
use crate::token::LexFault;
use crate::tokens::Tokens;
use std::alloc::Global;

/// The tokens of a source, or its first fault; `file` is the number that their sites have.
///
/// At each place the longest piece is taken: a token, blanks, a comment, or an `#include` line, which
/// gives no token. `Byte` comes where none begins, `Comment` at a `/*` that isn't closed, `Constant` at
/// a decimal constant above 2147483647.
pub fn lex(alloc: Global, source: &[u8], file: u32) -> Result<Tokens, LexFault>
    requires { length source.now < 2 ^ 32 }
    ensures tokens { IfOk result (λ tokens. Lexes file source.now (Ok tokens)) }
    ensures fault { IfErr result (λ e. e ≢ NoMemory → Lexes file source.now (Err e)) }
{
    let lines = Lines::new(alloc, file, source)?;
    let mut kept = Vec::new(alloc);
    let mut fresh = true;
    let mut start = 0;
    let mut rest = source;
    while !rest.is_empty() {
        let Some((piece, count)) = piece_at(fresh, rest) else {
            return Err(LexFault::Byte(lines.site(0, start as u32)));
        };
        let end = start + count;
        put(&mut kept, piece, &lines, start as u32, end as u32)?;
        let (front, after) = rest.split_at(count);
        fresh = fresh_after(fresh, piece, front);
        start = end;
        rest = after;
    }
    Ok(Tokens { lines, kept })
}

// Adds what the piece gives.
fn put(
    kept: &mut Vec<KeptToken>,
    piece: Piece,
    lines: &Lines,
    start: u32,
    end: u32,
) -> Result<(), LexFault>
    requires { start < end }
    ensures tokens { OnOk result (all_on_lines lines.now.file lines.now.starts.items kept.new.items
        ≡ all_on_lines lines.now.file lines.now.starts.items kept.old.items ++ tokens_of piece (site_at lines.now.file lines.now.starts.items start) start end) }
    ensures no_fault { OnOk result (fault_of piece (site_at lines.now.file lines.now.starts.items start) ≡ None) }
    ensures fault { IfErr result (λ e. e ≢ NoMemory → fault_of piece (site_at lines.now.file lines.now.starts.items start) ≡ Some e) }
{
    match piece {
        Piece::Token(kind) => {
            let near = lines.near(last_near(kept), start);
            kept.push(KeptToken {
                kind,
                near,
                start,
                end,
            })?;
        }
        Piece::Space => {}
        Piece::LargeConstant => return Err(LexFault::Constant(lines.site(0, start))),
        Piece::OpenComment => return Err(LexFault::Comment(lines.site(0, start))),
    }
    Ok(())
}

// The line at which the last token is looked for first, or the first of all.
fn last_near(kept: &[KeptToken]) -> u16 {
    match kept.last() {
        Some(token) => token.near,
        None => 0,
    }
}

// Whether nothing but blanks and comments stands on the line before the place after the piece.
fn fresh_after(fresh: bool, piece: Piece, front: &[u8]) -> bool
    ensures { result ≡ fresh_after fresh piece front.now }
{
    match piece {
        Piece::Space => fresh || has_line_feed(front),
        _ => false,
    }
}
