ghost use Rattle.std.specs.Prelude.{◌≡◌, ◌<◌, ◌≤◌, ◌^◌, List, ℕ, length, get_or, drop, map, Ok, Err, IfOk, IsErrOf};
ghost use Rattle.px_base.specs.declared.trace.Site.{Site as SpecSite};
ghost use Rattle.px_real_tokens.specs.declared.token.Token.{Token as SpecToken};
ghost use Rattle.px_real_cutting.specs.declared.fault.ItemFault.TheVariants.{Unbalanced};
ghost use Rattle.px_real_cutting.specs.Roles.{as_mark};
ghost use Rattle.px_real_cutting.specs.Pieces.{Cuts};
ghost use Rattle.px_real_cutting.specs.First.{IsFirstPiece};

use crate::fault::ItemFault;
use crate::roles::Ending;
use crate::scanner::{Cut, scan_piece};
use px_base::Site;
use px_real_tokens::Token;
use std::alloc::Global;

/// The tokens of a piece, from the one with the number `first` up to the one before `after`, and how it ends.
#[derive(Clone, Copy, Debug)]
pub struct Piece {
    pub ending: Ending,
    pub first: u32,
    pub after: u32,
}

// The site of the first token.
fn first_site(tokens: &[Token]) -> Site
    requires { 0 < length tokens.now }
    ensures { (d : SpecToken) → result ≡ (get_or tokens.now 0 d).site }
{
    tokens[0].site
}

// The tokens but for so many at the front.
fn skip<'a>(tokens: &'a [Token], count: usize) -> &'a [Token]
    requires { count ≤ length tokens.now }
    ensures { result.now ≡ drop count tokens.now }
{
    &tokens[count..]
}

// How the piece that begins with these tokens ends, and how many tokens it has.
fn first_piece(alloc: Global, source: &[u8], tokens: &[Token]) -> Result<(Ending, usize), ItemFault>
    requires { 0 < length tokens.now }
    ensures found { IfOk result (λ x. IsFirstPiece (map (as_mark source.now) tokens.now) x.0 x.1) }
    ensures within { IfOk result (λ x. (0 < x.1) × (x.1 ≤ length tokens.now)) }
    ensures unbalanced { (place : SpecSite) → IsErrOf result (Unbalanced place) → (at : ℕ) → Cuts at (map (as_mark source.now) tokens.now) (Err place) }
{
    match scan_piece(alloc, source, tokens)? {
        Cut::Ends(ending, count) => Ok((ending, count)),
        Cut::Stops(site) => Err(ItemFault::Unbalanced(site)),
        Cut::RunsOut => Err(ItemFault::Unbalanced(first_site(tokens))),
    }
}

// The pieces of a file, in order.
pub fn pieces(alloc: Global, source: &[u8], tokens: &[Token]) -> Result<Vec<Piece>, ItemFault>
    requires { length tokens.now < 2 ^ 32 }
    ensures cut { IfOk result (λ pieces. Cuts 0 (map (as_mark source.now) tokens.now) (Ok pieces.items)) }
    ensures unbalanced { (place : SpecSite) → IsErrOf result (Unbalanced place) → Cuts 0 (map (as_mark source.now) tokens.now) (Err place) }
{
    let mut pieces = Vec::new(alloc);
    let mut first = 0;
    let mut rest = tokens;
    while !rest.is_empty() {
        let (ending, count) = first_piece(alloc, source, rest)?;
        pieces.push(Piece {
            ending,
            first: first as u32,
            after: (first + count) as u32,
        })?;
        first += count;
        rest = skip(rest, count);
    }
    Ok(pieces)
}
