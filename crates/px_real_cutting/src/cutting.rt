ghost use Rattle.std.specs.Prelude.{◌≡◌, ◌<◌, ◌≤◌, ◌^◌, ◌∷◌, List, length, map, option_map, Ok, Err, IfOk, IfSome, IsErrOf};
ghost use Rattle.px_base.specs.declared.trace.Site.{Site as SpecSite};
ghost use Rattle.px_real_cutting.specs.declared.fault.ItemFault.TheVariants.{Unbalanced};
ghost use Rattle.px_real_cutting.specs.Roles.{as_mark};
ghost use Rattle.px_real_cutting.specs.Items.{body_behind, body_of, is_definition, Items, IsFirstItem, IsCut};

use crate::fault::ItemFault;
use crate::pieces::{Piece, pieces};
use crate::roles::Ending;
use px_real_tokens::Token;
use px_terms::NoMemory as OutOfMemory;
use std::alloc::Global;

/// The tokens of an item, from the one with the number `first` up to the one before `after`, and whether it
/// has the shape of a function: a body stands directly after its parameters, or after the declarations of an
/// old-style definition.
#[derive(Clone, Copy, Debug, PartialEq, Eq)]
pub struct Item {
    pub first: u32,
    pub after: u32,
    pub is_function: bool,
}

// The end of the next body that begins a piece, where nothing but declarations stands before it, and what is behind it.
fn body_behind<'a>(pieces: &'a [Piece]) -> Option<(u32, &'a [Piece])>
    ensures exact { option_map (λ x. (x.0, x.1.now)) result ≡ body_behind pieces.now }
    ensures shorter { IfSome result (λ x. length x.1.now ≤ length pieces.now) }
{
    for (index, piece) in pieces.iter().enumerate() {
        match piece.ending {
            Ending::Body => return Some((piece.after, &pieces[index + 1..])),
            Ending::Declaration => {}
            Ending::Head | Ending::Definition => return None,
        }
    }
    None
}

// The same, after a piece that ends so.
fn body_of<'a>(ending: Ending, pieces: &'a [Piece]) -> Option<(u32, &'a [Piece])>
    ensures exact { option_map (λ x. (x.0, x.1.now)) result ≡ body_of ending pieces.now }
    ensures shorter { IfSome result (λ x. length x.1.now ≤ length pieces.now) }
{
    match ending {
        Ending::Head => body_behind(pieces),
        _ => None,
    }
}

fn is_definition(ending: Ending) -> bool
    ensures { result ≡ is_definition ending }
{
    matches!(ending, Ending::Definition)
}

// The item that begins with a piece, and the pieces behind it.
fn first_item<'a>(piece: Piece, pieces: &'a [Piece]) -> (Item, &'a [Piece])
    ensures first { IsFirstItem (piece ∷ pieces.now) result.0 result.1.now }
    ensures shorter { length result.1.now ≤ length pieces.now }
{
    match body_of(piece.ending, pieces) {
        Some((after, behind)) => (
            Item {
                first: piece.first,
                after,
                is_function: true,
            },
            behind,
        ),
        None => (
            Item {
                first: piece.first,
                after: piece.after,
                is_function: is_definition(piece.ending),
            },
            pieces,
        ),
    }
}

// The items that the pieces make.
fn joined(alloc: Global, pieces: &[Piece]) -> Result<Vec<Item>, OutOfMemory>
    ensures { IfOk result (λ items. Items pieces.now items.items) }
{
    let mut items = Vec::new(alloc);
    let mut rest = pieces;
    while !rest.is_empty() {
        let (item, behind) = first_item(rest[0], &rest[1..]);
        items.push(item)?;
        rest = behind;
    }
    Ok(items)
}

/// The items of a file, in order. An item ends at a `;` outside all brackets, or at the `}` of a `{` that stands
/// outside all brackets directly after parameters. A `{` that would begin an item ends, at its `}`, the old-style
/// definition whose head is the last before it, where nothing but declarations stands between; where there is no
/// such head, it is an item by itself.
pub fn items(alloc: Global, source: &[u8], tokens: &[Token]) -> Result<Vec<Item>, ItemFault>
    requires { length tokens.now < 2 ^ 32 }
    // The items are those of the cutting.
    ensures cut { IfOk result (λ items. IsCut (map (as_mark source.now) tokens.now) (Ok items.items)) }
    // A fault comes where the cutting stops, at its place.
    ensures unbalanced { (place : SpecSite) → IsErrOf result (Unbalanced place) → IsCut (map (as_mark source.now) tokens.now) (Err place) }
{
    let pieces = pieces(alloc, source, tokens)?;
    let items = joined(alloc, &pieces)?;
    Ok(items)
}
