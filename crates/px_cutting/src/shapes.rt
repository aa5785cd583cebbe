ghost use Rattle.std.specs.Prelude.{◌≡◌, ◌-◌, ◌<◌, List, length, get_or, Ok, All, IfOk};
ghost use Rattle.std.specs.Bool.{Decides};
ghost use Rattle.px_lexer.specs.declared.token.Token.{Token as SpecToken};
ghost use Rattle.px_lexer.specs.Lent.{as_tokens};
ghost use Rattle.px_cutting.specs.declared.cutting.Span.{Span as SpecSpan};
ghost use Rattle.px_cutting.specs.Cutting.{Cuts, role};
ghost use Rattle.px_cutting.specs.Shape.{IsOneItem, tokens_in, IsFunctionShaped};

use crate::cutting::{ItemFault, item_length};
use crate::roles::{Role, closes_brace, role_of};
use px_lexer::TokenSlice;
use px_terms::NoMemory as OutOfMemory;
use std::alloc::Global;

/// Whether the tokens are one item of the shape of a function.
pub fn is_function_shaped(alloc: Global, tokens: TokenSlice) -> Result<bool, OutOfMemory>
    ensures { IfOk result (λ b. Decides b (IsFunctionShaped (as_tokens tokens.entry))) }
{
    if tokens.is_empty() {
        return Ok(false);
    }
    if !closes_brace(last_role(tokens)) {
        return Ok(false);
    }
    match item_length(alloc, tokens) {
        Ok(count) => Ok(count == tokens.len()),
        Err(ItemFault::Unbalanced(_)) => Ok(false),
        Err(ItemFault::NoMemory) => Err(OutOfMemory),
    }
}

// What the last token is.
fn last_role(tokens: TokenSlice) -> Role
    requires { 0 < length (as_tokens tokens) }
    ensures { (d : SpecToken) → result ≡ role (get_or (as_tokens tokens.entry) (length (as_tokens tokens.entry) - 1) d) }
{
    role_of(tokens.at(tokens.len() - 1).kind())
}

/// Each item of a file is an item by itself: its tokens alone are cut into one.
pub fn items_stand_alone()
    ensures { (ts : List SpecToken) (spans : List SpecSpan) → Cuts 0 ts (Ok spans) → All (λ s. IsOneItem (tokens_in ts s)) spans }
{}
