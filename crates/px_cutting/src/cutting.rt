ghost use Rattle.std.specs.Prelude.{◌≡◌, ◌<◌, ◌^◌, ◌∷◌, [], List, ℕ, false, length, Result, Ok, Err, IfOk, IsErrOf};
ghost use Rattle.px_base.specs.declared.trace.Site.{Site as SpecSite};
ghost use Rattle.px_lexer.specs.declared.token.Token.{Token as SpecToken};
ghost use Rattle.px_lexer.specs.Lent.{as_token, as_tokens};
ghost use Rattle.px_cutting.specs.declared.cutting.Span.{Span as SpecSpan};
ghost use Rattle.px_cutting.specs.declared.cutting.ItemFault.TheVariants.{Unbalanced, NoMemory};
ghost use Rattle.px_cutting.specs.Cutting.{Cuts, IsFirstItem};
ghost use Rattle.px_cutting.specs.Scan.{scan, turn, after_step, cut_outcome, FitsIn};
ghost use Rattle.px_cutting.specs.declared.roles.Role.TheVariants.{Closes};

use crate::brackets::Brackets;
use crate::roles::{Pair, Role, is_directive, is_parentheses, opens_body, role_of};
use px_base::Site;
use px_lexer::{LentToken, TokenSlice};
use px_terms::NoMemory as OutOfMemory;
use std::alloc::{AllocFailed, Global};
use thiserror::Error;

/// The tokens of an item: from the one with the number `first` up to the one before `after`.
#[derive(Clone, Copy, Debug, PartialEq, Eq)]
pub struct Span {
    pub first: u32,
    pub after: u32,
}

/// Why a file isn't cut into items.
#[derive(Clone, Copy, Debug, PartialEq, Eq, Error)]
pub enum ItemFault {
    /// Brackets don't match, or the file ends in an item. The place is a closing bracket that doesn't
    /// match the last one open; where the file ends, the last bracket that is open, or else the first
    /// token of what belongs to no item.
    #[error("the brackets don't match")]
    Unbalanced(Site),
    #[error("out of memory")]
    NoMemory,
}

impl From<OutOfMemory> for ItemFault {
    ghost from_gives = { λ _ e. e ≡ NoMemory };

    fn from(_error: OutOfMemory) -> ItemFault {
        ItemFault::NoMemory
    }
}

impl<T: Drop> From<AllocFailed<T>> for ItemFault {
    ghost from_gives = { λ _ e. e ≡ NoMemory };

    fn from(_error: AllocFailed<T>) -> ItemFault {
        ItemFault::NoMemory
    }
}

/// A scan over the tokens of an item: the brackets that are open, whether the first of them holds a
/// function's body, and whether a `)` that closed the last stands directly before.
#[derive(Drop)]
pub struct Scanner {
    pub open: Brackets,
    pub body: bool,
    pub after: bool,
}

/// What one token does to a scan.
#[derive(Clone, Copy)]
pub enum Step {
    GoesOn,
    Ends,
    Stops(Site),
}

/// How a scan ends: after so many tokens, at a place, or at the end of the file outside all brackets.
#[derive(Clone, Copy)]
pub enum Cut {
    Ends(usize),
    Stops(Site),
    RunsOut,
}

// The scan takes a token.
fn take(scanner: &mut Scanner, token: LentToken) -> Result<Step, OutOfMemory>
    ensures { IfOk result (λ s. (ts : List SpecToken) → scan scanner.old.open scanner.old.body scanner.old.after (as_token token.entry ∷ ts) ≡ after_step s scanner.new ts) }
{
    match role_of(token.kind()) {
        Role::Opens(pair) => {
            if scanner.open.is_empty() {
                scanner.body = opens_body(pair, scanner.after);
            }
            scanner.after = false;
            scanner.open.open(pair, token.site())?;
            Ok(Step::GoesOn)
        }
        Role::Closes(pair) => Ok(close(scanner, pair, token.site())),
        Role::Semicolon => {
            if scanner.open.is_empty() {
                return Ok(Step::Ends);
            }
            scanner.after = false;
            Ok(Step::GoesOn)
        }
        Role::Directive | Role::Other => {
            scanner.after = false;
            Ok(Step::GoesOn)
        }
    }
}

// The scan takes a closing bracket.
fn close(scanner: &mut Scanner, pair: Pair, site: Site) -> Step
    ensures { (ts : List SpecToken) → turn (Closes pair) site scanner.old.open scanner.old.body scanner.old.after ts (λ os body after. scan os body after ts) ≡ after_step result scanner.new ts }
{
    let Some((open, _)) = scanner.open.close() else {
        return Step::Stops(site);
    };
    if open != pair {
        return Step::Stops(site);
    }
    if !scanner.open.is_empty() {
        scanner.after = false;
        return Step::GoesOn;
    }
    if scanner.body {
        return Step::Ends;
    }
    scanner.after = is_parentheses(pair);
    Step::GoesOn
}

// How the item that begins with these tokens ends.
fn scan_item(alloc: Global, tokens: TokenSlice) -> Result<Cut, OutOfMemory>
    ensures { IfOk result (λ c. (scan [] false false (as_tokens tokens.entry) ≡ cut_outcome (as_tokens tokens.entry) c) × FitsIn (as_tokens tokens.entry) c) }
{
    let mut scanner = Scanner {
        open: Brackets::new(alloc),
        body: false,
        after: false,
    };
    for i in 0..tokens.len() {
        match take(&mut scanner, tokens.at(i))? {
            Step::GoesOn => {}
            Step::Ends => return Ok(Cut::Ends(i + 1)),
            Step::Stops(site) => return Ok(Cut::Stops(site)),
        }
    }
    match scanner.open.close() {
        Some((_, site)) => Ok(Cut::Stops(site)),
        None => Ok(Cut::RunsOut),
    }
}

// How many tokens the item has that begins with these.
pub fn item_length(alloc: Global, tokens: TokenSlice) -> Result<usize, ItemFault>
    requires { 0 < length (as_tokens tokens) }
    ensures found { IfOk result (λ n. IsFirstItem (as_tokens tokens.entry) n) }
    ensures unbalanced { (place : SpecSite) → IsErrOf result (Unbalanced place) → (at : ℕ) → Cuts at (as_tokens tokens.entry) (Err place) }
{
    let first = tokens.at(0);
    if is_directive(role_of(first.kind())) {
        return Ok(1);
    }
    match scan_item(alloc, tokens)? {
        Cut::Ends(count) => Ok(count),
        Cut::Stops(site) => Err(ItemFault::Unbalanced(site)),
        Cut::RunsOut => Err(ItemFault::Unbalanced(first.site())),
    }
}

/// The items of a file, in order: each ends at a `;` outside all brackets, or at the `}` that closes a `{`
/// which stood outside all brackets directly after a `)`; a directive outside all brackets, where an item
/// would begin, is an item by itself.
pub fn items(alloc: Global, tokens: TokenSlice) -> Result<Vec<Span>, ItemFault>
    requires { length (as_tokens tokens) < 2 ^ 32 }
    // The items are those of the cutting.
    ensures cut { IfOk result (λ spans. Cuts 0 (as_tokens tokens.entry) (Ok spans.items)) }
    // A fault comes where the cutting stops, at its place.
    ensures unbalanced { (place : SpecSite) → IsErrOf result (Unbalanced place) → Cuts 0 (as_tokens tokens.entry) (Err place) }
{
    let mut spans = Vec::new(alloc);
    let mut first = 0;
    while first < tokens.len() {
        let count = item_length(alloc, tokens.skip(first))?;
        spans.push(Span {
            first: first as u32,
            after: (first + count) as u32,
        })?;
        first += count;
    }
    Ok(spans)
}

/// Tokens are cut in one way.
pub fn one_cutting()
    ensures { (at : ℕ) (ts : List SpecToken) (a b : Result (List SpecSpan) SpecSite) → Cuts at ts a → Cuts at ts b → a ≡ b }
{}

/// All tokens are cut in some way.
pub fn some_cutting()
    ensures { (at : ℕ) (ts : List SpecToken) → (r : Result (List SpecSpan) SpecSite) × Cuts at ts r }
{}
