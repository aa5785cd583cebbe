ghost use Rattle.std.specs.Prelude.{◌≡◌, ◌<◌, ◌≤◌, ◌∷◌, [], List, false, length, map, IfOk};
ghost use Rattle.px_real_cutting.specs.declared.roles.Mark.{Mark as SpecMark};
ghost use Rattle.px_real_cutting.specs.declared.roles.Before.TheVariants.{Nothing};
ghost use Rattle.px_real_cutting.specs.declared.roles.Role.TheVariants.{Closes};
ghost use Rattle.px_real_cutting.specs.Roles.{as_mark};
ghost use Rattle.px_real_cutting.specs.Scan.{scan, turn, after_step, cut_outcome, FitsIn};

use crate::brackets::Brackets;
use crate::roles::{
    Before, Ending, Mark, Pair, Role, as_mark, before_group, before_semicolon, is_parameters, opens,
};
use px_base::Site;
use px_real_tokens::Token;
use px_terms::NoMemory as OutOfMemory;
use std::alloc::Global;

/// A scan over the tokens of a piece: the brackets that are open, what stands directly before the first of
/// them, and whether a name stood directly after parameters.
#[derive(Drop)]
pub struct Scanner {
    pub open: Brackets,
    pub before: Before,
    pub head: bool,
}

/// What one token does to a scan.
#[derive(Clone, Copy)]
pub enum Step {
    GoesOn,
    Ends(Ending),
    Stops(Site),
}

/// How a scan ends: so and after so many tokens, at a place, or at the end of the file outside all brackets.
#[derive(Clone, Copy)]
pub enum Cut {
    Ends(Ending, usize),
    Stops(Site),
    RunsOut,
}

// The scan takes a token.
fn take(scanner: &mut Scanner, taken: Mark) -> Result<Step, OutOfMemory>
    ensures { IfOk result (λ s. (ts : List SpecMark) → scan scanner.old.open scanner.old.before scanner.old.head (taken ∷ ts) ≡ after_step s scanner.new ts) }
{
    match taken.role {
        Role::Opens(pair) => {
            scanner.open.open(pair, taken.site)?;
            Ok(Step::GoesOn)
        }
        Role::Closes(pair) => Ok(close(scanner, pair, taken.site)),
        Role::Semicolon => {
            if scanner.open.is_empty() {
                return Ok(Step::Ends(before_semicolon(scanner.head)));
            }
            Ok(Step::GoesOn)
        }
        Role::Name => {
            if scanner.open.is_empty() {
                scanner.head |= is_parameters(scanner.before);
                scanner.before = Before::Name;
            }
            Ok(Step::GoesOn)
        }
        Role::Other => {
            if scanner.open.is_empty() {
                scanner.before = Before::Other;
            }
            Ok(Step::GoesOn)
        }
    }
}

// The scan takes a closing bracket.
fn close(scanner: &mut Scanner, pair: Pair, site: Site) -> Step
    ensures { (ts : List SpecMark) → turn (Closes pair) site scanner.old.open scanner.old.before scanner.old.head ts (λ os before head. scan os before head ts) ≡ after_step result scanner.new ts }
{
    let Some((open, _)) = scanner.open.close() else {
        return Step::Stops(site);
    };
    if open != pair {
        return Step::Stops(site);
    }
    if !scanner.open.is_empty() {
        return Step::GoesOn;
    }
    match opens(pair, scanner.before) {
        Some(ending) => Step::Ends(ending),
        None => {
            scanner.before = before_group(pair, scanner.before);
            Step::GoesOn
        }
    }
}

// How the piece that begins with these tokens ends.
pub fn scan_piece(alloc: Global, source: &[u8], tokens: &[Token]) -> Result<Cut, OutOfMemory>
    ensures { IfOk result (λ c. (scan [] Nothing false (map (as_mark source.now) tokens.now) ≡ cut_outcome source.now tokens.now c) × FitsIn tokens.now c) }
{
    let mut scanner = Scanner {
        open: Brackets::new(alloc),
        before: Before::Nothing,
        head: false,
    };
    for (index, token) in tokens.iter().enumerate() {
        match take(&mut scanner, as_mark(source, *token))? {
            Step::GoesOn => {}
            Step::Ends(ending) => return Ok(Cut::Ends(ending, index + 1)),
            Step::Stops(site) => return Ok(Cut::Stops(site)),
        }
    }
    match scanner.open.close() {
        Some((_, site)) => Ok(Cut::Stops(site)),
        None => Ok(Cut::RunsOut),
    }
}
