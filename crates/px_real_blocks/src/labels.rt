ghost use Rattle.std.specs.Prelude.{◌≡◌, drop, map, length, option_map, IfOk};
ghost use Rattle.px_real_symbols.specs.Answers.{Gives};
ghost use Rattle.px_real_symbols.specs.Symbols.{seen};
ghost use Rattle.px_real_statements.specs.Reading.{named_front, label_at, labels_at};
ghost use Rattle.px_real_blocks.specs.Trees.{label_tree};

use crate::phrases::up_to;
use crate::tree::Label;
use px_real_expressions::Terminal;
use px_real_symbols::fault::Fault;
use px_real_symbols::fronts::{front, identifier_front};
use px_real_symbols::symbol::{Tokens, left, name};
use px_terms::NoMemory;
use std::alloc::Global;

// A name and a colon, and the number of the token after them.
#[tactic(auto, unfolding(px_real_statements::specs::Reading::named_front))]
fn named(alloc: Global, on: Tokens, at: usize) -> Result<Option<(Label, usize)>, NoMemory>
    ensures { IfOk result (λ x. option_map (λ y. (label_tree (seen on.entry) y.0, drop y.1 (seen on.entry))) x ≡ named_front (drop at (seen on.entry))) }
{
    let Some((symbol, next)) = identifier_front(on, at) else {
        return Ok(None);
    };
    let Some((_, after)) = front(Terminal::Colon, on, next) else {
        return Ok(None);
    };
    let name = name(alloc, on, symbol)?;
    let site = symbol.site;
    Ok(Some((Label::Named { name, site }, after)))
}

// The label at this number, if one stands there, and the number of the token after it.
#[tactic(auto, unfolding(px_real_statements::specs::Reading::label_at))]
fn label(alloc: Global, on: Tokens, at: usize) -> Result<(Option<Label>, usize), Fault>
    ensures { Gives (seen on.entry) (λ x. (option_map (label_tree (seen on.entry)) x.0, drop x.1 (seen on.entry))) result (label_at (drop at (seen on.entry))) }
{
    if let Some((label, after)) = named(alloc, on, at)? {
        return Ok((Some(label), after));
    }
    if let Some((symbol, next)) = front(Terminal::Case, on, at) {
        let (value, after) = up_to(alloc, Terminal::Colon, on, next)?;
        let site = symbol.site;
        return Ok((Some(Label::Case { site, value }), after));
    }
    let Some((symbol, next)) = front(Terminal::Default, on, at) else {
        return Ok((None, at));
    };
    let Some((_, after)) = front(Terminal::Colon, on, next) else {
        return Err(Fault::Wrong(next));
    };
    let site = symbol.site;
    Ok((Some(Label::Default { site }), after))
}

// The labels from this number on, and the number of the token after them.
pub fn labels(alloc: Global, on: Tokens, start: usize) -> Result<(Vec<Label>, usize), Fault>
    ensures { Gives (seen on.entry) (λ x. (map (label_tree (seen on.entry)) x.0.items, drop x.1 (seen on.entry))) result (labels_at (length (drop start (seen on.entry))) (drop start (seen on.entry))) }
{
    let mut all = Vec::new(alloc);
    let mut at = start;
    for _ in 0..left(on, start) {
        let (label, after) = label(alloc, on, at)?;
        let Some(label) = label else {
            return Ok((all, at));
        };
        all.push(label)?;
        at = after;
    }
    Ok((all, at))
}
