ghost use Rattle.std.specs.Prelude.{◌≡◌, drop, length, map};
ghost use Rattle.px_real_symbols.specs.Answers.{Gives};
ghost use Rattle.px_real_symbols.specs.Symbols.{seen};
ghost use Rattle.px_real_declarations.specs.HeldReading.{enumerator_at, enumerators_at, separated_from};
ghost use Rattle.px_real_declarations.specs.declared.trailing.Trailing.TheVariants.{Comma};
ghost use Rattle.px_real_members.specs.Trees.{enumerator_tree};

use crate::commas::{Next, next_of};
use crate::tree::Enumerator;
use px_real_declarations::Trailing;
use px_real_declaring::declarations::value;
use px_real_declaring::groups::attributes;
use px_real_expressions::Terminal;
use px_real_symbols::fault::Fault;
use px_real_symbols::fronts::identifier_front;
use px_real_symbols::symbol::{Tokens, left, name};
use std::alloc::Global;

// The enumerator at this number, and the number of the token after it.
#[tactic(auto, unfolding(px_real_declarations::specs::HeldReading::enumerator_at))]
fn enumerator(alloc: Global, on: Tokens, at: usize) -> Result<(Enumerator, usize), Fault>
    ensures { Gives (seen on.entry) (λ x. (enumerator_tree (seen on.entry) x.0, drop x.1 (seen on.entry))) result (enumerator_at (drop at (seen on.entry))) }
{
    let Some((symbol, next)) = identifier_front(on, at) else {
        return Err(Fault::Wrong(at));
    };
    let (attributes, next) = attributes(alloc, on, next)?;
    let (value, after) = value(alloc, Terminal::Equal, on, next)?;
    let name = name(alloc, on, symbol)?;
    let site = symbol.site;
    Ok((
        Enumerator {
            name,
            site,
            attributes,
            value,
        },
        after,
    ))
}

// One enumerator and those behind it, with commas between, whether `...` follows them, and the number of the token after.
fn some_enumerators(
    alloc: Global,
    on: Tokens,
    start: usize,
) -> Result<(Vec<Enumerator>, bool, usize), Fault>
    ensures { Gives (seen on.entry) (λ x. ((map (enumerator_tree (seen on.entry)) x.0.items, x.1), drop x.2 (seen on.entry))) result (separated_from Comma (length (drop start (seen on.entry))) enumerator_at (drop start (seen on.entry))) }
{
    let mut all = Vec::new(alloc);
    let mut at = start;
    for _ in 0..left(on, start) {
        let (enumerator, after) = enumerator(alloc, on, at)?;
        all.push(enumerator)?;
        let next = next_of(Trailing::Comma, on, after)?;
        match next {
            Next::Last(last) => return Ok((all, false, last)),
            Next::Dots(last) => return Ok((all, true, last)),
            Next::Another(another) => at = another,
        }
    }
    Err(Fault::Wrong(at))
}

// The enumerators from this number on, and the number of the token after them.
pub fn enumerators(
    alloc: Global,
    on: Tokens,
    start: usize,
) -> Result<(Vec<Enumerator>, usize), Fault>
    ensures { Gives (seen on.entry) (λ x. (map (enumerator_tree (seen on.entry)) x.0.items, drop x.1 (seen on.entry))) result (enumerators_at (drop start (seen on.entry))) }
{
    if start >= on.symbols.len() {
        let nothing = Vec::new(alloc);
        return Ok((nothing, start));
    }
    let (enumerators, _, after) = some_enumerators(alloc, on, start)?;
    Ok((enumerators, after))
}
