ghost use Rattle.std.specs.Prelude.{◌≡◌, ◌↔◌, None, true, map, length, IfOk, IfSome, IsErrOf};
ghost use Rattle.px_spelling.specs.declared.fault.WireFault.TheVariants as fault;
ghost use Rattle.px_parts.specs.Places.{listed, named_with, AreInOrder, behind, AllNamed};
ghost use Rattle.px_parts.specs.Kept.{naming};

use px_spelling::{Mentions, TermList, WireFault};
use px_terms::Poly;
use std::alloc::Global;

/// How many terms are named behind what this mentions, where so many were before. `NotAMessage` comes where a term is passed over. Where
/// there is no list, none is.
pub(crate) fn named_after<T: Mentions>(
    alloc: Global,
    terms: &Option<TermList>,
    named: usize,
    holder: &T,
) -> Result<usize, WireFault>
    ensures behind { IfOk result (λ n. naming terms.now n ≡ behind (naming terms.now named) (T.mentions holder.now)) }
    ensures order { IfOk result (λ n. AreInOrder (naming terms.now named) (T.mentions holder.now)) }
    ensures wrong { IsErrOf result fault.NotAMessage → ¬ AreInOrder (naming terms.now named) (T.mentions holder.now) }
{
    match terms {
        None => Ok(named),
        Some(list) => name_all(alloc, list, named, holder),
    }
}

fn name_all<T: Mentions>(
    alloc: Global,
    terms: &TermList,
    named: usize,
    holder: &T,
) -> Result<usize, WireFault>
    ensures count { IfOk result (λ n. n ≡ length (named_with terms.now named (T.mentions holder.now))) }
    ensures order { IfOk result (λ n. AreInOrder (listed terms.now named) (T.mentions holder.now)) }
    ensures wrong { IsErrOf result fault.NotAMessage → ¬ AreInOrder (listed terms.now named) (T.mentions holder.now) }
{
    let mut all = Vec::new(alloc);
    holder.add_mentions(&mut all)?;
    match count_named(terms, named, &all) {
        Some(count) => Ok(count),
        None => Err(WireFault::NotAMessage),
    }
}

// The same of these mentions; none where a term is passed over.
fn count_named(terms: &TermList, named: usize, mentions: &[&Poly]) -> Option<usize>
    ensures count { IfSome result (λ n. n ≡ length (named_with terms.now named (map (λ p. p.now) mentions.now))) }
    ensures order { IfSome result (λ n. AreInOrder (listed terms.now named) (map (λ p. p.now) mentions.now)) }
    ensures wrong { result ≡ None → ¬ AreInOrder (listed terms.now named) (map (λ p. p.now) mentions.now) }
{
    let mut count = named.min(terms.len());
    for mention in mentions {
        let Some(place) = terms.place(mention) else {
            return None;
        };
        if place > count {
            return None;
        }
        if place == count {
            count += 1;
        }
    }
    Some(count)
}

/// Whether each term was named, where so many were.
pub(crate) fn are_all_named(terms: &Option<TermList>, named: usize) -> bool
    ensures { result ≡ true ↔ AllNamed (naming terms.now named) }
{
    match terms {
        None => true,
        Some(list) => named == list.len(),
    }
}
