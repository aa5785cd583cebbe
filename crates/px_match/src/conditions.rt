ghost use Rattle.std.specs.Prelude.{◌≡◌, false, Some, IfOk};
ghost use Rattle.px_terms.specs.declared.conjuncts.Content.TheVariants as content;
ghost use Rattle.px_callgraph.specs.Operations as spec;
ghost use Rattle.px_match.specs.Operated.{IsCompared};

use crate::decisions::keep_short;
use crate::results::difference;
use px_core::Comparison;
use px_terms::{ByValue, Conj, Content, NoMemory, Place, Poly};
use std::alloc::Global;

/// What a comparison assumes of two contents.
#[derive(Drop)]
pub enum Compared {
    /// The contents aren't of the comparison's kind.
    Unfit,
    Assumes(Conj),
    /// A polynomial of the conjunct is too long to be kept.
    TooLong,
}

// What a comparison assumes of two words.
fn of_words(alloc: Global, how: Comparison, p: &Poly, q: &Poly) -> Result<Compared, NoMemory>
    ensures { IfOk result (λ r. IsCompared r (spec.condition how (content.Word p.now) (content.Word q.now))) }
{
    keep_short(p);
    keep_short(q);
    Ok(match how {
        Comparison::Equal => match difference(p, q)? {
            Some(d) => Compared::Assumes(Conj::Equal(d)),
            None => Compared::TooLong,
        },
        Comparison::Unequal => match difference(p, q)? {
            Some(d) => Compared::Assumes(Conj::Unequal(d)),
            None => Compared::TooLong,
        },
        Comparison::Less => Compared::Assumes(Conj::Less(p.copy_in(alloc)?, q.copy_in(alloc)?)),
        Comparison::AtMost => Compared::Assumes(Conj::AtMost(p.copy_in(alloc)?, q.copy_in(alloc)?)),
        Comparison::SamePlace | Comparison::OtherPlace => Compared::Unfit,
    })
}

// What a comparison assumes of two places.
fn of_places(how: Comparison, a: Place, b: Place) -> Compared
    ensures { IsCompared result (spec.condition how (content.Place a) (content.Place b)) }
{
    match how {
        Comparison::SamePlace => Compared::Assumes(Conj::SamePlace(a, b)),
        Comparison::OtherPlace => Compared::Assumes(Conj::OtherPlace(a, b)),
        _ => Compared::Unfit,
    }
}

/// What is assumed where a comparison is true.
pub fn condition(
    alloc: Global,
    how: Comparison,
    a: &Content,
    b: &Content,
) -> Result<Compared, NoMemory>
    ensures { IfOk result (λ r. IsCompared r (spec.condition how a.now b.now)) }
{
    match (a, b) {
        (Content::Word(p), Content::Word(q)) => of_words(alloc, how, p, q),
        (Content::Place(a), Content::Place(b)) => Ok(of_places(how, *a, *b)),
        _ => Ok(Compared::Unfit),
    }
}

/// What is assumed where a comparison is false.
pub fn contrary(
    alloc: Global,
    how: Comparison,
    a: &Content,
    b: &Content,
) -> Result<Compared, NoMemory>
    ensures { IfOk result (λ r. IsCompared r (spec.contrary how a.now b.now)) }
{
    match how {
        Comparison::Equal => condition(alloc, Comparison::Unequal, a, b),
        Comparison::Unequal => condition(alloc, Comparison::Equal, a, b),
        Comparison::Less => condition(alloc, Comparison::AtMost, b, a),
        Comparison::AtMost => condition(alloc, Comparison::Less, b, a),
        Comparison::SamePlace => condition(alloc, Comparison::OtherPlace, a, b),
        Comparison::OtherPlace => condition(alloc, Comparison::SamePlace, a, b),
    }
}
