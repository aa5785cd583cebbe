ghost use Rattle.std.specs.Prelude.{◌≡◌, ◌↔◌, true, length, map, IfOk, IfSome, IsSome};
ghost use Rattle.px_spelling.specs.ByPlace.{distinct, Differ, place_in, IsIndex};

use crate::places::{Lent, first_place, is_first_at, sorted_places};
use crate::spell::write_count;
use crate::{Output, Terms, Wire, WireFault};
use px_terms::{Items, NoMemory, Poly};
use std::alloc::Global;
use std::marker::Model;

/// Different polynomials in order. The place of one is found in a time as the logarithm of their number.
#[derive(Drop)]
pub struct TermList {
    terms: Items<Poly>,
    /// Their places, in the order of what stands there.
    places: Vec<usize>,
}

impl Model for TermList {
    ghost use Rattle.std.specs.Prelude.{List};
    ghost use Rattle.px_terms.specs.Polynomials.{Polynomial};
    ghost use Rattle.px_spelling.specs.ByPlace.{Differ, IsIndex};

    ghost Value = { List Polynomial };

    ghost view = { λ s. s.terms };

    ghost invariant = { λ s. Differ s.terms × IsIndex s.terms s.places.items };
}

impl TermList {
    /// The list of these polynomials; none where two are the same.
    pub fn new(alloc: Global, terms: Items<Poly>) -> Result<Option<TermList>, NoMemory>
        ensures same { IfOk result (λ o. IfSome o (λ s. s ≡ terms)) }
        ensures differ { IfOk result (λ o. IsSome o ↔ Differ terms) }
    {
        let places = sorted_places(alloc, &terms)?;
        if do_differ(&terms, &places) {
            Ok(Some(TermList { terms, places }))
        } else {
            Ok(None)
        }
    }

    /// The polynomials. Takes no memory.
    pub fn as_slice(&self) -> &[Poly]
        ensures same { result.now ≡ self.now }
        ensures differ { Differ self.now }
    {
        self.terms.as_slice()
    }

    /// How many they are. Takes no memory.
    pub fn len(&self) -> usize
        ensures count { result ≡ length self.now }
        ensures differ { Differ self.now }
    {
        self.terms.len()
    }

    /// The place of a polynomial, if it is among them. Takes no memory.
    pub fn place(&self, polynomial: &Poly) -> Option<usize>
        ensures { result ≡ place_in self.now polynomial.now }
    {
        first_place(&self.terms, &self.places, polynomial)
    }

    /// Whether these are the polynomials of mentions, each once, in the order of their first mentions. Takes no memory.
    pub fn lists(&self, mentions: &[&Poly]) -> bool
        ensures { result ≡ true ↔ distinct (map (λ p. p.now) mentions.now) ≡ self.now }
    {
        let most = self.len();
        let mut count = 0;
        for mention in mentions {
            let Some(place) = self.place(mention) else {
                return false;
            };
            if place > count {
                return false;
            }
            if place == count {
                count += 1;
            }
        }
        count == most
    }
}

/// The polynomials of mentions, each once, in the order of their first mentions.
pub fn distinct(alloc: Global, mentions: &[&Poly]) -> Result<TermList, NoMemory>
    ensures { IfOk result (λ s. s ≡ distinct (map (λ p. p.now) mentions.now)) }
{
    let terms = first_mentions(alloc, mentions)?;
    let places = sorted_places(alloc, &terms)?;
    Ok(TermList { terms, places })
}

// A copy of each, where it is mentioned first.
fn first_mentions(alloc: Global, mentions: &[&Poly]) -> Result<Items<Poly>, NoMemory>
    ensures { IfOk result (λ s. s ≡ distinct (map (λ p. p.now) mentions.now)) }
{
    let lent = Lent { all: mentions };
    let places = sorted_places(alloc, &lent)?;
    let mut terms = Vec::new(alloc);
    for i in 0..mentions.len() {
        if is_first_at(&lent, &places, i) {
            terms.push(mentions[i].copy()?)?;
        }
    }
    Ok(Items::from_vec(terms))
}

// Whether no two are the same: whether each stands first at its own place.
fn do_differ(terms: &Items<Poly>, places: &[usize]) -> bool
    requires { IsIndex terms.now places.now }
    ensures { result ≡ true ↔ Differ terms.now }
{
    for i in 0..terms.len() {
        if !is_first_at(terms, places, i) {
            return false;
        }
    }
    true
}

impl Terms for TermList {
    ghost use Rattle.px_spelling.specs.ByPlace.{by_place};

    ghost spelling = { λ s. by_place s };

    fn write_polynomial<O: Output>(&self, polynomial: &Poly, out: &mut O, target: &mut O::Target) {
        match self.place(polynomial) {
            None => {}
            Some(place) => write_count(place, out, target),
        }
    }

    fn read_polynomial<'a>(
        &self,
        alloc: Global,
        bytes: &'a [u8],
    ) -> Result<(Poly, &'a [u8]), WireFault> {
        let (place, rest) = u32::read(alloc, bytes)?;
        match self.terms.get(place as usize) {
            None => Err(WireFault::NotAMessage),
            Some(term) => Ok((term.copy()?, rest)),
        }
    }

    fn is_in_range(&self, polynomial: &Poly) -> bool {
        match self.place(polynomial) {
            None => false,
            Some(place) => place <= u32::MAX as usize,
        }
    }
}
