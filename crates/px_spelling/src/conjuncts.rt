ghost use Rattle.std.specs.Prelude.{◌≡◌, ◌++◌, ◌∷◌, IfOk};
ghost use Rattle.px_terms.specs.declared.conjuncts.Content.TheVariants as content;
ghost use Rattle.px_spelling.specs.Reading.{Gives, ◌<*>◌, done};
ghost use Rattle.px_spelling.specs.Types.{var_bytes};
ghost use Rattle.px_spelling.specs.Conjuncts.{place_bytes, IsPlace, place_at, content_bytes, IsContent, content_at, conj_bytes, IsConj, conj_at};

use crate::{Output, Terms, Wire, WireFault, WireWith};
use px_terms::{Conj, Content, Place, Poly, Var};
use std::alloc::Global;

impl Wire for Place {
    ghost bytes_of = { place_bytes };

    ghost fits = { IsPlace };

    ghost at = { place_at };

    fn write<O: Output>(&self, out: &mut O, target: &mut O::Target) {
        match self {
            Place::Null => 0u8.write(out, target),
            Place::Var(var) => {
                1u8.write(out, target);
                var.write(out, target)
            }
        }
    }

    #[tactic(auto, unfolding(crate::specs::Conjuncts::place_at, crate::specs::Conjuncts::place_with))]
    fn read(alloc: Global, bytes: &[u8]) -> Result<(Place, &[u8]), WireFault> {
        let (tag, rest) = u8::read(alloc, bytes)?;
        match tag {
            0 => Ok((Place::Null, rest)),
            1 => {
                let (var, rest) = Var::read(alloc, rest)?;
                Ok((Place::Var(var), rest))
            }
            _ => Err(WireFault::NotAMessage),
        }
    }

    fn is_in_range(&self) -> bool {
        match self {
            Place::Null => true,
            Place::Var(var) => var.is_in_range(),
        }
    }
}

impl WireWith for Content {
    ghost bytes_with = { content_bytes };

    ghost fits_with = { IsContent };

    ghost at_with = { content_at };

    fn write_with<S: Terms, O: Output>(&self, terms: &S, out: &mut O, target: &mut O::Target) {
        match self {
            Content::Unwritten => 0u8.write(out, target),
            Content::Word(word) => {
                1u8.write(out, target);
                terms.write_polynomial(word, out, target)
            }
            Content::Place(place) => {
                2u8.write(out, target);
                place.write(out, target)
            }
            Content::Cell(var) => {
                3u8.write(out, target);
                var.write(out, target)
            }
        }
    }

    #[tactic(auto, unfolding(crate::specs::Conjuncts::content_at, crate::specs::Conjuncts::content_with))]
    fn read_with<'a, S: Terms>(
        terms: &S,
        alloc: Global,
        bytes: &'a [u8],
    ) -> Result<(Content, &'a [u8]), WireFault> {
        let (tag, rest) = u8::read(alloc, bytes)?;
        match tag {
            0 => Ok((Content::Unwritten, rest)),
            1 => read_word(terms, alloc, rest),
            2 => {
                let (place, rest) = Place::read(alloc, rest)?;
                Ok((Content::Place(place), rest))
            }
            3 => {
                let (var, rest) = Var::read(alloc, rest)?;
                Ok((Content::Cell(var), rest))
            }
            _ => Err(WireFault::NotAMessage),
        }
    }

    fn is_in_range_with<S: Terms>(&self, terms: &S) -> bool {
        match self {
            Content::Unwritten => true,
            Content::Word(word) => terms.is_in_range(word),
            Content::Place(place) => place.is_in_range(),
            Content::Cell(var) => var.is_in_range(),
        }
    }
}

// A word at the front, behind the byte that says that it is one.
fn read_word<'a, S: Terms>(
    terms: &S,
    alloc: Global,
    bytes: &'a [u8],
) -> Result<(Content, &'a [u8]), WireFault>
    ensures reads { Gives (λ x. (x.0, x.1.now)) result ((done content.Word <*> (S.spelling terms.now).at) bytes.now) }
    ensures spelled { IfOk result (λ x. (1 ∷ bytes.now ≡ content_bytes (S.spelling terms.now) x.0 ++ x.1.now) × IsContent (S.spelling terms.now) x.0) }
{
    let (word, rest) = terms.read_polynomial(alloc, bytes)?;
    Ok((Content::Word(word), rest))
}

impl WireWith for Option<Content> {
    ghost use Rattle.std.specs.Prelude.{IfSome};
    ghost use Rattle.px_spelling.specs.Lists.{option_bytes, option_at};

    ghost bytes_with = { λ p. option_bytes (content_bytes p) };

    ghost fits_with = { λ p o. IfSome o (IsContent p) };

    ghost at_with = { λ p. option_at (content_at p) };

    fn write_with<S: Terms, O: Output>(&self, terms: &S, out: &mut O, target: &mut O::Target) {
        match self {
            None => 0u8.write(out, target),
            Some(content) => {
                1u8.write(out, target);
                content.write_with(terms, out, target)
            }
        }
    }

    #[tactic(auto, unfolding(crate::specs::Lists::option_at, crate::specs::Lists::option_with))]
    fn read_with<'a, S: Terms>(
        terms: &S,
        alloc: Global,
        bytes: &'a [u8],
    ) -> Result<(Option<Content>, &'a [u8]), WireFault> {
        let (tag, rest) = u8::read(alloc, bytes)?;
        match tag {
            0 => Ok((None, rest)),
            1 => {
                let (content, rest) = Content::read_with(terms, alloc, rest)?;
                Ok((Some(content), rest))
            }
            _ => Err(WireFault::NotAMessage),
        }
    }

    fn is_in_range_with<S: Terms>(&self, terms: &S) -> bool {
        match self {
            None => true,
            Some(content) => content.is_in_range_with(terms),
        }
    }
}

// Puts the parts of a quotient after others.
fn write_quotient<S: Terms, O: Output>(
    terms: &S,
    var: Var,
    left: &Poly,
    right: &Poly,
    out: &mut O,
    target: &mut O::Target,
)
    ensures written { O.written out.new ≡ O.written out.old ++ (var_bytes var ++ (S.spelling terms.now).bytes_of left.now ++ (S.spelling terms.now).bytes_of right.now) }
    ensures reached { (from : O.Target) → O.reaches from out.old target.old → O.reaches from out.new target.new }
{
    var.write(out, target);
    terms.write_polynomial(left, out, target);
    terms.write_polynomial(right, out, target)
}

impl WireWith for Conj {
    ghost bytes_with = { conj_bytes };

    ghost fits_with = { IsConj };

    ghost at_with = { conj_at };

    fn write_with<S: Terms, O: Output>(&self, terms: &S, out: &mut O, target: &mut O::Target) {
        match self {
            Conj::Equal(difference) => {
                0u8.write(out, target);
                terms.write_polynomial(difference, out, target)
            }
            Conj::Unequal(difference) => {
                1u8.write(out, target);
                terms.write_polynomial(difference, out, target)
            }
            Conj::Less(left, right) => {
                2u8.write(out, target);
                terms.write_polynomial(left, out, target);
                terms.write_polynomial(right, out, target)
            }
            Conj::AtMost(left, right) => {
                3u8.write(out, target);
                terms.write_polynomial(left, out, target);
                terms.write_polynomial(right, out, target)
            }
            Conj::SamePlace(left, right) => {
                4u8.write(out, target);
                left.write(out, target);
                right.write(out, target)
            }
            Conj::OtherPlace(left, right) => {
                5u8.write(out, target);
                left.write(out, target);
                right.write(out, target)
            }
            Conj::Written(var) => {
                6u8.write(out, target);
                var.write(out, target)
            }
            Conj::Unwritten(var) => {
                7u8.write(out, target);
                var.write(out, target)
            }
            Conj::Quotient(var, left, right) => {
                8u8.write(out, target);
                write_quotient(terms, *var, left, right, out, target)
            }
        }
    }

    #[tactic(auto, unfolding(crate::specs::Conjuncts::conj_at, crate::specs::Conjuncts::conj_with))]
    fn read_with<'a, S: Terms>(
        terms: &S,
        alloc: Global,
        bytes: &'a [u8],
    ) -> Result<(Conj, &'a [u8]), WireFault> {
        let (tag, rest) = u8::read(alloc, bytes)?;
        match tag {
            0 => {
                let (difference, rest) = terms.read_polynomial(alloc, rest)?;
                Ok((Conj::Equal(difference), rest))
            }
            1 => {
                let (difference, rest) = terms.read_polynomial(alloc, rest)?;
                Ok((Conj::Unequal(difference), rest))
            }
            2 => {
                let (left, rest) = terms.read_polynomial(alloc, rest)?;
                let (right, rest) = terms.read_polynomial(alloc, rest)?;
                Ok((Conj::Less(left, right), rest))
            }
            3 => {
                let (left, rest) = terms.read_polynomial(alloc, rest)?;
                let (right, rest) = terms.read_polynomial(alloc, rest)?;
                Ok((Conj::AtMost(left, right), rest))
            }
            4 => {
                let (left, rest) = Place::read(alloc, rest)?;
                let (right, rest) = Place::read(alloc, rest)?;
                Ok((Conj::SamePlace(left, right), rest))
            }
            5 => {
                let (left, rest) = Place::read(alloc, rest)?;
                let (right, rest) = Place::read(alloc, rest)?;
                Ok((Conj::OtherPlace(left, right), rest))
            }
            6 => {
                let (var, rest) = Var::read(alloc, rest)?;
                Ok((Conj::Written(var), rest))
            }
            7 => {
                let (var, rest) = Var::read(alloc, rest)?;
                Ok((Conj::Unwritten(var), rest))
            }
            8 => {
                let (var, rest) = Var::read(alloc, rest)?;
                let (left, rest) = terms.read_polynomial(alloc, rest)?;
                let (right, rest) = terms.read_polynomial(alloc, rest)?;
                Ok((Conj::Quotient(var, left, right), rest))
            }
            _ => Err(WireFault::NotAMessage),
        }
    }

    fn is_in_range_with<S: Terms>(&self, terms: &S) -> bool {
        match self {
            Conj::Equal(difference) | Conj::Unequal(difference) => terms.is_in_range(difference),
            Conj::Less(left, right) | Conj::AtMost(left, right) => {
                terms.is_in_range(left) && terms.is_in_range(right)
            }
            Conj::SamePlace(left, right) | Conj::OtherPlace(left, right) => {
                left.is_in_range() && right.is_in_range()
            }
            Conj::Written(var) | Conj::Unwritten(var) => var.is_in_range(),
            Conj::Quotient(var, left, right) => {
                var.is_in_range() && terms.is_in_range(left) && terms.is_in_range(right)
            }
        }
    }
}
