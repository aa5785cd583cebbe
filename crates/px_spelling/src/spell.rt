ghost use Rattle.std.specs.Prelude.{◌≡◌, ◌↔◌, ◌++◌, ◌≤◌, true, length, IfOk};
ghost use Rattle.std.specs.List.{flat_map, AllByRecursion};
ghost use Rattle.px_spelling.specs.Reading.{Gives};
ghost use Rattle.px_spelling.specs.Numbers.{u32_bytes};
ghost use Rattle.px_spelling.specs.Lists.{list_bytes, IsList, items_at, list_at};

use crate::terms::NoTerms;
use crate::{Output, Terms, WireFault};
use px_terms::Items;
use std::alloc::Global;

/// What is written as bytes and read again, in one way.
pub trait Wire: Drop {
    ghost use Rattle.std.specs.Prelude.{List, ℕ};
    ghost use Rattle.px_spelling.specs.Reading.{Reader};

    // its bytes
    ghost bytes_of: { Self → List ℕ };

    // its numbers and lists are in range
    ghost fits: { Self → Type 0 };

    // the one at the front of bytes
    ghost at: { Reader Self };

    /// Puts its bytes.
    fn write<O: Output>(&self, out: &mut O, target: &mut O::Target)
        ensures written { O.written out.new ≡ O.written out.old ++ bytes_of self.now }
        ensures reached { (from : O.Target) → O.reaches from out.old target.old → O.reaches from out.new target.new };

    /// The one at the front, and the bytes after it.
    fn read(alloc: Global, bytes: &[u8]) -> Result<(Self, &[u8]), WireFault>
        ensures reads { Gives (λ x. (x.0, x.1.now)) result (at bytes.now) }
        ensures spelled { IfOk result (λ x. (bytes.now ≡ bytes_of x.0 ++ x.1.now) × fits x.0) };

    /// Whether its numbers and lists are in range, so that its bytes are read again as it is. Takes no memory.
    fn is_in_range(&self) -> bool
        ensures { result ≡ true ↔ fits self.now };
}

/// What may hold polynomials. It is written as bytes and read again, in each spelling of these.
pub trait WireWith: Drop {
    ghost use Rattle.std.specs.Prelude.{List, ℕ};
    ghost use Rattle.px_spelling.specs.Reading.{Reader};
    ghost use Rattle.px_spelling.specs.Polynomials.{PolynomialSpelling};

    // its bytes
    ghost bytes_with: { PolynomialSpelling → Self → List ℕ };

    // its numbers, lists and polynomials are in range
    ghost fits_with: { PolynomialSpelling → Self → Type 0 };

    // the one at the front of bytes
    ghost at_with: { PolynomialSpelling → Reader Self };

    /// Puts its bytes.
    fn write_with<S: Terms, O: Output>(&self, terms: &S, out: &mut O, target: &mut O::Target)
        ensures written { O.written out.new ≡ O.written out.old ++ bytes_with (S.spelling terms.now) self.now }
        ensures reached { (from : O.Target) → O.reaches from out.old target.old → O.reaches from out.new target.new };

    /// The one at the front, and the bytes after it.
    fn read_with<'a, S: Terms>(
        terms: &S,
        alloc: Global,
        bytes: &'a [u8],
    ) -> Result<(Self, &'a [u8]), WireFault>
        ensures reads { Gives (λ x. (x.0, x.1.now)) result (at_with (S.spelling terms.now) bytes.now) }
        ensures spelled { IfOk result (λ x. (bytes.now ≡ bytes_with (S.spelling terms.now) x.0 ++ x.1.now) × fits_with (S.spelling terms.now) x.0) };

    /// Whether its numbers, lists and polynomials are in range, so that its bytes are read again as it is. Takes no memory.
    fn is_in_range_with<S: Terms>(&self, terms: &S) -> bool
        ensures { result ≡ true ↔ fits_with (S.spelling terms.now) self.now };
}

// What holds no polynomials is spelled in the same way, however these are.
impl<T: Wire> WireWith for T {
    ghost bytes_with = { λ p. T.bytes_of };

    ghost fits_with = { λ p. T.fits };

    ghost at_with = { λ p. T.at };

    fn write_with<S: Terms, O: Output>(&self, _: &S, out: &mut O, target: &mut O::Target) {
        self.write(out, target)
    }

    fn read_with<'a, S: Terms>(
        _: &S,
        alloc: Global,
        bytes: &'a [u8],
    ) -> Result<(T, &'a [u8]), WireFault> {
        T::read(alloc, bytes)
    }

    fn is_in_range_with<S: Terms>(&self, _: &S) -> bool {
        self.is_in_range()
    }
}

impl<T: Wire> Wire for Option<T> {
    ghost use Rattle.std.specs.Prelude.{IfSome};
    ghost use Rattle.px_spelling.specs.Lists.{option_bytes, option_at};

    ghost bytes_of = { option_bytes T.bytes_of };

    ghost fits = { λ o. IfSome o T.fits };

    ghost at = { option_at T.at };

    fn write<O: Output>(&self, out: &mut O, target: &mut O::Target) {
        match self {
            None => 0u8.write(out, target),
            Some(value) => {
                1u8.write(out, target);
                value.write(out, target)
            }
        }
    }

    #[tactic(auto, unfolding(crate::specs::Lists::option_at, crate::specs::Lists::option_with))]
    fn read(alloc: Global, bytes: &[u8]) -> Result<(Option<T>, &[u8]), WireFault> {
        let (tag, rest) = u8::read(alloc, bytes)?;
        match tag {
            0 => Ok((None, rest)),
            1 => {
                let (value, rest) = T::read(alloc, rest)?;
                Ok((Some(value), rest))
            }
            _ => Err(WireFault::NotAMessage),
        }
    }

    fn is_in_range(&self) -> bool {
        match self {
            None => true,
            Some(value) => value.is_in_range(),
        }
    }
}

impl<A: Wire, B: WireWith> WireWith for (A, B) {
    ghost use Rattle.px_spelling.specs.Lists.{pair_bytes, pair_at};

    ghost bytes_with = { λ p. pair_bytes A.bytes_of (B.bytes_with p) };

    ghost fits_with = { λ p x. A.fits x.0 × B.fits_with p x.1 };

    ghost at_with = { λ p. pair_at A.at (B.at_with p) };

    fn write_with<S: Terms, O: Output>(&self, terms: &S, out: &mut O, target: &mut O::Target) {
        self.0.write(out, target);
        self.1.write_with(terms, out, target)
    }

    #[tactic(auto, unfolding(crate::specs::Lists::pair_at))]
    fn read_with<'a, S: Terms>(
        terms: &S,
        alloc: Global,
        bytes: &'a [u8],
    ) -> Result<((A, B), &'a [u8]), WireFault> {
        let (first, rest) = A::read(alloc, bytes)?;
        let (second, rest) = B::read_with(terms, alloc, rest)?;
        Ok(((first, second), rest))
    }

    fn is_in_range_with<S: Terms>(&self, terms: &S) -> bool {
        self.0.is_in_range() && self.1.is_in_range_with(terms)
    }
}

/// A list of at most so many items at the front, and the bytes after it. Room is taken at once for as many items as the
/// bytes hold at four bytes each, so that a count that they don't hold takes no more.
pub fn read_items<T: Wire>(
    alloc: Global,
    most: u32,
    bytes: &[u8],
) -> Result<(Items<T>, &[u8]), WireFault>
    ensures reads { Gives (λ x. (x.0, x.1.now)) result (list_at T.at most bytes.now) }
    ensures spelled { IfOk result (λ x. (bytes.now ≡ list_bytes T.bytes_of x.0 ++ x.1.now) × IsList T.fits most x.0) }
{
    read_items_with(&NoTerms, alloc, most, bytes)
}

/// A list of at most so many items that may hold polynomials, as `read_items` reads one.
#[tactic(auto, unfolding(crate::specs::Lists::list_at))]
pub fn read_items_with<'a, T: WireWith, S: Terms>(
    terms: &S,
    alloc: Global,
    most: u32,
    bytes: &'a [u8],
) -> Result<(Items<T>, &'a [u8]), WireFault>
    ensures reads { Gives (λ x. (x.0, x.1.now)) result (list_at (T.at_with (S.spelling terms.now)) most bytes.now) }
    ensures spelled { IfOk result (λ x. (bytes.now ≡ list_bytes (T.bytes_with (S.spelling terms.now)) x.0 ++ x.1.now) × IsList (T.fits_with (S.spelling terms.now)) most x.0) }
{
    let (count, rest) = u32::read(alloc, bytes)?;
    if count > most {
        return Err(WireFault::NotAMessage);
    }
    read_all(terms, alloc, count, rest)
}

// So many items at the front.
fn read_all<'a, T: WireWith, S: Terms>(
    terms: &S,
    alloc: Global,
    count: u32,
    bytes: &'a [u8],
) -> Result<(Items<T>, &'a [u8]), WireFault>
    ensures reads { Gives (λ x. (x.0, x.1.now)) result (items_at (T.at_with (S.spelling terms.now)) count bytes.now) }
    ensures spelled { IfOk result (λ x. (bytes.now ≡ flat_map (T.bytes_with (S.spelling terms.now)) x.0 ++ x.1.now) × (length x.0 ≡ count) × AllByRecursion (T.fits_with (S.spelling terms.now)) x.0) }
{
    let mut items = Vec::with_capacity(alloc, room_of(count, bytes))?;
    let mut rest = bytes;
    for _ in 0..count {
        let (item, after) = T::read_with(terms, alloc, rest)?;
        items.push(item)?;
        rest = after;
    }
    Ok((Items::from_vec(items), rest))
}

// How many items room is taken for at once, where so many are to come.
fn room_of(count: u32, bytes: &[u8]) -> usize {
    (bytes.len() / 4).min(count as usize)
}

// The word that a count is written as. No list of a message in range has 2^32 items; of such a count this is what the low
// four bytes spell.
fn count_word(count: usize) -> u32
    ensures { u32_bytes result ≡ u32_bytes count }
{
    (count % 4_294_967_296) as u32
}

/// Puts a count.
pub fn write_count<O: Output>(count: usize, out: &mut O, target: &mut O::Target)
    ensures written { O.written out.new ≡ O.written out.old ++ u32_bytes count }
    ensures reached { (from : O.Target) → O.reaches from out.old target.old → O.reaches from out.new target.new }
{
    count_word(count).write(out, target)
}

/// Puts the bytes of a list.
pub fn write_items<T: Wire, O: Output>(items: &[T], out: &mut O, target: &mut O::Target)
    ensures written { O.written out.new ≡ O.written out.old ++ list_bytes T.bytes_of items.now }
    ensures reached { (from : O.Target) → O.reaches from out.old target.old → O.reaches from out.new target.new }
{
    write_items_with(&NoTerms, items, out, target)
}

/// Puts the bytes of a list whose items may hold polynomials.
pub fn write_items_with<T: WireWith, S: Terms, O: Output>(
    terms: &S,
    items: &[T],
    out: &mut O,
    target: &mut O::Target,
)
    ensures written { O.written out.new ≡ O.written out.old ++ list_bytes (T.bytes_with (S.spelling terms.now)) items.now }
    ensures reached { (from : O.Target) → O.reaches from out.old target.old → O.reaches from out.new target.new }
{
    write_count(items.len(), out, target);
    for item in items {
        item.write_with(terms, out, target);
    }
}

/// Whether a list has at most so many items, each in range. Takes no memory.
pub fn are_in_range<T: Wire>(most: u32, items: &[T]) -> bool
    ensures { result ≡ true ↔ IsList T.fits most items.now }
{
    are_in_range_with(&NoTerms, most, items)
}

/// Whether a list has at most so many items that may hold polynomials, each in range. Takes no memory.
pub fn are_in_range_with<T: WireWith, S: Terms>(terms: &S, most: u32, items: &[T]) -> bool
    ensures { result ≡ true ↔ IsList (T.fits_with (S.spelling terms.now)) most items.now }
{
    items.len() <= most as usize && is_each_in_range(terms, items)
}

fn is_each_in_range<T: WireWith, S: Terms>(terms: &S, items: &[T]) -> bool
    ensures { result ≡ true ↔ AllByRecursion (T.fits_with (S.spelling terms.now)) items.now }
{
    for item in items {
        if !item.is_in_range_with(terms) {
            return false;
        }
    }
    true
}
