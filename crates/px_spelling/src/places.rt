ghost use Rattle.std.specs.Prelude.{◌≡◌, length, slice_get, IfOk};
ghost use Rattle.std.specs.Option.{option_copied};
ghost use Rattle.px_spelling.specs.ByPlace.{place_in, order_at, place_cmp, is_first_at, IsIndex};

use crate::polynomial_order::order;
use px_terms::{Items, NoMemory, Poly};
use std::alloc::Global;
use std::cmp::Ordering;

/// Polynomials in order, wherever they stand.
pub(crate) trait Listed {
    ghost use Rattle.std.specs.Prelude.{List};
    ghost use Rattle.px_terms.specs.Polynomials.{Polynomial};

    ghost polynomials: { Self → List Polynomial };

    /// How many they are. Takes no memory.
    fn count(&self) -> usize
        ensures { result ≡ length (polynomials self.now) };

    /// The one at a place, if there is one. Takes no memory.
    fn at(&self, place: usize) -> Option<&Poly>
        ensures { option_copied result ≡ slice_get (polynomials self.now) place };
}

impl Listed for Items<Poly> {
    ghost polynomials = { λ s. s };

    fn count(&self) -> usize {
        self.len()
    }

    fn at(&self, place: usize) -> Option<&Poly> {
        self.get(place)
    }
}

/// Polynomials that stand elsewhere.
#[derive(Drop)]
pub(crate) struct Lent<'a> {
    pub(crate) all: &'a [&'a Poly],
}

impl Listed for Lent<'_> {
    ghost use Rattle.std.specs.Prelude.{map};

    ghost polynomials = { λ s. map (λ p. p.now) s.all.now };

    fn count(&self) -> usize {
        self.all.len()
    }

    fn at(&self, place: usize) -> Option<&Poly> {
        match self.all.get(place) {
            None => None,
            Some(polynomial) => Some(*polynomial),
        }
    }
}

/// Each place, by what stands there; those of the same polynomial in their order.
pub(crate) fn sorted_places<L: Listed>(alloc: Global, terms: &L) -> Result<Vec<usize>, NoMemory>
    ensures { IfOk result (λ places. IsIndex (L.polynomials terms.now) places.items) }
{
    let mut places = Vec::new(alloc);
    for place in 0..terms.count() {
        places.push(place)?;
    }
    places.sort_unstable_by(|i, j| order_places(terms, *i, *j));
    Ok(places)
}

fn order_places<L: Listed>(terms: &L, i: usize, j: usize) -> Ordering
    ensures { result ≡ place_cmp (L.polynomials terms.now) i j }
{
    let by_polynomial = match (terms.at(i), terms.at(j)) {
        (None, None) => Ordering::Equal,
        (None, Some(_)) => Ordering::Less,
        (Some(_), None) => Ordering::Greater,
        (Some(a), Some(b)) => order(a, b),
    };
    by_polynomial.then(i.cmp(&j))
}

// What stands at a place, against a polynomial.
fn order_at<L: Listed>(terms: &L, polynomial: &Poly, place: usize) -> Ordering
    ensures { result ≡ order_at (L.polynomials terms.now) polynomial.now place }
{
    match terms.at(place) {
        None => Ordering::Less,
        Some(term) => order(term, polynomial),
    }
}

/// The first place of a polynomial, if it is there. Takes no memory, and a time as the logarithm of their number.
pub(crate) fn first_place<L: Listed>(
    terms: &L,
    places: &[usize],
    polynomial: &Poly,
) -> Option<usize>
    requires { IsIndex (L.polynomials terms.now) places.now }
    ensures { result ≡ place_in (L.polynomials terms.now) polynomial.now }
{
    let end = places.partition_point(|place| order_at(terms, polynomial, *place).is_lt());
    if end == places.len() {
        return None;
    }
    let place = places[end];
    if order_at(terms, polynomial, place).is_eq() {
        Some(place)
    } else {
        None
    }
}

/// Whether what stands at a place stands at none before it. Takes no memory.
pub(crate) fn is_first_at<L: Listed>(terms: &L, places: &[usize], place: usize) -> bool
    requires { IsIndex (L.polynomials terms.now) places.now }
    ensures { result ≡ is_first_at (L.polynomials terms.now) place }
{
    match terms.at(place) {
        None => false,
        Some(polynomial) => first_place(terms, places, polynomial) == Some(place),
    }
}
