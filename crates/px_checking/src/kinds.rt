ghost use Rattle.std.specs.Prelude.{◌≡◌, ℕ, List, [], All, map};
ghost use Rattle.std.specs.List.Sorted.{IsPermutation};
ghost use Rattle.px_checking.specs.Kinds.{AreOwnKinds, ArePlaces, IsRisingOf, place_of, rank_of};

use px_terms::Domain;

/// Where the domains of the three kinds stood. A kind that no domain was of has the number of all domains.
#[derive(Clone, Copy)]
pub struct Places {
    one: usize,
    two: usize,
    three: usize,
}

/// Puts domains in the rising order of their kinds, and answers where they stood. Takes no memory.
pub fn sort_by_kind(domains: &mut Vec<Box<dyn Domain>>) -> Places
    ensures rising { IsRisingOf (map (λ b. number b) domains.old.items) (map (λ b. number b) domains.new.items) }
    ensures places { ArePlaces (map (λ b. number b) domains.old.items) result }
    ensures clear { All (λ b. holds b []) domains.old.items → All (λ b. holds b []) domains.new.items }
{
    let places = Places {
        one: place_of(domains, 1),
        two: place_of(domains, 2),
        three: place_of(domains, 3),
    };
    domains.sort_unstable_by_key(
        |domain: &Box<dyn Domain>|
            ensures { result ≡ number domain.now }
        { domain.kind() },
    );
    places
}

/// Puts domains back to where they stood. Takes no memory.
pub fn put_back(domains: &mut Vec<Box<dyn Domain>>, places: Places)
    ensures stand { (kinds : List ℕ) → AreOwnKinds kinds → ArePlaces kinds places → IsPermutation kinds (map (λ b. number b) domains.old.items) → map (λ b. number b) domains.new.items ≡ kinds }
    ensures clear { All (λ b. holds b []) domains.old.items → All (λ b. holds b []) domains.new.items }
{
    domains.sort_unstable_by_key(
        |domain: &Box<dyn Domain>|
            ensures { result ≡ rank_of places (number domain.now) }
        { rank_of(places, domain.kind()) },
    );
}

// The place of the first domain of a kind.
fn place_of(domains: &[Box<dyn Domain>], kind: u8) -> usize
    ensures { result ≡ place_of (map (λ b. number b) domains.now) kind }
{
    for place in 0..domains.len() {
        if kind_of(&domains[place]) == kind {
            return place;
        }
    }
    domains.len()
}

fn kind_of(domain: &Box<dyn Domain>) -> u8
    ensures { result ≡ number domain.now }
{
    domain.kind()
}

fn rank_of(places: Places, kind: u8) -> usize
    ensures { result ≡ rank_of places kind }
{
    match kind {
        1 => places.one,
        2 => places.two,
        _ => places.three,
    }
}
