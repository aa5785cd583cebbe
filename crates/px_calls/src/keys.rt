ghost use Rattle.std.specs.Prelude.{◌≡◌, ◌-◌, length, map, slice_get, option_map, IfOk};
ghost use Rattle.std.specs.List.{list_any};
ghost use Rattle.px_terms.specs.Monomials.{term_of};
ghost use Rattle.px_entry.specs.Equality.{same_conjunct};
ghost use Rattle.px_calls.specs.Keys as spec;

use px_terms::{Conj, Monomial, NoMemory, Place, Poly};
use std::alloc::Global;

fn first_of(xs: &[u32]) -> u32
    ensures { result ≡ spec.first_of xs.now }
{
    match xs {
        [] => 0,
        [x, ..] => *x,
    }
}

fn last_variable(all: &[Monomial<4>]) -> u32
    ensures { result ≡ spec.first_variable (option_map term_of (slice_get all.now (length all.now - 1))) }
{
    match all.last() {
        Some(m) => first_of(m.vars()),
        None => 0,
    }
}

fn word_key(p: &Poly) -> u32
    ensures { result ≡ spec.word_key p.now }
{
    last_variable(p.monomials())
}

fn place_key(place: Place) -> u32
    ensures { result ≡ spec.place_key place }
{
    match place {
        Place::Null => 0,
        Place::Var(x) => x.0,
    }
}

/// A number that equal conjuncts share, and others seldom do.
pub(crate) fn key_of(c: &Conj) -> u32
    ensures { result ≡ spec.key_of c.now }
{
    match c {
        Conj::Equal(p) | Conj::Unequal(p) => word_key(p),
        Conj::Less(p, q) | Conj::AtMost(p, q) => word_key(p).max(word_key(q)),
        Conj::SamePlace(a, b) | Conj::OtherPlace(a, b) => place_key(*a).max(place_key(*b)),
        Conj::Written(x) | Conj::Unwritten(x) | Conj::Quotient(x, _, _) => x.0,
    }
}

/// The numbers of conjuncts, in order.
pub(crate) fn keys_of(alloc: Global, all: &[Conj]) -> Result<Vec<u32>, NoMemory>
    ensures { IfOk result (λ keys. keys.items ≡ map spec.key_of all.now) }
{
    let mut keys = Vec::with_capacity(alloc, all.len())?;
    for c in all {
        keys.push(key_of(c))?;
    }
    Ok(keys)
}

// Whether both are the same conjunct, where these are their numbers.
fn is_same(key: u32, c: &Conj, other_key: u32, other: &Conj) -> bool
    requires one { key ≡ spec.key_of c.now }
    requires other { other_key ≡ spec.key_of other.now }
    ensures { result ≡ same_conjunct c.now other.now }
{
    key == other_key && c.equals(other)
}

/// Whether a conjunct is one of those that stand beside their numbers. It is compared with those of its own number alone.
pub(crate) fn is_among(keys: &[u32], all: &[Conj], key: u32, c: &Conj) -> bool
    requires keys { keys.now ≡ map spec.key_of all.now }
    requires key { key ≡ spec.key_of c.now }
    ensures { result ≡ list_any (same_conjunct c.now) all.now }
{
    for i in 0..all.len() {
        if is_same(key, c, keys[i], &all[i]) {
            return true;
        }
    }
    false
}
