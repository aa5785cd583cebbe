ghost use Rattle.std.specs.Prelude.{◌↔◌, true, ◌++◌, option_to_list, IfOk, OnOk, ◌≡◌, ◌+◌, ◌^◌, ◌<◌, ◌≤◌, All, IfSome, map};
ghost use Rattle.px_terms.specs.Monomials.{term_of};
ghost use Rattle.px_terms.specs.Conjuncts.{IsPlain};
ghost use Rattle.px_plain.specs.Readings as spec;
ghost use Rattle.px_plain.specs.Readings.{IsSmall, HasSmallVariables, word_differences, place_differences, unwritten_nodes, written_nodes};

use crate::nodes::{Difference, Parts, SignedVar};
use px_terms::{Conj, Monomial, Place, Poly};
use std::alloc::{AllocError, Global};

// A monomial as x or -x.
fn signed_of(monomial: &Monomial<4>) -> Option<SignedVar>
    requires { All (λ x. x < 65536) (term_of monomial.now).vars }
    ensures value { result ≡ spec.signed_of (term_of monomial.now) }
    ensures small { IfSome result IsSmall }
{
    let coefficient = monomial.coefficient();
    let [x] = monomial.vars() else {
        return None;
    };
    if coefficient == 1 {
        return Some(SignedVar::Plus(*x));
    }
    if coefficient == u32::MAX {
        return Some(SignedVar::Minus(*x));
    }
    None
}

// The difference that x + c or -x + c is.
fn of_one(c: u32, equal: bool, unit: SignedVar) -> Option<Difference>
    requires { IsSmall unit }
    ensures { result ≡ spec.of_one c equal unit }
{
    let (from, to) = match unit {
        SignedVar::Plus(x) => (x + 1, 0),
        SignedVar::Minus(x) => (0, x + 1),
    };
    Some(Difference {
        from,
        to,
        plus: c,
        equal,
    })
}

// The difference that x - y + c is.
fn of_two(c: u32, equal: bool, first: SignedVar, second: SignedVar) -> Option<Difference>
    requires first { IsSmall first }
    requires second { IsSmall second }
    ensures { result ≡ spec.of_two c equal first second }
{
    let (from, to) = match (first, second) {
        (SignedVar::Plus(x), SignedVar::Minus(y)) => (x + 1, y + 1),
        (SignedVar::Minus(y), SignedVar::Plus(x)) => (x + 1, y + 1),
        _ => return None,
    };
    Some(Difference {
        from,
        to,
        plus: c,
        equal,
    })
}

// The difference that a plain sum is.
fn difference_of(p: &Poly, equal: bool) -> Option<Difference>
    requires { All (λ t. All (λ x. x < 65536) t.vars) p.now.monomials }
    ensures { result ≡ spec.of_sum p.now.constant equal p.now.monomials }
{
    let c = p.constant();
    match p.monomials() {
        [] => Some(Difference {
            from: 0,
            to: 0,
            plus: c,
            equal,
        }),
        [s] => of_one(c, equal, signed_of(s)?),
        [s, t] => of_two(c, equal, signed_of(s)?, signed_of(t)?),
        _ => None,
    }
}

// The difference that a plain conjunct of words is.
pub(crate) fn word_difference(conjunct: &Conj) -> Option<Difference>
    requires { HasSmallVariables conjunct.now }
    ensures { result ≡ spec.word_difference conjunct.now }
{
    match conjunct {
        Conj::Equal(p) => difference_of(p, true),
        Conj::Unequal(p) => difference_of(p, false),
        _ => None,
    }
}

fn node_of(place: Place) -> u32
    requires { spec.node_of place ≤ 65536 }
    ensures { result ≡ spec.node_of place }
{
    match place {
        Place::Null => 0,
        Place::Var(x) => x.0 + 1,
    }
}

fn same_or_other(a: Place, b: Place, equal: bool) -> Difference
    requires first { spec.node_of a ≤ 65536 }
    requires second { spec.node_of b ≤ 65536 }
    ensures { result ≡ spec.same_or_other a b equal }
{
    Difference {
        from: node_of(a),
        to: node_of(b),
        plus: 0,
        equal,
    }
}

// The difference that a conjunct of places is.
pub(crate) fn place_difference(conjunct: &Conj) -> Option<Difference>
    requires { HasSmallVariables conjunct.now }
    ensures { result ≡ spec.place_difference conjunct.now }
{
    match conjunct {
        Conj::SamePlace(a, b) => Some(same_or_other(*a, *b, true)),
        Conj::OtherPlace(a, b) => Some(same_or_other(*a, *b, false)),
        _ => None,
    }
}

fn unwritten_node(conjunct: &Conj) -> Option<u32>
    requires { HasSmallVariables conjunct.now }
    ensures { result ≡ spec.unwritten_node conjunct.now }
{
    match conjunct {
        Conj::Unwritten(x) => Some(x.0 + 1),
        _ => None,
    }
}

fn written_node(conjunct: &Conj) -> Option<u32>
    requires { HasSmallVariables conjunct.now }
    ensures { result ≡ spec.written_node conjunct.now }
{
    match conjunct {
        Conj::Written(x) => Some(x.0 + 1),
        _ => None,
    }
}

fn add_difference(
    differences: &mut Vec<Difference>,
    difference: Option<Difference>,
) -> Result<(), AllocError>
    ensures { OnOk result (differences.new.items ≡ differences.old.items ++ option_to_list difference) }
{
    if let Some(difference) = difference {
        differences.push(difference)?;
    }
    Ok(())
}

fn add_node(nodes: &mut Vec<u32>, node: Option<u32>) -> Result<(), AllocError>
    ensures { OnOk result (nodes.new.items ≡ nodes.old.items ++ option_to_list node) }
{
    if let Some(node) = node {
        nodes.push(node)?;
    }
    Ok(())
}

// What the conjuncts say of words.
pub(crate) fn read_words(alloc: Global, conjuncts: &[Conj]) -> Result<Vec<Difference>, AllocError>
    requires { All HasSmallVariables conjuncts.now }
    ensures { IfOk result (λ ds. ds.items ≡ word_differences conjuncts.now) }
{
    let mut differences = Vec::new(alloc);
    for conjunct in conjuncts {
        add_difference(&mut differences, word_difference(conjunct))?;
    }
    Ok(differences)
}

/// Whether a conjunct is plain. Takes no memory.
pub fn is_plain(conjunct: &Conj) -> bool
    requires { HasSmallVariables conjunct.now }
    ensures { result ≡ true ↔ IsPlain conjunct.now }
{
    match conjunct {
        Conj::Equal(_) | Conj::Unequal(_) => word_difference(conjunct).is_some(),
        Conj::Less(_, _) | Conj::AtMost(_, _) | Conj::Quotient(_, _, _) => false,
        _ => true,
    }
}

// What they say of places.
fn read_places(alloc: Global, conjuncts: &[Conj]) -> Result<Vec<Difference>, AllocError>
    requires { All HasSmallVariables conjuncts.now }
    ensures { IfOk result (λ ds. ds.items ≡ place_differences conjuncts.now) }
{
    let mut differences = Vec::new(alloc);
    for conjunct in conjuncts {
        add_difference(&mut differences, place_difference(conjunct))?;
    }
    Ok(differences)
}

// Which nodes they say are unwritten.
fn read_unwritten(alloc: Global, conjuncts: &[Conj]) -> Result<Vec<u32>, AllocError>
    requires { All HasSmallVariables conjuncts.now }
    ensures { IfOk result (λ us. us.items ≡ unwritten_nodes conjuncts.now) }
{
    let mut nodes = Vec::new(alloc);
    for conjunct in conjuncts {
        add_node(&mut nodes, unwritten_node(conjunct))?;
    }
    Ok(nodes)
}

// Which nodes they say are written.
fn read_written(alloc: Global, conjuncts: &[Conj]) -> Result<Vec<u32>, AllocError>
    requires { All HasSmallVariables conjuncts.now }
    ensures { IfOk result (λ us. us.items ≡ written_nodes conjuncts.now) }
{
    let mut nodes = Vec::new(alloc);
    for conjunct in conjuncts {
        add_node(&mut nodes, written_node(conjunct))?;
    }
    Ok(nodes)
}

// What the plain conjuncts of a list say of nodes.
pub(crate) fn read_all(alloc: Global, conjuncts: &[Conj]) -> Result<Parts, AllocError>
    requires { All HasSmallVariables conjuncts.now }
    ensures words { IfOk result (λ p. p.words.items ≡ word_differences conjuncts.now) }
    ensures places { IfOk result (λ p. p.places.items ≡ place_differences conjuncts.now) }
    ensures unwritten { IfOk result (λ p. p.unwritten.items ≡ unwritten_nodes conjuncts.now) }
    ensures written { IfOk result (λ p. p.written.items ≡ written_nodes conjuncts.now) }
{
    let words = read_words(alloc, conjuncts)?;
    let places = read_places(alloc, conjuncts)?;
    let unwritten = read_unwritten(alloc, conjuncts)?;
    let written = read_written(alloc, conjuncts)?;
    Ok(Parts {
        words,
        places,
        unwritten,
        written,
    })
}
