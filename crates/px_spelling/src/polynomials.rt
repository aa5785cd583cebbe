ghost use Rattle.std.specs.Prelude.{◌≡◌, ◌↔◌, ◌++◌, ◌≤◌, ℕ, List, true, length, map, Some, IfOk};
ghost use Rattle.std.specs.List.{flat_map, AllByRecursion};
ghost use Rattle.px_terms.specs.Terms.{Term};
ghost use Rattle.px_terms.specs.Monomials.{term_of};
ghost use Rattle.px_terms.specs.Polynomials.{most_degree};
ghost use Rattle.px_spelling.specs.Reading.{Gives};
ghost use Rattle.px_spelling.specs.Lists.{list_bytes, IsList, items_at, list_at};
ghost use Rattle.px_spelling.specs.Polynomials.{term_bytes, IsTerm, term_at, polynomial_bytes, IsPolynomialInRange, polynomial_at};

use crate::bounds::{MOST_DEGREE, MOST_MONOMIALS};
use crate::{Output, Wire, WireFault, are_in_range, write_count, write_items};
use px_terms::{Monomial, PartsFault, Poly};
use std::alloc::Global;

impl Wire for Poly {
    ghost bytes_of = { polynomial_bytes };

    ghost fits = { IsPolynomialInRange };

    ghost at = { polynomial_at };

    fn write<O: Output>(&self, out: &mut O, target: &mut O::Target) {
        self.constant().write(out, target);
        write_monomials(self.monomials(), out, target)
    }

    #[tactic(auto, unfolding(crate::specs::Polynomials::polynomial_at), using(crate::proofs::NormalTest::normal_is, crate::proofs::NormalTest::not_normal_is))]
    fn read(alloc: Global, bytes: &[u8]) -> Result<(Poly, &[u8]), WireFault> {
        let (constant, rest) = u32::read(alloc, bytes)?;
        let (monomials, rest) = read_monomials(alloc, rest)?;
        match Poly::from_parts(alloc, constant, monomials) {
            Ok(polynomial) => Ok((polynomial, rest)),
            Err(PartsFault::TooMany) => Err(WireFault::NotAMessage),
            Err(PartsFault::NotNormal) => Err(WireFault::NotAMessage),
        }
    }

    fn is_in_range(&self) -> bool {
        let _constant = self.constant();
        let monomials = self.monomials();
        monomials.len() <= MOST_MONOMIALS as usize && are_terms(monomials)
    }
}

// The monomials at the front, which may be in any order.
#[tactic(auto, unfolding(crate::specs::Lists::list_at))]
fn read_monomials(alloc: Global, bytes: &[u8]) -> Result<(Vec<Monomial<4>>, &[u8]), WireFault>
    ensures reads { Gives (λ x. (map term_of x.0.items, x.1.now)) result (list_at term_at 16 bytes.now) }
    ensures spelled { IfOk result (λ x. (bytes.now ≡ list_bytes term_bytes (map term_of x.0.items) ++ x.1.now) × IsList IsTerm 16 (map term_of x.0.items)) }
{
    let (count, rest) = u32::read(alloc, bytes)?;
    if count > MOST_MONOMIALS {
        return Err(WireFault::NotAMessage);
    }
    read_all_monomials(alloc, count, rest)
}

// So many monomials at the front.
fn read_all_monomials(
    alloc: Global,
    count: u32,
    bytes: &[u8],
) -> Result<(Vec<Monomial<4>>, &[u8]), WireFault>
    ensures reads { Gives (λ x. (map term_of x.0.items, x.1.now)) result (items_at term_at count bytes.now) }
    ensures spelled { IfOk result (λ x. (bytes.now ≡ flat_map term_bytes (map term_of x.0.items) ++ x.1.now) × (length (map term_of x.0.items) ≡ count) × AllByRecursion IsTerm (map term_of x.0.items)) }
{
    let mut monomials = Vec::with_capacity(alloc, count as usize)?;
    let mut rest = bytes;
    for _ in 0..count {
        let (monomial, after) = read_monomial(alloc, rest)?;
        monomials.push(monomial)?;
        rest = after;
    }
    Ok((monomials, rest))
}

// The monomial at the front.
#[tactic(auto, unfolding(crate::specs::Polynomials::term_at, crate::specs::Lists::list_at, crate::specs::Lists::items_at))]
fn read_monomial(alloc: Global, bytes: &[u8]) -> Result<(Monomial<4>, &[u8]), WireFault>
    ensures reads { Gives (λ x. (term_of x.0, x.1.now)) result (term_at bytes.now) }
    ensures spelled { IfOk result (λ x. (bytes.now ≡ term_bytes (term_of x.0) ++ x.1.now) × IsTerm (term_of x.0)) }
{
    let (coefficient, rest) = u32::read(alloc, bytes)?;
    let (count, rest) = u32::read(alloc, rest)?;
    match count {
        0 => with_vars(coefficient, &[], rest),
        1 => {
            let (a, rest) = u32::read(alloc, rest)?;
            with_vars(coefficient, &[a], rest)
        }
        2 => {
            let (a, rest) = u32::read(alloc, rest)?;
            let (b, rest) = u32::read(alloc, rest)?;
            with_vars(coefficient, &[a, b], rest)
        }
        3 => {
            let (a, rest) = u32::read(alloc, rest)?;
            let (b, rest) = u32::read(alloc, rest)?;
            let (c, rest) = u32::read(alloc, rest)?;
            with_vars(coefficient, &[a, b, c], rest)
        }
        4 => {
            let (a, rest) = u32::read(alloc, rest)?;
            let (b, rest) = u32::read(alloc, rest)?;
            let (c, rest) = u32::read(alloc, rest)?;
            let (d, rest) = u32::read(alloc, rest)?;
            with_vars(coefficient, &[a, b, c, d], rest)
        }
        _ => Err(WireFault::NotAMessage),
    }
}

// The monomial of a coefficient and these variables, and the bytes after it.
fn with_vars<'a>(
    coefficient: u32,
    vars: &[u32],
    rest: &'a [u8],
) -> Result<(Monomial<4>, &'a [u8]), WireFault>
    requires { length vars.now ≤ most_degree }
    ensures reads { Gives {Y = Term × List ℕ} (λ x. (term_of x.0, x.1.now)) result (Some (record { coefficient = coefficient; vars = vars.now }, rest.now)) }
    ensures made { IfOk result (λ x. (term_of x.0 ≡ record { coefficient = coefficient; vars = vars.now }) × (x.1.now ≡ rest.now)) }
{
    match Monomial::new(coefficient, vars) {
        Some(monomial) => Ok((monomial, rest)),
        None => Err(WireFault::NotAMessage),
    }
}

// Puts the bytes of monomials.
fn write_monomials<O: Output>(monomials: &[Monomial<4>], out: &mut O, target: &mut O::Target)
    ensures written { O.written out.new ≡ O.written out.old ++ list_bytes term_bytes (map term_of monomials.now) }
    ensures reached { (from : O.Target) → O.reaches from out.old target.old → O.reaches from out.new target.new }
{
    write_count(monomials.len(), out, target);
    for monomial in monomials {
        monomial.coefficient().write(out, target);
        write_items(monomial.vars(), out, target);
    }
}

// Whether each monomial is in range.
fn are_terms(monomials: &[Monomial<4>]) -> bool
    ensures { result ≡ true ↔ AllByRecursion IsTerm (map term_of monomials.now) }
{
    for monomial in monomials {
        if !is_term(monomial) {
            return false;
        }
    }
    true
}

fn is_term(monomial: &Monomial<4>) -> bool
    ensures { result ≡ true ↔ IsTerm (term_of monomial.now) }
{
    monomial.coefficient().is_in_range() && are_in_range(MOST_DEGREE, monomial.vars())
}
