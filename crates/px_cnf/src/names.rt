ghost use Rattle.std.specs.Prelude.{◌≡◌, ◌↔◌, ℕ, ◌+◌, ◌*◌, ◌<◌, ◌≤◌, ◌++◌, ◌^◌, All, Any, Contains, map, flat_map, length, slice_index_or, IfOk, OnOk};
ghost use Rattle.std.specs.List.Sorted.{IsStrictlyIncreasing};
ghost use Rattle.px_terms.specs.Variables.{variables_of, place_variables, mentioned};
ghost use Rattle.px_terms.specs.declared.conjuncts.Conj.TheVariants.{Quotient};
ghost use Rattle.px_cnf.specs.Standing.{IsComparison, AreBits, AreBitsOf, degree_sum, most_degree_sum};

use px_terms::{Conj, NoMemory, Place, Poly, Var};
use std::alloc::Global;

// The variables of a polynomial, after others.
fn push_variables(names: &mut Vec<u32>, p: &Poly) -> Result<(), NoMemory>
    ensures { OnOk result (names.new.items ≡ names.old.items ++ variables_of p.now) }
{
    for m in p.monomials() {
        names.extend_from_slice(m.vars())?;
    }
    Ok(())
}

// The variable of a place, after others.
fn push_place(names: &mut Vec<u32>, a: Place) -> Result<(), NoMemory>
    ensures { OnOk result (names.new.items ≡ names.old.items ++ place_variables a) }
{
    if let Place::Var(x) = a {
        names.push(x.0)?;
    }
    Ok(())
}

// The variables of a quotient, after others.
fn push_quotient(names: &mut Vec<u32>, x: Var, p: &Poly, q: &Poly) -> Result<(), NoMemory>
    ensures { OnOk result (names.new.items ≡ names.old.items ++ mentioned (Quotient x p.now q.now)) }
{
    names.push(x.0)?;
    push_variables(names, p)?;
    push_variables(names, q)
}

// The variables that a conjunct mentions, after others.
fn push_mentioned(names: &mut Vec<u32>, conjunct: &Conj) -> Result<(), NoMemory>
    ensures { OnOk result (names.new.items ≡ names.old.items ++ mentioned conjunct.now) }
{
    match conjunct {
        Conj::Equal(p) | Conj::Unequal(p) => push_variables(names, p),
        Conj::Less(p, q) | Conj::AtMost(p, q) => {
            push_variables(names, p)?;
            push_variables(names, q)
        }
        Conj::SamePlace(a, b) | Conj::OtherPlace(a, b) => {
            push_place(names, *a)?;
            push_place(names, *b)
        }
        Conj::Written(x) | Conj::Unwritten(x) => {
            names.push(x.0)?;
            Ok(())
        }
        Conj::Quotient(x, p, q) => push_quotient(names, *x, p, q),
    }
}

// The variables that conjuncts mention, each once and in order.
fn names_of(alloc: Global, conjuncts: &[Conj]) -> Result<Vec<u32>, NoMemory>
    ensures rising { IfOk result (λ z. IsStrictlyIncreasing z.items) }
    ensures same { IfOk result (λ z. (x : ℕ) → Contains z.items x ↔ Any (λ c. Contains (mentioned c) x) conjuncts.now) }
    ensures few { IfOk result (λ z. length z.items ≤ length (flat_map mentioned conjuncts.now)) }
{
    let mut names = Vec::new(alloc);
    for i in 0..conjuncts.len() {
        push_mentioned(&mut names, &conjuncts[i])?;
    }
    names.sort()?;
    names.dedup();
    Ok(names)
}

// A word for each variable, one after another.
fn words_of(alloc: Global, names: &[u32]) -> Result<Vec<(Var, u32)>, NoMemory>
    requires { 32 * length names.now < 2 ^ 32 }
    ensures { IfOk result (λ z. AreBitsOf names.now z.items) }
{
    let mut bits = Vec::with_capacity(alloc, names.len())?;
    for i in 0..names.len() {
        bits.push((Var(names[i]), 32 * i as u32))?;
    }
    Ok(bits)
}

// A word for each variable that conjuncts mention.
pub(crate) fn bits_of(alloc: Global, conjuncts: &[Conj]) -> Result<Vec<(Var, u32)>, NoMemory>
    requires words { All IsComparison conjuncts.now }
    requires small { degree_sum conjuncts.now ≤ most_degree_sum }
    ensures bits { IfOk result (λ z. AreBits conjuncts.now z.items) }
    ensures few { IfOk result (λ z. 32 * length z.items < 2 ^ 32) }
{
    let names = names_of(alloc, conjuncts)?;
    words_of(alloc, &names)
}
