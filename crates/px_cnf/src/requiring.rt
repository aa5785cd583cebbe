ghost use Rattle.std.specs.Prelude.{◌≡◌, ◌↔◌, ℕ, ◌+◌, ◌-◌, ◌^◌, ◌<◌, ◌<ℤ◌, ◌≤ℤ◌, Bool, true, false, cond, length, map, IfOk, OnOk};
ghost use Rattle.std.specs.List.{list_all};
ghost use Rattle.px_terms.specs.Words.{signed};
ghost use Rattle.px_terms.specs.Polynomials.{value_of};
ghost use Rattle.px_terms.specs.Variables.{variables_of, mentioned};
ghost use Rattle.px_plain.specs.Ties.{IsTrueOf};
ghost use Rattle.px_cnf.specs.Clauses.{Assignment, holds, is_met, are_met, negated, Meets, AreBelow, AreClausesBelow};
ghost use Rattle.px_cnf.specs.Circuits.{gates_of, Grows};
ghost use Rattle.px_cnf.specs.Words.{number, raised, Gives};
ghost use Rattle.px_cnf.specs.Bases.{IsBase, AreKnown};
ghost use Rattle.px_cnf.specs.Standing.{IsComparison};

use crate::Literal;
use crate::circuit::Circuit;
use crate::reading::with_sign;
use crate::terms::Base;
use px_terms::{Conj, Items, NoMemory, Poly};
use std::alloc::Global;

// The literals, or those that are true where they are false.
fn signs(alloc: Global, word: &[Literal], positive: bool) -> Result<Vec<Literal>, NoMemory>
    ensures { IfOk result (λ z. z.items ≡ map (λ l. cond positive l (negated l)) word.now) }
{
    let mut all = Vec::with_capacity(alloc, word.len())?;
    for i in 0..word.len() {
        all.push(with_sign(word[i], positive))?;
    }
    Ok(all)
}

// The place of a word in the order of signed numbers, or how far the place is below the greatest.
fn place(alloc: Global, word: &[Literal], positive: bool) -> Result<Vec<Literal>, NoMemory>
    requires { length word.now ≡ 32 }
    ensures inside { IfOk result (λ z. (n : ℕ) → AreBelow n word.now → AreBelow n z.items) }
    ensures size { IfOk result (λ z. length z.items ≡ 32) }
    ensures value { IfOk result (λ z. (a : Assignment) → number a z.items ≡ cond positive (raised (number a word.now)) (2 ^ 32 - 1 - raised (number a word.now))) }
{
    let mut all = signs(alloc, &word[..31], positive)?;
    all.push(with_sign(word[31], !positive))?;
    Ok(all)
}

// A clause of one literal at the end.
fn put_unit(alloc: Global, asserted: &mut Vec<Items<Literal>>, l: Literal) -> Result<(), NoMemory>
    ensures inside { OnOk result ((n : ℕ) → AreClausesBelow n asserted.old.items → l.variable < n → AreClausesBelow n asserted.new.items) }
    ensures value { OnOk result ((a : Assignment) → (Meets a asserted.new.items ↔ (Meets a asserted.old.items × (holds a l ≡ true)))) }
{
    let clause = Items::from_slice(alloc, &[l])?;
    asserted.push(clause)?;
    Ok(())
}

// A clause of one literal for each literal.
fn put_units(
    alloc: Global,
    asserted: &mut Vec<Items<Literal>>,
    literals: &[Literal],
) -> Result<(), NoMemory>
    ensures inside { OnOk result ((n : ℕ) → AreClausesBelow n asserted.old.items → AreBelow n literals.now → AreClausesBelow n asserted.new.items) }
    ensures value { OnOk result ((a : Assignment) → (Meets a asserted.new.items ↔ (Meets a asserted.old.items × (list_all (holds a) literals.now ≡ true)))) }
{
    for i in 0..literals.len() {
        put_unit(alloc, asserted, literals[i])?;
    }
    Ok(())
}

// A clause that some literal is false.
fn put_some_false(
    alloc: Global,
    asserted: &mut Vec<Items<Literal>>,
    literals: &[Literal],
) -> Result<(), NoMemory>
    ensures inside { OnOk result ((n : ℕ) → AreClausesBelow n asserted.old.items → AreBelow n literals.now → AreClausesBelow n asserted.new.items) }
    ensures value { OnOk result ((a : Assignment) → (Meets a asserted.new.items ↔ (Meets a asserted.old.items × (¬ (list_all (holds a) literals.now ≡ true))))) }
{
    let clause = signs(alloc, literals, false)?;
    asserted.push(Items::from_vec(clause))?;
    Ok(())
}

impl Circuit {
    // Whether p is less than q, or at most q where `or_equal` is true, as signed words.
    fn order(&mut self, base: Base, p: &Poly, q: &Poly, or_equal: bool) -> Result<Literal, NoMemory>
        requires base { IsBase (gates_of self.old) base }
        requires left { AreKnown base.bits.now (variables_of p.now) }
        requires right { AreKnown base.bits.now (variables_of q.now) }
        ensures grows { OnOk result (Grows (gates_of self.old) (gates_of self.new)) }
        ensures inside { IfOk result (λ l. l.variable < self.new.variables) }
        ensures less { IfOk result (λ l. or_equal ≡ false → (a : Assignment) (w : ℕ → ℕ) → Meets a (gates_of self.new).clauses → Gives a base.entry.bits.now w → (holds a l ≡ true) ↔ (signed (value_of w p.now) <ℤ signed (value_of w q.now))) }
        ensures at_most { IfOk result (λ l. or_equal ≡ true → (a : Assignment) (w : ℕ → ℕ) → Meets a (gates_of self.new).clauses → Gives a base.entry.bits.now w → (holds a l ≡ true) ↔ (signed (value_of w p.now) ≤ℤ signed (value_of w q.now))) }
    {
        let left = self.word(base, p)?;
        let right = self.word(base, q)?;
        let below = place(self.alloc, &left, false)?;
        let above = place(self.alloc, &right, true)?;
        self.overflows(&above, &below, with_sign(base.always, or_equal))
    }

    // Clauses at the end that say that a conjunct is true.
    pub(crate) fn require(
        &mut self,
        base: Base,
        conjunct: &Conj,
        asserted: &mut Vec<Items<Literal>>,
    ) -> Result<(), NoMemory>
        requires base { IsBase (gates_of self.old) base }
        requires known { AreKnown base.bits.now (mentioned conjunct.now) }
        requires words { IsComparison conjunct.now }
        requires inside { AreClausesBelow self.old.variables asserted.old.items }
        ensures grows { OnOk result (Grows (gates_of self.old) (gates_of self.new)) }
        ensures inside { OnOk result (AreClausesBelow self.new.variables asserted.new.items) }
        ensures value { OnOk result ((a : Assignment) (w : ℕ → ℕ) → Meets a (gates_of self.new).clauses → Gives a base.entry.bits.now w → (Meets a asserted.new.items ↔ (Meets a asserted.old.items × IsTrueOf w conjunct.now))) }
    {
        match conjunct {
            Conj::Equal(p) => {
                let zero = self.zero(base, p)?;
                put_units(self.alloc, asserted, &zero)
            }
            Conj::Unequal(p) => {
                let zero = self.zero(base, p)?;
                put_some_false(self.alloc, asserted, &zero)
            }
            Conj::Less(p, q) => {
                let less = self.order(base, p, q, false)?;
                put_unit(self.alloc, asserted, less)
            }
            Conj::AtMost(p, q) => {
                let at_most = self.order(base, p, q, true)?;
                put_unit(self.alloc, asserted, at_most)
            }
            _ => unreachable!(),
        }
    }
}
