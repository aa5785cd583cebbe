ghost use Rattle.std.specs.Prelude.{◌≡◌, ◌↔◌, ℕ, ◌+◌, ◌*◌, ◌%◌, ◌^◌, ◌<◌, Any, Bool, true, map, flat_map, IfOk, OnOk};
ghost use Rattle.std.specs.List.{list_all};
ghost use Rattle.px_terms.specs.Terms.{product_at, value_at};
ghost use Rattle.px_terms.specs.Polynomials.{value_of};
ghost use Rattle.px_terms.specs.Variables.{variables_of};
ghost use Rattle.px_terms.specs.Monomials.{term_of};
ghost use Rattle.px_cnf.specs.Clauses.{holds, Meets, AreBelow};
ghost use Rattle.px_cnf.specs.Circuits.{gates_of, Grows, Always};
ghost use Rattle.px_cnf.specs.Words.{number, Gives};
ghost use Rattle.px_cnf.specs.Bases.{IsBase, AreKnown, IsWord, IsWordOr, number_or, Stands, StandsOr};

use crate::Literal;
use crate::circuit::Circuit;
use crate::reading::{first_of, matching, opposite, word_at};
use px_terms::{Monomial, NoMemory, Poly, Var};

// What polynomials are made of: a literal that is always true, and where the words of variables begin.
#[derive(Clone, Copy)]
pub(crate) struct Base<'a> {
    pub(crate) always: Literal,
    pub(crate) bits: &'a [(Var, u32)],
}

impl Circuit {
    // The word of a variable.
    fn variable(&self, base: Base, x: u32) -> Result<Vec<Literal>, NoMemory>
        requires base { IsBase (gates_of self.now) base }
        requires known { Any (λ b. b.0.0 ≡ x) base.bits.now }
        ensures word { IfOk result (λ z. IsWord (gates_of self.now) z.items) }
        ensures value { IfOk result (λ z. Stands (gates_of self.now) base.entry z.items (λ w. w x)) }
    {
        word_at(self.alloc, first_of(base.bits, x))
    }

    // The word of a number.
    fn constant(&self, base: Base, n: u32) -> Result<Vec<Literal>, NoMemory>
        requires { IsBase (gates_of self.now) base }
        ensures word { IfOk result (λ z. IsWord (gates_of self.now) z.items) }
        ensures value { IfOk result (λ z. Always (gates_of self.now) (λ a. number a z.items ≡ n)) }
    {
        matching(self.alloc, &[base.always; 32], n)
    }

    // The word of a number, unless that is what stands for nothing.
    fn constant_unless(
        &self,
        base: Base,
        n: u32,
        nothing: u32,
    ) -> Result<Option<Vec<Literal>>, NoMemory>
        requires { IsBase (gates_of self.now) base }
        ensures word { IfOk result (λ z. IsWordOr (gates_of self.now) z) }
        ensures value { IfOk result (λ z. Always (gates_of self.now) (λ a. number_or nothing a z ≡ n)) }
    {
        if n == nothing {
            return Ok(None);
        }
        Ok(Some(self.constant(base, n)?))
    }

    // A word, or that of a number where there is none.
    fn word_or(
        &self,
        base: Base,
        word: Option<Vec<Literal>>,
        nothing: u32,
    ) -> Result<Vec<Literal>, NoMemory>
        requires base { IsBase (gates_of self.now) base }
        requires word { IsWordOr (gates_of self.now) word }
        ensures word { IfOk result (λ z. IsWord (gates_of self.now) z.items) }
        ensures value { IfOk result (λ z. Always (gates_of self.now) (λ a. number a z.items ≡ number_or nothing a word)) }
    {
        match word {
            Some(word) => Ok(word),
            None => self.constant(base, nothing),
        }
    }

    // A product with one factor more. Nothing is 1.
    fn times(
        &mut self,
        base: Base,
        word: Option<Vec<Literal>>,
        by: Vec<Literal>,
    ) -> Result<Vec<Literal>, NoMemory>
        requires base { IsBase (gates_of self.old) base }
        requires word { IsWordOr (gates_of self.old) word }
        requires by { IsWord (gates_of self.old) by.items }
        ensures grows { OnOk result (Grows (gates_of self.old) (gates_of self.new)) }
        ensures word { IfOk result (λ z. IsWord (gates_of self.new) z.items) }
        ensures value { IfOk result (λ z. Always (gates_of self.new) (λ a. number a z.items ≡ (number_or 1 a word * number a by.items) % 2 ^ 32)) }
    {
        match word {
            Some(word) => self.product(&word, &by, base.always.negated()),
            None => Ok(by),
        }
    }

    // A sum with one summand more. Nothing is 0.
    fn plus(
        &mut self,
        base: Base,
        word: Option<Vec<Literal>>,
        by: Vec<Literal>,
    ) -> Result<Vec<Literal>, NoMemory>
        requires base { IsBase (gates_of self.old) base }
        requires word { IsWordOr (gates_of self.old) word }
        requires by { IsWord (gates_of self.old) by.items }
        ensures grows { OnOk result (Grows (gates_of self.old) (gates_of self.new)) }
        ensures word { IfOk result (λ z. IsWord (gates_of self.new) z.items) }
        ensures value { IfOk result (λ z. Always (gates_of self.new) (λ a. number a z.items ≡ (number_or 0 a word + number a by.items) % 2 ^ 32)) }
    {
        match word {
            Some(word) => self.sum(&word, &by, base.always.negated()),
            None => Ok(by),
        }
    }

    // The word of a monomial.
    fn monomial(&mut self, base: Base, m: &Monomial<4>) -> Result<Vec<Literal>, NoMemory>
        requires base { IsBase (gates_of self.old) base }
        requires known { AreKnown base.bits.now (term_of m.now).vars }
        ensures grows { OnOk result (Grows (gates_of self.old) (gates_of self.new)) }
        ensures word { IfOk result (λ z. IsWord (gates_of self.new) z.items) }
        ensures value { IfOk result (λ z. Stands (gates_of self.new) base.entry z.items (λ w. ((term_of m.now).coefficient * product_at w (term_of m.now).vars) % 2 ^ 32)) }
    {
        let vars = m.vars();
        let mut word = self.constant_unless(base, m.coefficient(), 1)?;
        for i in 0..vars.len() {
            let by = self.variable(base, vars[i])?;
            let product = self.times(base, word, by)?;
            word = Some(product);
        }
        self.word_or(base, word, 1)
    }

    // The sum of a word and monomials. Nothing is 0.
    fn terms(
        &mut self,
        base: Base,
        start: Option<Vec<Literal>>,
        monomials: &[Monomial<4>],
    ) -> Result<Option<Vec<Literal>>, NoMemory>
        requires base { IsBase (gates_of self.old) base }
        requires start { IsWordOr (gates_of self.old) start }
        requires known { AreKnown base.bits.now (flat_map (λ t. t.vars) (map term_of monomials.now)) }
        ensures grows { OnOk result (Grows (gates_of self.old) (gates_of self.new)) }
        ensures word { IfOk result (λ z. IsWordOr (gates_of self.new) z) }
        ensures value { IfOk result (λ z. (c : ℕ) → c < 2 ^ 32 → Always (gates_of self.old) (λ a. number_or 0 a start ≡ c) → StandsOr (gates_of self.new) base.entry 0 z (λ w. (c + value_at w (map term_of monomials.now)) % 2 ^ 32)) }
    {
        let mut word = start;
        for m in monomials {
            let by = self.monomial(base, m)?;
            let sum = self.plus(base, word, by)?;
            word = Some(sum);
        }
        Ok(word)
    }

    // The word of a polynomial.
    pub(crate) fn word(&mut self, base: Base, p: &Poly) -> Result<Vec<Literal>, NoMemory>
        requires base { IsBase (gates_of self.old) base }
        requires known { AreKnown base.bits.now (variables_of p.now) }
        ensures grows { OnOk result (Grows (gates_of self.old) (gates_of self.new)) }
        ensures word { IfOk result (λ z. IsWord (gates_of self.new) z.items) }
        ensures value { IfOk result (λ z. Stands (gates_of self.new) base.entry z.items (λ w. value_of w p.now)) }
    {
        let start = self.constant_unless(base, p.constant(), 0)?;
        let sum = self.terms(base, start, p.monomials())?;
        self.word_or(base, sum, 0)
    }

    // Literals that are all true exactly where a polynomial is 0.
    pub(crate) fn zero(&mut self, base: Base, p: &Poly) -> Result<Vec<Literal>, NoMemory>
        requires base { IsBase (gates_of self.old) base }
        requires known { AreKnown base.bits.now (variables_of p.now) }
        ensures grows { OnOk result (Grows (gates_of self.old) (gates_of self.new)) }
        ensures inside { IfOk result (λ z. AreBelow self.new.variables z.items) }
        ensures value { IfOk result (λ z. (a : ℕ → Bool) (w : ℕ → ℕ) → Meets a (gates_of self.new).clauses → Gives a base.entry.bits.now w → (list_all (holds a) z.items ≡ true) ↔ (value_of w p.now ≡ 0)) }
    {
        let sum = self.terms(base, None, p.monomials())?;
        let word = self.word_or(base, sum, 0)?;
        matching(self.alloc, &word, opposite(p.constant()))
    }
}
