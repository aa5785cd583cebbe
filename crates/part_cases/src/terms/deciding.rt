ghost use Rattle.std.specs.Prelude.{◌≡◌, All, length};
ghost use Rattle.px_terms.specs.Conjuncts.{IsWellSorted, AreWellSorted};

use super::sorts::{are_sorted, holds};
use anyhow::{Result, bail};
use case_texts::{conjuncts, variables};
use px_plain::{Plain, sat};
use px_solver::{Decision, decide, refuted};
use px_terms::{Conj, Domain, NoMemory, Poly, Value, VarInfo};
use std::alloc::Global;
use std::fmt::Write;

/// Whether plain conjuncts have a model: `refuted`, or `true` where there is one and they are true under it. Conjuncts
/// that aren't plain are left aside.
pub fn plain(alloc: Global, letters: &str, text: &str) -> Result<String> {
    let vars = variables(alloc, letters)?;
    let conjuncts = conjuncts(alloc, text)?;
    let word = plain_word(alloc, &vars, &conjuncts)?;
    Ok(String::from_str(alloc, word)?)
}

fn plain_word(alloc: Global, vars: &[VarInfo], conjuncts: &[Conj]) -> Result<&'static str> {
    if !are_sorted(vars, conjuncts) {
        return Ok("unsorted");
    }
    let values = match sat(alloc, vars, conjuncts)? {
        Plain::Refuted => return Ok("refuted"),
        Plain::Model(values) => values,
    };
    let values = values.as_slice();
    if values.len() == vars.len() && are_true(vars, conjuncts, values) {
        return Ok("true");
    }
    Ok("false")
}

// The plain conjuncts of the cases: all but orders, quotients and sums with a coefficient of 2.
fn is_plain(conjunct: &Conj) -> bool {
    match conjunct {
        Conj::Equal(p) => p.monomials().iter().all(|m| m.coefficient() != 2),
        Conj::Less(_, _) | Conj::Quotient(_, _, _) => false,
        _ => true,
    }
}

fn are_true(vars: &[VarInfo], conjuncts: &[Conj], values: &[Value]) -> bool
    requires sorted { All (IsWellSorted vars.now) conjuncts.now }
    requires size { length values.now ≡ length vars.now }
{
    for conjunct in conjuncts {
        if is_plain(conjunct) && !holds(vars, conjunct, values) {
            return false;
        }
    }
    true
}

/// What is decided of conjuncts: `refuted`, `found` with the values, or `undecided` with the places of those that
/// were too hard. It is the same with and without domains that have no rule, and twice with the same ones.
pub fn decided(alloc: Global, letters: &str, text: &str) -> Result<String> {
    let vars = variables(alloc, letters)?;
    let conjuncts = conjuncts(alloc, text)?;
    let mut domains: Vec<Box<dyn Domain>> = Vec::new(alloc);
    let first = decision(alloc, &vars, &conjuncts, &mut domains)?;
    domains.push(Box::new(alloc, NoRule { held: 0 })?)?;
    domains.push(Box::new(alloc, NoRule { held: 0 })?)?;
    for _ in 0..2 {
        let again = decision(alloc, &vars, &conjuncts, &mut domains)?;
        if again.as_str() != first.as_str() {
            bail!("another decision");
        }
    }
    Ok(first)
}

fn decision(
    alloc: Global,
    vars: &[VarInfo],
    conjuncts: &[Conj],
    domains: &mut Vec<Box<dyn Domain>>,
) -> Result<String> {
    if !are_sorted(vars, conjuncts) {
        bail!("unsorted");
    }
    let is_refuted = refuted(alloc, vars, conjuncts, domains)?;
    let decision = decide(alloc, vars, conjuncts, domains)?;
    if is_refuted != matches!(decision, Decision::Refuted) {
        bail!("refuted and decided differ");
    }
    let mut out = String::new(alloc);
    match decision {
        Decision::Refuted => out.push_str("refuted")?,
        Decision::Found(values) => {
            out.push_str("found")?;
            for value in values.as_slice() {
                write_value(&mut out, *value)?;
            }
        }
        Decision::Undecided(hard) => {
            out.push_str("undecided")?;
            write_places(&mut out, hard.as_slice(), conjuncts)?;
        }
    }
    Ok(out)
}

fn write_value(out: &mut String, value: Value) -> Result<()> {
    match value {
        Value::Word(word) => write!(out, " {word}")?,
        Value::Null => write!(out, " null")?,
        Value::Block(number) => write!(out, " b{number}")?,
        Value::Unwritten => write!(out, " unwritten")?,
    }
    Ok(())
}

// The places of some conjuncts among others, in their order.
fn write_places(out: &mut String, some: &[Conj], all: &[Conj]) -> Result<()> {
    let mut others = some.iter();
    let mut next = others.next();
    for (place, conjunct) in all.iter().enumerate() {
        if next.is_some_and(|hard| same_conjunct(hard, conjunct)) {
            write!(out, " {place}")?;
            next = others.next();
        }
    }
    if next.is_some() {
        bail!("another conjunct");
    }
    Ok(())
}

fn same_sum(p: &Poly, q: &Poly) -> bool {
    if p.constant() != q.constant() || p.monomials().len() != q.monomials().len() {
        return false;
    }
    for (m, n) in p.monomials().iter().zip(q.monomials()) {
        if m.coefficient() != n.coefficient() || m.vars() != n.vars() {
            return false;
        }
    }
    true
}

fn same_conjunct(a: &Conj, b: &Conj) -> bool {
    match (a, b) {
        (Conj::Equal(p), Conj::Equal(q)) => same_sum(p, q),
        (Conj::Unequal(p), Conj::Unequal(q)) => same_sum(p, q),
        (Conj::Less(p, q), Conj::Less(r, s)) => same_sum(p, r) && same_sum(q, s),
        (Conj::AtMost(p, q), Conj::AtMost(r, s)) => same_sum(p, r) && same_sum(q, s),
        (Conj::Quotient(x, p, q), Conj::Quotient(y, r, s)) => {
            x.0 == y.0 && same_sum(p, r) && same_sum(q, s)
        }
        _ => false,
    }
}

// A domain of a kind that has no rule. It counts the conjuncts that it holds.
#[derive(Drop)]
struct NoRule {
    held: u32,
}

impl Domain for NoRule {
    ghost number = { λ _. 9 };

    ghost holds = { λ s cs. s.held ≡ length cs };

    fn kind(&self) -> u8 {
        9
    }

    fn refutes(&mut self, _: &[VarInfo], _: &[Conj]) -> Result<bool, NoMemory> {
        Ok(false)
    }

    fn is_clear(&self) -> bool {
        self.held == 0
    }

    fn push(&mut self, _: &Conj) -> Result<(), NoMemory> {
        self.held += 1;
        Ok(())
    }

    fn pop(&mut self) {
        self.held -= 1;
    }

    fn refuted(&self) -> bool {
        false
    }
}
