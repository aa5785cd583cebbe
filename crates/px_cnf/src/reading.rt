ghost use Rattle.std.specs.Prelude.{◌≡◌, ◌+◌, ◌-◌, ◌%◌, ◌^◌, ◌<◌, Any, cond, IfOk};
ghost use Rattle.px_cnf.specs.Clauses.{negated};
ghost use Rattle.px_cnf.specs.Words.{matching, word_at};

use crate::Literal;
use px_terms::{NoMemory, Var};
use std::alloc::Global;

// The literal, or the one that is true where it is false.
pub(crate) fn with_sign(l: Literal, positive: bool) -> Literal
    ensures { result ≡ cond positive l (negated l) }
{
    if positive { l } else { l.negated() }
}

// The word that makes 0 with another.
pub(crate) fn opposite(n: u32) -> u32
    ensures { result ≡ (2 ^ 32 - n) % 2 ^ 32 }
{
    0u32.wrapping_sub(n)
}

// The literals that are all true exactly where their word is this number.
pub(crate) fn matching(
    alloc: Global,
    word: &[Literal],
    target: u32,
) -> Result<Vec<Literal>, NoMemory>
    ensures { IfOk result (λ z. z.items ≡ matching word.now target) }
{
    let mut all = Vec::with_capacity(alloc, word.len())?;
    let mut rest = target;
    for i in 0..word.len() {
        all.push(with_sign(word[i], rest % 2 == 1))?;
        rest /= 2;
    }
    Ok(all)
}

// The word that begins at a variable.
pub(crate) fn word_at(alloc: Global, first: u32) -> Result<Vec<Literal>, NoMemory>
    requires { first + 32 < 2 ^ 32 }
    ensures { IfOk result (λ z. z.items ≡ word_at first) }
{
    let mut word = Vec::with_capacity(alloc, 32)?;
    for i in 0..32 {
        word.push(Literal {
            variable: first + i,
            positive: true,
        })?;
    }
    Ok(word)
}

// Where the word of a variable begins.
pub(crate) fn first_of(bits: &[(Var, u32)], x: u32) -> u32
    requires { Any (λ b. b.0.0 ≡ x) bits.now }
    ensures { Any (λ b. (b.0.0 ≡ x) × (b.1 ≡ result)) bits.now }
{
    for i in 0..bits.len() {
        if bits[i].0.0 == x {
            return bits[i].1;
        }
    }
    unreachable!()
}
