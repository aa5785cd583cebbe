ghost use Rattle.std.specs.Prelude.{◌≡◌, ◌≢◌, ◌↔◌, ℕ, ◌+◌, ◌-◌, ◌%◌, ◌^◌, ◌<◌, ◌≤◌, [], ◌∷◌, ◌++◌, true, length, All, map, flat_map, cond, fold, IfOk, OnOk};
ghost use Rattle.px_terms.specs.Monomials.{term_of};
ghost use Rattle.px_terms.specs.Substitutions.{StandsForWords};
ghost use Rattle.px_terms.specs.Variables.{variables_of, mentioned};
ghost use Rattle.px_terms.specs.declared.conjuncts.Conj.TheVariants.{Quotient};
ghost use Rattle.px_solver.specs.Candidates as spec;
ghost use Rattle.px_solver.specs.Tables.{fixed_under, picked, put_few};

use px_plain::Node;
use px_terms::{Conj, Content, Monomial, NoMemory, Poly, TermFault, Var, quotient};
use std::alloc::{AllocError, Global};

// Whether a list of monomials is one variable with the coefficient 1.
fn is_single(monomials: &[Monomial<4>]) -> bool
    ensures { result ≡ spec.is_single (map term_of monomials.now) }
{
    let [m] = monomials else {
        return false;
    };
    m.coefficient() == 1 && m.vars().len() == 1
}

// Whether a polynomial is one variable alone.
fn is_variable(p: &Poly) -> bool
    ensures { result ≡ spec.is_variable p.now }
{
    p.constant() == 0 && is_single(p.monomials())
}

// Adds a word where it is new and there is room.
fn put(values: &mut Vec<u32>, word: u32) -> Result<(), AllocError>
    ensures { OnOk result (values.new.items ≡ put_few values.old.items word) }
{
    if values.len() < 24 && !values.contains(&word) {
        values.push(word)?;
    }
    Ok(())
}

// Adds a word and its neighbours.
fn put_around(values: &mut Vec<u32>, c: u32) -> Result<(), AllocError>
    ensures { OnOk result (values.new.items ≡ fold put_few values.old.items (spec.around c)) }
{
    put(values, c.wrapping_sub(1))?;
    put(values, c)?;
    put(values, c.wrapping_add(1))
}

// Adds the neighbourhood of a polynomial's constant, or of its negation.
fn put_constant(values: &mut Vec<u32>, p: &Poly, negated: bool) -> Result<(), AllocError>
    ensures { OnOk result (values.new.items ≡ fold put_few values.old.items (flat_map spec.around (cond negated (map spec.negated (spec.constant_of p.now)) (spec.constant_of p.now)))) }
{
    if is_variable(p) {
        return Ok(());
    }
    let c = p.constant();
    put_around(values, if negated { 0u32.wrapping_sub(c) } else { c })
}

// Adds the neighbourhoods of a conjunct's constants.
fn put_constants(values: &mut Vec<u32>, conjunct: &Conj) -> Result<(), AllocError>
    ensures { OnOk result (values.new.items ≡ fold put_few values.old.items (flat_map spec.around (spec.constants_of conjunct.now))) }
{
    match conjunct {
        Conj::Equal(p) | Conj::Unequal(p) => put_constant(values, p, true),
        Conj::Less(p, q) | Conj::AtMost(p, q) | Conj::Quotient(_, p, q) => {
            put_constant(values, p, false)?;
            put_constant(values, q, false)
        }
        _ => Ok(()),
    }
}

/// The words that are tried first, in all components.
pub(crate) fn end_words() -> [u32; 5]
    ensures { result ≡ spec.end_words }
{
    [0, 1, u32::MAX, 1 << 31, u32::MAX >> 1]
}

// The words that are tried for the constants of the conjuncts at these places.
fn constant_words(
    alloc: Global,
    conjuncts: &[Conj],
    indexes: &[u32],
) -> Result<Vec<u32>, AllocError>
    requires { All (λ i. i < length conjuncts.now) indexes.now }
    ensures { IfOk result (λ values. values.items ≡ fold put_few [] (spec.constant_words (picked conjuncts.now indexes.now))) }
{
    let mut values = Vec::new(alloc);
    values.extend_from_slice(&end_words())?;
    for i in 0..indexes.len() {
        put_constants(&mut values, &conjuncts[indexes[i] as usize])?;
    }
    Ok(values)
}

// The word of a variable, if it is fixed.
fn fixed(table: &[Node], x: u32) -> Option<u32>
    requires small { length table.now ≤ 65537 }
    requires inside { x + 1 < length table.now }
    ensures { result ≡ fixed_under table.now x }
{
    let node = table[x as usize + 1];
    if node.parent == 0 {
        Some(node.offset)
    } else {
        None
    }
}

// Adds the word of a variable, if it is fixed, to come in its place.
fn push_fixed(
    alloc: Global,
    with: &mut Vec<(Var, Content)>,
    table: &[Node],
    x: u32,
) -> Result<(), NoMemory>
    requires small { length table.now ≤ 65537 }
    requires inside { x + 1 < length table.now }
    ensures { OnOk result (with.new.items ≡ with.old.items ++ spec.fixed_content x (fixed_under table.now x)) }
{
    if let Some(c) = fixed(table, x) {
        with.push((Var(x), Content::Word(Poly::number(alloc, c))))?;
    }
    Ok(())
}

// Adds the words of the fixed variables of a monomial.
fn push_product(
    alloc: Global,
    with: &mut Vec<(Var, Content)>,
    table: &[Node],
    m: &Monomial<4>,
) -> Result<(), NoMemory>
    requires small { length table.now ≤ 65537 }
    requires inside { All (λ x. x + 1 < length table.now) (term_of m.now).vars }
    ensures { OnOk result (with.new.items ≡ with.old.items ++ spec.fixed_contents (fixed_under table.now) (term_of m.now).vars) }
{
    let vars = m.vars();
    for i in 0..vars.len() {
        push_fixed(alloc, with, table, vars[i])?;
    }
    Ok(())
}

// The words of the fixed variables of a polynomial.
fn fixed_contents(alloc: Global, table: &[Node], p: &Poly) -> Result<Vec<(Var, Content)>, NoMemory>
    requires small { length table.now ≤ 65537 }
    requires inside { All (λ x. x + 1 < length table.now) (variables_of p.now) }
    ensures { IfOk result (λ with. with.items ≡ spec.fixed_contents (fixed_under table.now) (variables_of p.now)) }
{
    let mut with = Vec::new(alloc);
    for m in p.monomials() {
        push_product(alloc, &mut with, table, m)?;
    }
    Ok(with)
}

// The word of a polynomial, if it is a constant.
fn word_alone(p: &Poly) -> Option<u32>
    ensures { result ≡ spec.word_alone p.now.constant p.now.monomials }
{
    if p.monomials().is_empty() {
        Some(p.constant())
    } else {
        None
    }
}

// The word of a polynomial, if it is a constant where fixed variables have their words.
fn fixed_word(alloc: Global, table: &[Node], p: &Poly) -> Result<Option<u32>, NoMemory>
    requires small { length table.now ≤ 65537 }
    requires inside { All (λ x. x + 1 < length table.now) (variables_of p.now) }
    ensures { IfOk result (λ w. w ≡ spec.fixed_word (fixed_under table.now) p.now) }
{
    let with = fixed_contents(alloc, table, p)?;
    match p.substitute(&with) {
        Ok(p) => Ok(word_alone(&p)),
        // No constant is too long.
        Err(TermFault::Long) => Ok(None),
        Err(TermFault::NoMemory) => Err(NoMemory),
    }
}

// Adds the quotient of two words, if there is one.
fn put_quotient(values: &mut Vec<u32>, m: Option<u32>, n: Option<u32>) -> Result<(), AllocError>
    ensures { OnOk result (values.new.items ≡ fold put_few values.old.items (spec.quotient_word m n)) }
{
    match (m, n) {
        (Some(m), Some(n)) if n != 0 => put(values, quotient(m, n)),
        _ => Ok(()),
    }
}

// Adds the product of two words.
fn put_product(values: &mut Vec<u32>, m: Option<u32>, n: Option<u32>) -> Result<(), AllocError>
    ensures { OnOk result (values.new.items ≡ fold put_few values.old.items (spec.product_word m n)) }
{
    match (m, n) {
        (Some(m), Some(n)) => put(values, m.wrapping_mul(n)),
        _ => Ok(()),
    }
}

// Adds what a variable and two polynomials, of which it is the quotient, give where fixed variables have their words.
fn put_words(
    alloc: Global,
    values: &mut Vec<u32>,
    table: &[Node],
    x: Var,
    p: &Poly,
    q: &Poly,
) -> Result<(), NoMemory>
    requires small { length table.now ≤ 65537 }
    requires variable { x.0 + 1 < length table.now }
    requires left { All (λ x. x + 1 < length table.now) (variables_of p.now) }
    requires right { All (λ x. x + 1 < length table.now) (variables_of q.now) }
    ensures { OnOk result (values.new.items ≡ fold put_few values.old.items (spec.quotients_of (fixed_under table.now) (Quotient x p.now q.now))) }
{
    let m = fixed_word(alloc, table, p)?;
    let n = fixed_word(alloc, table, q)?;
    put_quotient(values, m, n)?;
    put_product(values, fixed(table, x.0), n)?;
    Ok(())
}

// Adds what a quotient gives where fixed variables have their words.
fn put_quotients(
    alloc: Global,
    values: &mut Vec<u32>,
    table: &[Node],
    conjunct: &Conj,
) -> Result<(), NoMemory>
    requires small { length table.now ≤ 65537 }
    requires inside { All (λ x. x + 1 < length table.now) (mentioned conjunct.now) }
    ensures { OnOk result (values.new.items ≡ fold put_few values.old.items (spec.quotients_of (fixed_under table.now) conjunct.now)) }
{
    if let Conj::Quotient(x, p, q) = conjunct {
        put_words(alloc, values, table, *x, p, q)?;
    }
    Ok(())
}

// Adds what the quotients among the conjuncts at these places give.
fn put_all_quotients(
    alloc: Global,
    values: &mut Vec<u32>,
    table: &[Node],
    conjuncts: &[Conj],
    indexes: &[u32],
) -> Result<(), NoMemory>
    requires small { length table.now ≤ 65537 }
    requires inside { All (λ c. All (λ x. x + 1 < length table.now) (mentioned c)) conjuncts.now }
    requires places { All (λ i. i < length conjuncts.now) indexes.now }
    ensures { OnOk result (values.new.items ≡ fold put_few values.old.items (flat_map (spec.quotients_of (fixed_under table.now)) (picked conjuncts.now indexes.now))) }
{
    for i in 0..indexes.len() {
        put_quotients(alloc, values, table, &conjuncts[indexes[i] as usize])?;
    }
    Ok(())
}

// The words that are tried for the conjuncts at these places. The table has the words of fixed variables.
pub(crate) fn candidates(
    alloc: Global,
    conjuncts: &[Conj],
    table: &[Node],
    indexes: &[u32],
) -> Result<Vec<u32>, NoMemory>
    requires small { length table.now ≤ 65537 }
    requires inside { All (λ c. All (λ x. x + 1 < length table.now) (mentioned c)) conjuncts.now }
    requires places { All (λ i. i < length conjuncts.now) indexes.now }
    ensures value { IfOk result (λ values. values.items ≡ spec.candidates (fixed_under table.now) (picked conjuncts.now indexes.now)) }
    ensures few { IfOk result (λ values. length values.items ≤ 24) }
{
    let mut values = constant_words(alloc, conjuncts, indexes)?;
    put_all_quotients(alloc, &mut values, table, conjuncts, indexes)?;
    Ok(values)
}
