ghost use Rattle.std.specs.Prelude.{◌≡◌, ◌<◌, ◌≤◌, ◌∷◌, [], not, length, map, nat_eq, OnOk};
ghost use Rattle.std.specs.List.{list_any};
ghost use Rattle.px_base.specs.Bounds.{most_steps, most_variables};
ghost use Rattle.px_terms.specs.Monomials.{term_of};
ghost use Rattle.px_terms.specs.Substitutions.{variable};
ghost use Rattle.px_entry.specs.Equality.{same_list, same_term, same_polynomial, same_conjunct};
ghost use Rattle.px_ways.specs.Additions.{least_bound, most_bound, with_conjuncts, with_input, kept_if};

use crate::changes::{add_variable, begin, mark, set_slot};
use px_base::{MarkKind, Site};
use px_callgraph::State;
use px_terms::{Conj, Content, Monomial, NoMemory, Poly, Sort, ValueType, Var, VarInfo};
use std::alloc::Global;

/// Whether the bound from below doesn't stand yet, at the next variable.
pub fn lacks_least(state: &State) -> bool
    ensures { result ≡ not (list_any (same_conjunct (least_bound (length state.now.vars))) state.now.pure) }
{
    !has_least(state.pure.as_slice(), state.vars.len())
}

/// Whether the bound from above doesn't stand yet.
pub fn lacks_most(state: &State) -> bool
    ensures { result ≡ not (list_any (same_conjunct (most_bound (length state.now.vars))) state.now.pure) }
{
    !has_most(state.pure.as_slice(), state.vars.len())
}

/// A command begins, and a slot gets a value from -1 to 255, by a new variable. The bounds are assumed that are to be
/// added.
pub fn take_input(
    alloc: Global,
    state: &mut State,
    to: u32,
    site: Site,
    least: bool,
    most: bool,
) -> Result<(), NoMemory>
    requires steps { state.old.steps < most_steps }
    requires few { length state.old.vars ≤ most_variables }
    ensures { OnOk result (state.new ≡ with_input to site least most state.old) }
{
    let x = Var(state.vars.len() as u32);
    begin(state);
    mark(state, MarkKind::Input, site)?;
    add_variable(
        state,
        VarInfo {
            sort: Sort::Input,
            value: ValueType::Int,
        },
    )?;
    add_least(alloc, state, x, least)?;
    add_most(alloc, state, x, most)?;
    set_slot(state, to, Content::Word(Poly::var(alloc, x)?));
    Ok(())
}

// The bound from below is assumed, where it is to be added.
fn add_least(alloc: Global, state: &mut State, x: Var, added: bool) -> Result<(), NoMemory>
    ensures { OnOk result (state.new ≡ with_conjuncts (kept_if added (least_bound x.0)) state.old) }
{
    if added {
        let bound = Conj::AtMost(Poly::word(alloc, -1)?, Poly::var(alloc, x)?);
        state.pure.push(bound)?;
    }
    Ok(())
}

// The bound from above is assumed, where it is to be added.
fn add_most(alloc: Global, state: &mut State, x: Var, added: bool) -> Result<(), NoMemory>
    ensures { OnOk result (state.new ≡ with_conjuncts (kept_if added (most_bound x.0)) state.old) }
{
    if added {
        let bound = Conj::AtMost(Poly::var(alloc, x)?, Poly::word(alloc, 255)?);
        state.pure.push(bound)?;
    }
    Ok(())
}

fn has_least(pure: &[Conj], x: usize) -> bool
    ensures { result ≡ list_any (same_conjunct (least_bound x)) pure.now }
{
    pure.iter().any(|c| is_least(c, x))
}

fn is_least(conjunct: &Conj, x: usize) -> bool
    ensures { result ≡ same_conjunct (least_bound x) conjunct.now }
{
    match conjunct {
        Conj::AtMost(p, q) => is_word(p, u32::MAX) && is_variable(q, x),
        _ => false,
    }
}

fn has_most(pure: &[Conj], x: usize) -> bool
    ensures { result ≡ list_any (same_conjunct (most_bound x)) pure.now }
{
    pure.iter().any(|c| is_most(c, x))
}

fn is_most(conjunct: &Conj, x: usize) -> bool
    ensures { result ≡ same_conjunct (most_bound x) conjunct.now }
{
    match conjunct {
        Conj::AtMost(p, q) => is_variable(p, x) && is_word(q, 255),
        _ => false,
    }
}

// Whether a polynomial is this word.
fn is_word(p: &Poly, word: u32) -> bool
    ensures { result ≡ same_polynomial (record { constant = word; monomials = [] }) p.now }
{
    p.constant() == word && p.monomials().is_empty()
}

// Whether a polynomial is the variable with this number.
fn is_variable(p: &Poly, x: usize) -> bool
    ensures { result ≡ same_polynomial (variable x) p.now }
{
    p.constant() == 0 && is_one_variable(p.monomials(), x)
}

fn is_one_variable(monomials: &[Monomial<4>], x: usize) -> bool
    ensures { result ≡ same_list same_term (record { coefficient = 1; vars = x ∷ [] } ∷ []) (map term_of monomials.now) }
{
    match monomials {
        [m] => m.coefficient() == 1 && is_alone(m.vars(), x),
        _ => false,
    }
}

fn is_alone(vars: &[u32], x: usize) -> bool
    ensures { result ≡ same_list nat_eq (x ∷ []) vars.now }
{
    match vars {
        [y] => x == *y as usize,
        _ => false,
    }
}
