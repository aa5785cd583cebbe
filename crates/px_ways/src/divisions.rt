ghost use Rattle.std.specs.Prelude.{◌≡◌, ◌<◌, ◌≤◌, ◌||◌, ◌&&◌, not, length, nat_eq, option_to_list, IfOk, OnOk};
ghost use Rattle.std.specs.List.{list_any};
ghost use Rattle.px_base.specs.Bounds.{most_steps, most_variables};
ghost use Rattle.px_terms.specs.declared.conjuncts.Conj.TheVariants as conjunct;
ghost use Rattle.px_entry.specs.Sorts as sorts;
ghost use Rattle.px_entry.specs.Decided.{is_open};
ghost use Rattle.px_entry.specs.Equality.{same_polynomial, same_conjunct};
ghost use Rattle.px_callgraph.specs.States.{operand_content};
ghost use Rattle.px_callgraph.specs.Commands as spec;
ghost use Rattle.px_ways.specs.Additions.{kept_if, quotient_bound, with_conjuncts, with_quotient};

use crate::changes::{add_conjunct, add_variable, begin, set_slot};
use crate::pointers::put_way;
use px_callgraph::{State, Way};
use px_core::Operand;
use px_match::{
    is_int_polynomial, keep_short, may_be_other, may_be_zero, operand_content as content_of,
};
use px_terms::{Conj, Content, NoMemory, Poly, Sort, ValueType, Var, VarInfo};
use std::alloc::Global;

// ---- ways

// The ways of a division: by 0, and by what isn't 0, each where it may be assumed.
#[tactic(auto, using(px_match::proofs::Operands::operand_is))]
pub(crate) fn divide_ways(
    alloc: Global,
    state: &State,
    a: &Operand,
    b: &Operand,
) -> Result<Vec<Way>, NoMemory>
    ensures { IfOk result (λ r. r.items ≡ spec.divide_ways state.now.vars (operand_content state.now a.now) (operand_content state.now b.now)) }
{
    let slots = state.slots.as_slice();
    let first = content_of(alloc, slots, a)?;
    let second = content_of(alloc, slots, b)?;
    content_ways(alloc, state.vars.as_slice(), &first, &second)
}

// The same of contents.
fn content_ways(
    alloc: Global,
    vars: &[VarInfo],
    a: &Content,
    b: &Content,
) -> Result<Vec<Way>, NoMemory>
    ensures { IfOk result (λ r. r.items ≡ spec.divide_ways vars.now a.now b.now) }
{
    match (a, b) {
        (Content::Word(p), Content::Word(q)) => word_ways(alloc, vars, p, q),
        _ => Ok(Vec::new(alloc)),
    }
}

// The same of words.
fn word_ways(alloc: Global, vars: &[VarInfo], p: &Poly, q: &Poly) -> Result<Vec<Way>, NoMemory>
    ensures { IfOk result (λ r. r.items ≡ spec.word_ways vars.now p.now q.now) }
{
    let mut found = Vec::new(alloc);
    put_way(&mut found, may_be_zero(vars, q), Way::ByZero)?;
    put_way(&mut found, may_divide(vars, p, q), Way::Divided)?;
    Ok(found)
}

// Whether a word may be divided by another.
pub(crate) fn may_divide(vars: &[VarInfo], p: &Poly, q: &Poly) -> bool
    ensures { result ≡ (is_open vars.now (conjunct.Unequal q.now) && (sorts.is_long p.now || sorts.is_int_polynomial vars.now p.now)) }
{
    may_be_other(vars, q) && is_word(vars, p)
}

// Whether what is divided is a word, as far as it is asked.
fn is_word(vars: &[VarInfo], p: &Poly) -> bool
    ensures { result ≡ (sorts.is_long p.now || sorts.is_int_polynomial vars.now p.now) }
{
    keep_short(p);
    is_int_polynomial(vars, p)
}

// ---- changes

/// Whether it doesn't stand yet that the next variable is the quotient of these.
pub fn lacks_quotient(state: &State, p: &Poly, q: &Poly) -> bool
    ensures { result ≡ not (list_any (same_conjunct (quotient_bound (length state.now.vars) p.now q.now)) state.now.pure) }
{
    !has_quotient(state.pure.as_slice(), state.vars.len(), p, q)
}

fn has_quotient(pure: &[Conj], x: usize, p: &Poly, q: &Poly) -> bool
    ensures { result ≡ list_any (same_conjunct (quotient_bound x p.now q.now)) pure.now }
{
    pure.iter().any(|c| is_quotient(c, x, p, q))
}

fn is_quotient(conjunct: &Conj, x: usize, p: &Poly, q: &Poly) -> bool
    ensures { result ≡ same_conjunct (quotient_bound x p.now q.now) conjunct.now }
{
    match conjunct {
        Conj::Quotient(y, r, s) => x == y.0 as usize && (is_same(p, r) && is_same(q, s)),
        _ => false,
    }
}

// Whether both are the same polynomial.
fn is_same(p: &Poly, q: &Poly) -> bool
    ensures { result ≡ same_polynomial p.now q.now }
{
    p.equals(q)
}

/// A command begins, and a slot gets the quotient of two words, by a new variable. First a conjunct is assumed where
/// there is one, and then that the variable is the quotient, where this is to be added.
pub fn take_quotient(
    alloc: Global,
    state: &mut State,
    to: u32,
    p: &Poly,
    q: &Poly,
    other: Option<Conj>,
    lacking: bool,
) -> Result<(), NoMemory>
    requires steps { state.old.steps < most_steps }
    requires few { length state.old.vars ≤ most_variables }
    ensures { OnOk result (state.new ≡ with_quotient to p.now q.now (option_to_list other) lacking state.old) }
{
    let x = Var(state.vars.len() as u32);
    begin(state);
    add_conjunct(state, other)?;
    add_variable(
        state,
        VarInfo {
            sort: Sort::Input,
            value: ValueType::Int,
        },
    )?;
    add_quotient(state, x, p, q, lacking)?;
    set_slot(state, to, Content::Word(Poly::var(alloc, x)?));
    Ok(())
}

// That a variable is the quotient of these is assumed, where it is to be added.
fn add_quotient(state: &mut State, x: Var, p: &Poly, q: &Poly, added: bool) -> Result<(), NoMemory>
    ensures { OnOk result (state.new ≡ with_conjuncts (kept_if added (quotient_bound x.0 p.now q.now)) state.old) }
{
    if added {
        state.pure.push(Conj::Quotient(x, p.copy()?, q.copy()?))?;
    }
    Ok(())
}
