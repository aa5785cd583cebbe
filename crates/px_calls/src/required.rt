ghost use Rattle.std.specs.Prelude.{◌≡◌, ◌<◌, ◌^◌, ◌&&◌, not, length, map, nat_eq, slice_index_or, false, IfOk};
ghost use Rattle.std.specs.List.{list_any};
ghost use Rattle.px_entry.specs.Cases as cases_spec;
ghost use Rattle.px_callgraph.specs.Calls as spec;
ghost use Rattle.px_callgraph.specs.declared.states.Way.TheVariants as way;
ghost use Rattle.px_ways.specs.Listed.{lists};
ghost use Rattle.px_calls.specs.Required.{AreMarked};
ghost use Rattle.px_calls.specs.Listed as listed;

use px_callgraph::{State, Way};
use px_entry::{Atom, AtomState, Case};
use px_match::{cases, is_match, may_be_missing, place_through};
use px_terms::{Content, NoMemory, Place, Var, VarInfo};
use std::alloc::Global;

/// The ways to meet a block that an entry requires, in order.
pub(crate) fn required_ways(
    alloc: Global,
    state: &State,
    substitution: &[(Var, Content)],
    used: &[u32],
    required: &Atom,
) -> Result<Vec<Way>, NoMemory>
    requires { length state.now.atoms < 2 ^ 32 }
    ensures { IfOk result (λ r. r.items ≡ spec.required_ways state.now substitution.now used.now required.now) }
{
    match place_through(substitution, Place::Var(required.place)) {
        Some(place) => ways_at(alloc, state, used, place, required),
        None => Ok(Vec::new(alloc)),
    }
}

// The same where its place is this one.
fn ways_at(
    alloc: Global,
    state: &State,
    used: &[u32],
    place: Place,
    required: &Atom,
) -> Result<Vec<Way>, NoMemory>
    requires { length state.now.atoms < 2 ^ 32 }
    ensures { IfOk result (λ r. r.items ≡ map spec.case_way (cases_spec.cases_of state.now.vars state.now.atoms (λ n. list_any (nat_eq n) used.now) place required.now.block (cases_spec.is_freed required.now.state))) }
{
    let marks = used_marks(alloc, used, state.atoms.len())?;
    let found = cases(
        alloc,
        state.vars.as_slice(),
        state.atoms.as_slice(),
        &marks,
        place,
        required.block,
        is_freed(&required.state),
    )?;
    as_ways(alloc, &found)
}

/// Whether a block that an entry requires may be met in this way. No list is made.
pub(crate) fn is_required_way(
    state: &State,
    substitution: &[(Var, Content)],
    used: &[u32],
    required: &Atom,
    way: Way,
) -> bool
    ensures { result ≡ lists (spec.required_ways state.now substitution.now used.now required.now) way }
{
    match place_through(substitution, Place::Var(required.place)) {
        Some(place) => is_way_at(state, used, place, required, way),
        None => false,
    }
}

// The same where its place is this one.
#[tactic(auto, using(crate::proofs::ListedLemmas::meetings))]
fn is_way_at(state: &State, used: &[u32], place: Place, required: &Atom, way: Way) -> bool
    ensures { result ≡ lists (map spec.case_way (cases_spec.cases_of state.now.vars state.now.atoms (λ n. list_any (nat_eq n) used.now) place required.now.block (cases_spec.is_freed required.now.state))) way }
{
    is_meeting(state, used, place, required, way)
}

fn is_meeting(state: &State, used: &[u32], place: Place, required: &Atom, way: Way) -> bool
    ensures { result ≡ listed.is_meeting state.now used.now place required.now way }
{
    match way {
        Way::Atom(n) => is_case(state, used, place, required, n),
        Way::Missing => may_be_missing(state.vars.as_slice(), place),
        _ => false,
    }
}

// Whether the block may be that of the atom with a number.
fn is_case(state: &State, used: &[u32], place: Place, required: &Atom, n: u32) -> bool
    ensures { result ≡ listed.is_meeting state.now used.now place required.now (way.Atom n) }
{
    match state.atoms.get(n as usize) {
        Some(atom) => is_unused(
            state.vars.as_slice(),
            used,
            place,
            required,
            n as usize,
            atom,
        ),
        None => false,
    }
}

fn is_unused(
    vars: &[VarInfo],
    used: &[u32],
    place: Place,
    required: &Atom,
    n: usize,
    atom: &Atom,
) -> bool
    ensures { result ≡ (not (list_any (nat_eq n) used.now) && cases_spec.is_match vars.now place required.now.block (cases_spec.is_freed required.now.state) atom.now) }
{
    !is_used(used, n) && is_match(vars, place, required.block, is_freed(&required.state), atom)
}

// Of each of so many atoms whether its number was used.
fn used_marks(alloc: Global, used: &[u32], count: usize) -> Result<Vec<bool>, NoMemory>
    ensures { IfOk result (λ r. AreMarked used.now count r.items) }
{
    let mut marks = Vec::new(alloc);
    for n in 0..count {
        marks.push(is_used(used, n))?;
    }
    Ok(marks)
}

fn is_used(used: &[u32], n: usize) -> bool
    ensures { result ≡ list_any (nat_eq n) used.now }
{
    used.iter().any(|m| n == *m as usize)
}

fn is_freed(state: &AtomState) -> bool
    ensures { result ≡ cases_spec.is_freed state.now }
{
    matches!(state, AtomState::Freed)
}

// Cases as ways.
fn as_ways(alloc: Global, cases: &[Case]) -> Result<Vec<Way>, NoMemory>
    ensures { IfOk result (λ r. r.items ≡ map spec.case_way cases.now) }
{
    let mut ways = Vec::new(alloc);
    for case in cases {
        ways.push(case_way(*case))?;
    }
    Ok(ways)
}

fn case_way(case: Case) -> Way
    ensures { result ≡ spec.case_way case }
{
    match case {
        Case::Atom(n) => Way::Atom(n),
        Case::Missing => Way::Missing,
    }
}
