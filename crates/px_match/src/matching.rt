ghost use Rattle.std.specs.Prelude.{◌≡◌, ◌++◌, ◌<◌, ◌^◌, ◌&&◌, not, length, false, slice_index_or, IfOk, OnOk};
ghost use Rattle.px_entry.specs.Cases as spec;
ghost use Rattle.px_match.specs.Matching.{case_if};

use crate::{may_be_missing, may_be_same};
use px_entry::{Atom, AtomState, Case};
use px_terms::{NoMemory, Place, TypeId, VarInfo};
use std::alloc::Global;

/// The ways to meet one required block of this type at this place, live or freed: each atom that isn't used, in
/// order, and last a missing block.
pub fn cases(
    alloc: Global,
    vars: &[VarInfo],
    atoms: &[Atom],
    used: &[bool],
    place: Place,
    block: TypeId,
    freed: bool,
) -> Result<Vec<Case>, NoMemory>
    requires each { length used.now ≡ length atoms.now }
    requires few { length atoms.now < 2 ^ 32 }
    ensures { IfOk result (λ r. r.items ≡ spec.cases_of vars.now atoms.now (λ n. slice_index_or used.now n false) place block freed) }
{
    let mut found = Vec::new(alloc);
    for i in 0..atoms.len() {
        let here = is_match(vars, place, block, freed, &atoms[i]);
        let is_case = unless(used[i], here);
        put_case(&mut found, is_case, i as u32)?;
    }
    if may_be_missing(vars, place) {
        found.push(Case::Missing)?;
    }
    Ok(found)
}

// Puts the case of an atom after others, where it is one.
fn put_case(found: &mut Vec<Case>, is_case: bool, atom: u32) -> Result<(), NoMemory>
    ensures { OnOk result (found.new.items ≡ found.old.items ++ case_if is_case atom) }
{
    if is_case {
        found.push(Case::Atom(atom))?;
    }
    Ok(())
}

// Whether the second holds and the first doesn't.
fn unless(first: bool, second: bool) -> bool
    ensures { result ≡ (not first && second) }
{
    !first && second
}

/// Whether an atom is of the type and state that are required, and may be at the place.
pub fn is_match(vars: &[VarInfo], place: Place, block: TypeId, freed: bool, atom: &Atom) -> bool
    ensures { result ≡ spec.is_match vars.now place block freed atom.now }
{
    atom.block.0 == block.0
        && is_freed(&atom.state) == freed
        && may_be_same(vars, place, Place::Var(atom.place))
}

fn is_freed(state: &AtomState) -> bool
    ensures { result ≡ spec.is_freed state.now }
{
    matches!(state, AtomState::Freed)
}
