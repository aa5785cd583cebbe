ghost use Rattle.std.specs.Prelude.{◌≡◌, List, Some, slice_get, OnOk, IfOk};
ghost use Rattle.px_terms.specs.declared.conjuncts.Conj.TheVariants.{SamePlace};
ghost use Rattle.px_terms.specs.declared.conjuncts.Place.TheVariants as place_of;
ghost use Rattle.px_entry.specs.declared.atoms.AtomState.TheVariants.{Live};
ghost use Rattle.px_callgraph.specs.States as states;
ghost use Rattle.px_callgraph.specs.Accesses as spec;
ghost use Rattle.px_ways.specs.Atoms.{state_at};
ghost use Rattle.px_steps.specs.Led.{at_state};
ghost use Rattle.px_steps.specs.Accessing.{access_of, atom_growth, conjuncts_added, effect_at, led_freely};

use crate::accesses::{Access, Effect};
use crate::led::Led;
use px_base::{FieldId, Kind, MarkKind, Site};
use px_callgraph::State;
use px_entry::Exit;
use px_terms::{Conj, Content, Items, NoMemory, Place};
use px_ways::{cell_content, freed, freed_at, mark, place_at, set_slot, stored};
use std::alloc::Global;
use std::mem;

/// A place is null, and is used so. As many conjuncts are new as `added` says.
pub(crate) fn reach_null(
    state: &mut State,
    place: Place,
    access: &Access,
    added: usize,
) -> Result<Led, NoMemory>
    requires { added ≡ conjuncts_added state.old (SamePlace place place_of.Null) }
    ensures { IfOk result (λ r. at_state r state.new ≡ led_freely ((access_of access.now).null (states.assumed (SamePlace place place_of.Null) state.old))) }
{
    join(state, place, Place::Null, added)?;
    use_null(state, access.site, &access.effect)
}

/// A place is that of the atom with a number, and is used so. As many conjuncts are new as `added` says.
pub(crate) fn reach_atom(
    alloc: Global,
    state: &mut State,
    place: Place,
    n: u32,
    access: Access,
    added: usize,
) -> Result<Led, NoMemory>
    requires { added ≡ (atom_growth state.old place (slice_get state.old.atoms n)).conjuncts }
    ensures { IfOk result (λ r. at_state r state.new ≡ led_freely (spec.reach_atom (access_of access) place n (slice_get state.old.atoms n) state.old)) }
{
    match place_at(state.atoms.as_slice(), n) {
        Some(x) => {
            join(state, place, Place::Var(x), added)?;
            use_atom(alloc, state, n as usize, access)
        }
        None => Ok(Led::Goes),
    }
}

// Two places are taken to be one.
fn join(state: &mut State, first: Place, second: Place, added: usize) -> Result<(), NoMemory>
    requires { added ≡ conjuncts_added state.old (SamePlace first second) }
    ensures { OnOk result (state.new ≡ states.assumed (SamePlace first second) state.old) }
{
    if added != 0 {
        state.pure.push(Conj::SamePlace(first, second))?;
    }
    Ok(())
}

// The procedure ends in a memory error, after a mark.
fn fail(state: &mut State, made: MarkKind, kind: Kind, site: Site) -> Result<Led, NoMemory>
    ensures { IfOk result (λ r. at_state r state.new ≡ led_freely (states.fails kind site (states.marked made site state.old))) }
{
    mark(state, made, site)?;
    Ok(Led::Ends(Exit::Error(kind, site), None))
}

fn use_null(state: &mut State, site: Site, effect: &Effect) -> Result<Led, NoMemory>
    ensures { IfOk result (λ r. at_state r state.new ≡ led_freely ((effect_at site effect.now).null state.old)) }
{
    match effect {
        Effect::Load { .. } | Effect::Store { .. } => {
            fail(state, MarkKind::Access, Kind::NullDereference, site)
        }
        Effect::Free => {
            mark(state, MarkKind::FreeNull, site)?;
            Ok(Led::Goes)
        }
    }
}

fn use_freed(state: &mut State, site: Site, effect: &Effect) -> Result<Led, NoMemory>
    ensures { IfOk result (λ r. at_state r state.new ≡ led_freely ((effect_at site effect.now).freed state.old)) }
{
    match effect {
        Effect::Load { .. } | Effect::Store { .. } => {
            fail(state, MarkKind::Access, Kind::UseAfterFree, site)
        }
        Effect::Free => fail(state, MarkKind::Freed, Kind::DoubleFree, site),
    }
}

/// The block of the atom with a number is used.
pub(crate) fn use_atom(
    alloc: Global,
    state: &mut State,
    n: usize,
    access: Access,
) -> Result<Led, NoMemory>
    ensures { IfOk result (λ r. at_state r state.new ≡ led_freely (spec.use_atom (access_of access) n (slice_get state.old.atoms n) state.old)) }
{
    match freed_at(state.atoms.as_slice(), n) {
        Some(true) => use_freed(state, access.site, &access.effect),
        Some(false) => use_live(alloc, state, n, access.site, access.effect),
        None => Ok(Led::Goes),
    }
}

// A live block is used.
fn use_live(
    alloc: Global,
    state: &mut State,
    n: usize,
    site: Site,
    effect: Effect,
) -> Result<Led, NoMemory>
    ensures { IfOk result (λ r. (cells : List Content) → state_at state.old.atoms n ≡ Some (Live cells) → at_state r state.new ≡ led_freely ((effect_at site effect).live n cells state.old)) }
{
    match effect {
        Effect::Load { to, field } => load(state, n, to, field, site),
        Effect::Store { field, content } => store(alloc, state, n, field, content, site),
        Effect::Free => free(alloc, state, n, site),
    }
}

fn load(state: &mut State, n: usize, to: u32, field: FieldId, site: Site) -> Result<Led, NoMemory>
    ensures { IfOk result (λ r. (cells : List Content) → state_at state.old.atoms n ≡ Some (Live cells) → at_state r state.new ≡ led_freely ((spec.load_access to field.0 site).live n cells state.old)) }
{
    let content = cell_content(state.atoms.as_slice(), n, field)?;
    mark(state, MarkKind::Access, site)?;
    set_slot(state, to, content);
    Ok(Led::Goes)
}

fn store(
    alloc: Global,
    state: &mut State,
    n: usize,
    field: FieldId,
    content: Content,
    site: Site,
) -> Result<Led, NoMemory>
    ensures { IfOk result (λ r. (cells : List Content) → state_at state.old.atoms n ≡ Some (Live cells) → at_state r state.new ≡ led_freely ((spec.store_access field.0 content site).live n cells state.old)) }
{
    mark(state, MarkKind::Access, site)?;
    let atoms = mem::replace(&mut state.atoms, Items::new(alloc));
    state.atoms = stored(atoms, n, field, content);
    Ok(Led::Goes)
}

fn free(alloc: Global, state: &mut State, n: usize, site: Site) -> Result<Led, NoMemory>
    ensures { IfOk result (λ r. (cells : List Content) → state_at state.old.atoms n ≡ Some (Live cells) → at_state r state.new ≡ led_freely ((spec.free_access site).live n cells state.old)) }
{
    mark(state, MarkKind::Freed, site)?;
    let atoms = mem::replace(&mut state.atoms, Items::new(alloc));
    state.atoms = freed(atoms, n);
    Ok(Led::Goes)
}
