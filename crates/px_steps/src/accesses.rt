ghost use Rattle.std.specs.Prelude.{◌≡◌, ◌+◌, ◌<◌, ◌≤◌, length, slice_get, IfOk};
ghost use Rattle.std.specs.Option.{option_copied};
ghost use Rattle.px_base.specs.Bounds.{most_steps, most_variables};
ghost use Rattle.px_terms.specs.declared.conjuncts.Conj.TheVariants as conjunct;
ghost use Rattle.px_callgraph.specs.JobTree.{job_tree};
ghost use Rattle.px_callgraph.specs.States.{begun};
ghost use Rattle.px_callgraph.specs.Accesses as spec;
ghost use Rattle.px_callgraph.specs.Accesses.{block_cells};
ghost use Rattle.px_callgraph.specs.Commands as commands;
ghost use Rattle.px_steps.specs.Led.{at_state, led_of};
ghost use Rattle.px_steps.specs.Accessing as accessing;
ghost use Rattle.px_steps.specs.Accessing.{access_of, led_freely, used_by};
ghost use Rattle.px_steps.specs.declared.accesses.Effect.TheVariants as effects;

use crate::access_effects::{reach_atom, reach_null};
use crate::control_acts::begin_alone;
use crate::led::{self, Led};
use crate::meetings::{reach_freed, reach_live};
use crate::path_limits::COMMAND;
use px_base::{FieldId, Site};
use px_callgraph::{Job, State, Way};
use px_core::Operand;
use px_entry::Atom;
use px_match::{Growth, limit_passed, stands};
use px_terms::{BlockType, Conj, Content, NoMemory, Place, TypeId};
use px_ways::{accessed, begin, cells_of};
use std::alloc::Global;

/// What a command does with the block to which a pointer leads.
#[derive(Drop)]
pub(crate) enum Effect {
    /// A slot gets a cell.
    Load { to: u32, field: FieldId },
    /// A cell gets a content.
    Store { field: FieldId, content: Content },
    /// The block is freed; of null nothing is done.
    Free,
}

/// An access to a block of a type.
#[derive(Drop)]
pub(crate) struct Access {
    pub block: TypeId,
    pub site: Site,
    pub effect: Effect,
}

/// A slot gets a cell.
pub(crate) fn loading(block: TypeId, site: Site, to: u32, field: FieldId) -> Access
    ensures { result ≡ used_by block site (effects.Load to field) }
{
    Access {
        block,
        site,
        effect: Effect::Load { to, field },
    }
}

/// A cell gets a content.
pub(crate) fn storing(block: TypeId, site: Site, field: FieldId, content: Content) -> Access
    ensures { result ≡ used_by block site (effects.Store field content) }
{
    Access {
        block,
        site,
        effect: Effect::Store { field, content },
    }
}

/// A block is freed.
pub(crate) fn freeing(block: TypeId, site: Site) -> Access
    ensures { result ≡ used_by block site effects.Free }
{
    Access {
        block,
        site,
        effect: Effect::Free,
    }
}

/// An access through a pointer, by one of its ways. Where the operand isn't a pointer to that type, or no way
/// is named so, the command only begins.
pub(crate) fn pointer_act(
    alloc: Global,
    job: &Job,
    state: &mut State,
    at: Operand,
    access: Access,
    way: Way,
) -> Result<Led, NoMemory>
    ensures { IfOk result (λ r. at_state r state.new ≡ led_of state.old (commands.pointer_done (job_tree job.now) access.block at (access_of access) way (begun state.old))) }
{
    match accessed(state, access.block, at) {
        Some(place) => access_act(alloc, job.types.as_slice(), state, place, access, way),
        None => begin_alone(alloc, state),
    }
}

// An access through a place. The limits are looked at before anything is changed.
fn access_act(
    alloc: Global,
    types: &[BlockType],
    state: &mut State,
    place: Place,
    access: Access,
    way: Way,
) -> Result<Led, NoMemory>
    ensures { IfOk result (λ r. at_state r state.new ≡ led_of state.old (spec.access_done types.now access.block (access_of access) place way (begun state.old))) }
{
    let growth = access_growth(types, state, access.block, place, way);
    match limit_passed(state, &growth) {
        Some(kind) => led::cut(alloc, state, kind),
        None => reach(alloc, types, state, place, access, way, &growth),
    }
}

// How much an access adds to a state.
fn access_growth(
    types: &[BlockType],
    state: &State,
    block: TypeId,
    place: Place,
    way: Way,
) -> Growth
    ensures { result ≡ accessing.access_growth types.now state.now block place way }
{
    match way {
        Way::Null => Growth {
            marks: 1,
            conjuncts: conjuncts_added(state, place, Place::Null),
            ..COMMAND
        },
        Way::Atom(n) => atom_growth(state, place, state.atoms.as_slice().get(n as usize)),
        Way::MissingLive => missing_growth(place, cells_of(types, block).len()),
        Way::MissingFreed => missing_growth(place, 0),
        _ => COMMAND,
    }
}

// How many conjuncts are new where two places are taken to be one.
fn conjuncts_added(state: &State, first: Place, second: Place) -> usize
    ensures { result ≡ accessing.conjuncts_added state.now (conjunct.SamePlace first second) }
{
    let assumed = Conj::SamePlace(first, second);
    if stands(state.vars.as_slice(), state.pure.as_slice(), &assumed) {
        0
    } else {
        1
    }
}

fn atom_growth(state: &State, place: Place, atom: Option<&Atom>) -> Growth
    ensures { result ≡ accessing.atom_growth state.now place (option_copied atom.entry) }
{
    match atom {
        Some(atom) => Growth {
            marks: 1,
            conjuncts: conjuncts_added(state, place, Place::Var(atom.place)),
            ..COMMAND
        },
        None => COMMAND,
    }
}

fn missing_growth(place: Place, cells: usize) -> Growth
    ensures { result ≡ accessing.missing_growth place cells }
{
    match place {
        Place::Null => COMMAND,
        Place::Var(_) => Growth {
            marks: 1,
            atoms: 1,
            variables: cells,
            ..COMMAND
        },
    }
}

// An access that passes no limit, and adds so much.
fn reach(
    alloc: Global,
    types: &[BlockType],
    state: &mut State,
    place: Place,
    access: Access,
    way: Way,
    added: &Growth,
) -> Result<Led, NoMemory>
    requires added { added.now ≡ accessing.access_growth types.now state.old access.block place way }
    requires steps { state.old.steps < most_steps }
    requires few { length state.old.vars + added.now.variables ≤ most_variables }
    ensures { IfOk result (λ r. at_state r state.new ≡ led_freely (spec.access_done types.now access.block (access_of access) place way (begun state.old))) }
{
    begin(state);
    match way {
        Way::Null => reach_null(state, place, &access, added.conjuncts),
        Way::Atom(n) => reach_atom(alloc, state, place, n, access, added.conjuncts),
        Way::MissingLive => reach_live(alloc, types, state, place, access),
        Way::MissingFreed => reach_freed(alloc, state, place, access),
        _ => Ok(Led::Goes),
    }
}
