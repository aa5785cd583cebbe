ghost use Rattle.std.specs.Prelude.{◌≡◌, ◌<◌, ◌^◌, List, Some, true, false, length, slice_get, option_to_list, IfOk};
ghost use Rattle.px_terms.specs.declared.types.BlockType.{BlockType as BlockOf};
ghost use Rattle.px_terms.specs.declared.conjuncts.Place.TheVariants as places;
ghost use Rattle.px_entry.specs.declared.atoms.Atom.{Atom as AtomOf};
ghost use Rattle.px_entry.specs.Cases as cases_spec;
ghost use Rattle.px_entry.specs.Regular.{state_cells};
ghost use Rattle.px_callgraph.specs.Calls as spec;
ghost use Rattle.px_callgraph.specs.Renaming as renaming;
ghost use Rattle.px_ways.specs.Additions.{with_conjuncts};
ghost use Rattle.px_calls.specs.Calls.{calling_of, stage_of, IsTaking};
ghost use Rattle.px_calls.specs.Progress.{progress_at};
ghost use Rattle.px_calls.specs.Meeting.{met_stage, taken_atom, taken_missing, taken_case, IsStaying};

use crate::assuming::one_more;
use crate::led::{self, CallLed};
use crate::{Call, Calling, Matching, Stage};
use px_callgraph::{State, Way};
use px_entry::{Atom, AtomState, Entry};
use px_match::{Growth, NOTHING, limit_passed, place_through, put_cells};
use px_terms::{BlockType, Conj, Content, NoMemory, Place, Var};
use px_ways::{add_conjunct, cells_of, count_added, meet_freed, meet_live, place_at, unless_there};
use std::alloc::Global;

/// How far the blocks that an entry requires are met.
#[derive(Drop)]
pub(crate) struct Progress {
    /// What variables of the entry stand for.
    pub substitution: Vec<(Var, Content)>,
    /// How many of the blocks are met.
    pub met: usize,
    /// The numbers of the caller's atoms that they are, in order.
    pub used: Vec<u32>,
}

/// The next block that an entry requires is met, by one of its ways. Where no way is named so, the call doesn't go on.
pub(crate) fn meet<'a>(
    alloc: Global,
    types: &[BlockType],
    state: &mut State,
    calling: Calling,
    entry: &'a Entry,
    progress: Progress,
    required: &Atom,
    way: Way,
) -> Result<CallLed<'a>, NoMemory>
    requires few { length state.old.atoms < 2 ^ 32 }
    ensures { IfOk result (λ led. IsTaking state.old (calling_of calling) (taken_case types.now entry.now progress required.now way (renaming.place_through progress.substitution.items (places.Var required.now.place)) state.old) (progress_at led state.new)) }
{
    match place_through(&progress.substitution, Place::Var(required.place)) {
        Some(place) => meet_at(
            alloc, types, state, calling, entry, progress, required, place, way,
        ),
        None => stop(alloc, state, calling),
    }
}

// The same where its place is this one.
fn meet_at<'a>(
    alloc: Global,
    types: &[BlockType],
    state: &mut State,
    calling: Calling,
    entry: &'a Entry,
    progress: Progress,
    required: &Atom,
    place: Place,
    way: Way,
) -> Result<CallLed<'a>, NoMemory>
    requires few { length state.old.atoms < 2 ^ 32 }
    ensures { IfOk result (λ led. IsTaking state.old (calling_of calling) (taken_case types.now entry.now progress required.now way (Some place) state.old) (progress_at led state.new)) }
{
    match way {
        Way::Atom(n) => meet_atom(alloc, state, calling, entry, progress, required, place, n),
        Way::Missing => meet_missing(
            alloc, types, state, calling, entry, progress, required, place,
        ),
        _ => stop(alloc, state, calling),
    }
}

// No way is named so.
fn stop<'a>(alloc: Global, state: &State, calling: Calling) -> Result<CallLed<'a>, NoMemory>
    requires few { length state.now.atoms < 2 ^ 32 }
    ensures { IfOk result (λ led. IsTaking state.now (calling_of calling) (record { state = state.now; stage = spec.unfit }) (progress_at led state.now)) }
{
    match limit_passed(state, &NOTHING) {
        Some(kind) => led::cut(alloc, state, kind),
        None => {
            let call = Call {
                calling,
                stage: Stage::Unfit,
            };
            Ok(CallLed::Goes(Some(call)))
        }
    }
}

// The block is that of the caller's atom with a number.
fn meet_atom<'a>(
    alloc: Global,
    state: &mut State,
    calling: Calling,
    entry: &'a Entry,
    progress: Progress,
    required: &Atom,
    place: Place,
    n: u32,
) -> Result<CallLed<'a>, NoMemory>
    requires few { length state.old.atoms < 2 ^ 32 }
    ensures { IfOk result (λ led. IsTaking state.old (calling_of calling) (taken_atom entry.now progress required.now n place (slice_get state.old.atoms n) state.old) (progress_at led state.new)) }
{
    match place_at(state.atoms.as_slice(), n) {
        Some(x) => meet_place(
            alloc, state, calling, entry, progress, required, place, n, x,
        ),
        None => stop(alloc, state, calling),
    }
}

// The same where the atom's place is this one.
fn meet_place<'a>(
    alloc: Global,
    state: &mut State,
    calling: Calling,
    entry: &'a Entry,
    progress: Progress,
    required: &Atom,
    place: Place,
    n: u32,
    x: Var,
) -> Result<CallLed<'a>, NoMemory>
    requires few { length state.old.atoms < 2 ^ 32 }
    ensures { IfOk result (λ led. (b : AtomOf) → slice_get state.old.atoms n ≡ Some b → b.place ≡ x → IsTaking state.old (calling_of calling) (taken_atom entry.now progress required.now n place (Some b) state.old) (progress_at led state.new)) }
{
    let added = unless_there(state, Conj::SamePlace(place, Place::Var(x)));
    let growth = Growth {
        conjuncts: count_added(&added),
        ..NOTHING
    };
    match limit_passed(state, &growth) {
        Some(kind) => led::cut(alloc, state, kind),
        None => join(state, calling, entry, progress, required, n, added),
    }
}

// The same where no limit is passed.
fn join<'a>(
    state: &mut State,
    calling: Calling,
    entry: &'a Entry,
    progress: Progress,
    required: &Atom,
    n: u32,
    added: Option<Conj>,
) -> Result<CallLed<'a>, NoMemory>
    ensures { IfOk result (λ led. (b : AtomOf) → slice_get state.old.atoms n ≡ Some b → IsStaying (with_conjuncts (option_to_list added) state.old) (calling_of calling) (met_stage entry.now progress required.now b n) (progress_at led state.new)) }
{
    add_conjunct(state, added)?;
    stay(state, calling, entry, progress, required, n)
}

// A block is met that wasn't met yet.
fn meet_missing<'a>(
    alloc: Global,
    types: &[BlockType],
    state: &mut State,
    calling: Calling,
    entry: &'a Entry,
    progress: Progress,
    required: &Atom,
    place: Place,
) -> Result<CallLed<'a>, NoMemory>
    requires few { length state.old.atoms < 2 ^ 32 }
    ensures { IfOk result (λ led. IsTaking state.old (calling_of calling) (taken_missing types.now entry.now progress required.now place state.old) (progress_at led state.new)) }
{
    match place {
        Place::Null => stop(alloc, state, calling),
        Place::Var(x) => match &required.state {
            AtomState::Live(_) => meet_live_at(
                alloc, types, state, calling, entry, progress, required, x,
            ),
            AtomState::Freed => meet_freed_at(alloc, state, calling, entry, progress, required, x),
        },
    }
}

fn meet_live_at<'a>(
    alloc: Global,
    types: &[BlockType],
    state: &mut State,
    calling: Calling,
    entry: &'a Entry,
    progress: Progress,
    required: &Atom,
    x: Var,
) -> Result<CallLed<'a>, NoMemory>
    requires few { length state.old.atoms < 2 ^ 32 }
    ensures { IfOk result (λ led. cases_spec.is_freed required.now.state ≡ false → IsTaking state.old (calling_of calling) (taken_missing types.now entry.now progress required.now (places.Var x) state.old) (progress_at led state.new)) }
{
    let cells = cells_of(types, required.block);
    let growth = Growth {
        atoms: 1,
        variables: cells.len(),
        ..NOTHING
    };
    match limit_passed(state, &growth) {
        Some(kind) => led::cut(alloc, state, kind),
        None => {
            let n = state.atoms.len() as u32;
            meet_live(alloc, cells, state, required.block, x)?;
            stay(state, calling, entry, progress, required, n)
        }
    }
}

fn meet_freed_at<'a>(
    alloc: Global,
    state: &mut State,
    calling: Calling,
    entry: &'a Entry,
    progress: Progress,
    required: &Atom,
    x: Var,
) -> Result<CallLed<'a>, NoMemory>
    requires few { length state.old.atoms < 2 ^ 32 }
    ensures { IfOk result (λ led. cases_spec.is_freed required.now.state ≡ true → (types : List BlockOf) → IsTaking state.old (calling_of calling) (taken_missing types entry.now progress required.now (places.Var x) state.old) (progress_at led state.new)) }
{
    let growth = Growth {
        atoms: 1,
        ..NOTHING
    };
    match limit_passed(state, &growth) {
        Some(kind) => led::cut(alloc, state, kind),
        None => {
            let n = state.atoms.len() as u32;
            meet_freed(state, required.block, x)?;
            stay(state, calling, entry, progress, required, n)
        }
    }
}

// The block is that of the atom with a number, and the call goes on.
fn stay<'a>(
    state: &State,
    calling: Calling,
    entry: &'a Entry,
    progress: Progress,
    required: &Atom,
    n: u32,
) -> Result<CallLed<'a>, NoMemory>
    ensures { IfOk result (λ led. (b : AtomOf) → slice_get state.now.atoms n ≡ Some b → IsStaying state.now (calling_of calling) (met_stage entry.now progress required.now b n) (progress_at led state.now)) }
{
    let stage = stage_at(state.atoms.as_slice(), entry, progress, required, n)?;
    Ok(CallLed::Goes(Some(Call { calling, stage })))
}

fn stage_at<'a>(
    atoms: &[Atom],
    entry: &'a Entry,
    progress: Progress,
    required: &Atom,
    n: u32,
) -> Result<Stage<'a>, NoMemory>
    ensures { IfOk result (λ stage. (b : AtomOf) → slice_get atoms.now n ≡ Some b → stage_of stage ≡ met_stage entry.now progress required.now b n) }
{
    match atoms.get(n as usize) {
        Some(atom) => advance(entry, progress, required, atom, n),
        None => Ok(Stage::Unfit),
    }
}

// One more block is met: the entry's cell variables stand for its contents.
fn advance<'a>(
    entry: &'a Entry,
    mut progress: Progress,
    required: &Atom,
    atom: &Atom,
    n: u32,
) -> Result<Stage<'a>, NoMemory>
    ensures { IfOk result (λ stage. stage_of stage ≡ met_stage entry.now progress required.now atom.now n) }
{
    put_cells(
        &mut progress.substitution,
        cells_in(&required.state),
        cells_in(&atom.state),
    )?;
    progress.used.push(n)?;
    let met = one_more(progress.met)?;
    Ok(Stage::Matching(Matching {
        entry,
        substitution: progress.substitution,
        met,
        used: progress.used,
    }))
}

fn cells_in(state: &AtomState) -> &[Content]
    ensures { result.now ≡ state_cells state.now }
{
    match state {
        AtomState::Live(cells) => cells.as_slice(),
        AtomState::Freed => &[],
    }
}
