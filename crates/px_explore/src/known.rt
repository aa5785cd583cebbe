ghost use Rattle.std.specs.Prelude.{◌≡◌, ◌∷◌, true, List, IfSome};
ghost use Rattle.px_terms.specs.declared.conjuncts.Place.TheVariants as place;
ghost use Rattle.px_core.specs.CommandTree.{command_tree};
ghost use Rattle.px_core.specs.Control.{Item, Act};
ghost use Rattle.px_callgraph.specs.declared.states.Way.TheVariants as way;
ghost use Rattle.px_callgraph.specs.Alternatives.{at};
ghost use Rattle.px_walks.specs.Walks.{walk_of};
ghost use Rattle.px_explore.specs.Known.{GoesThrough, IsAmong, IsMetAt, IsAssumed, LeadsTo, IsKnown, IsOther, LeadsElsewhere, same_places};

use crate::missed::variable_at;
use crate::said::ONE_CONJUNCT;
use px_callgraph::{State, Way};
use px_core::Command;
use px_entry::Atom;
use px_match::{is_made, limit_passed};
use px_terms::{Conj, Place, TypeId, Var, VarInfo};
use px_walks::{Upcoming, Walk, is_calling, next_item};

// A pointer that the next command goes through, and the place and the type of the block that it leads to.
#[derive(Clone, Copy)]
pub(crate) struct Known {
    pub(crate) pointer: Var,
    pub(crate) place: Var,
    pub(crate) block: TypeId,
}

// The block that the next command leads to, where it goes through a pointer and one of the blocks that were met is known
// to be there. Whatever is listed, no other block can be.
pub(crate) fn known_block(walk: &Walk) -> Option<Known>
    ensures { IfSome result (λ k. IsKnown (walk_of walk.now) k) }
{
    let pointer = pointer_of(walk)?;
    let known = leads_to(&walk.state, pointer)?;
    match limit_passed(&walk.state, &ONE_CONJUNCT) {
        Some(_) => None,
        None => Some(known),
    }
}

// The pointer that the next command goes through.
fn pointer_of(walk: &Walk) -> Option<Var>
    ensures { IfSome result (λ x. GoesThrough (walk_of walk.now) x) }
{
    if is_calling(walk) {
        return None;
    }
    match next_item(walk) {
        Upcoming::Command(command) => pointer_by(&walk.state, command),
        Upcoming::Nothing | Upcoming::End(_, _) => None,
    }
}

#[tactic(auto, using(px_core::proofs::CommandEquations::trees))]
fn pointer_by(state: &State, command: &Command) -> Option<Var>
    ensures { IfSome result (λ x. (k : List Item) → GoesThrough (at (Act (command_tree command.now) ∷ k) state.now) x) }
{
    match command {
        Command::Load { at, block, .. } => variable_at(state, *block, *at),
        Command::Store { at, block, .. } => variable_at(state, *block, *at),
        Command::Free { at, block, .. } => variable_at(state, *block, *at),
        _ => None,
    }
}

// The block that a pointer leads to: its own, or the first that it is assumed to be.
fn leads_to(state: &State, pointer: Var) -> Option<Known>
    ensures { IfSome result (λ k. LeadsTo state.now k × (k.pointer ≡ pointer)) }
{
    match block_at(state, pointer) {
        Some(block) => Some(Known {
            pointer,
            place: pointer,
            block,
        }),
        None => assumed_block(state, pointer),
    }
}

// The type of the block that was met at a place, which isn't made.
fn block_at(state: &State, place: Var) -> Option<TypeId>
    ensures { IfSome result (λ t. IsMetAt state.now place t) }
{
    if is_made(state.vars.as_slice(), place) {
        return None;
    }
    block_among(state.atoms.as_slice(), place)
}

fn block_among(atoms: &[Atom], place: Var) -> Option<TypeId>
    ensures { IfSome result (λ t. IsAmong atoms.now place t) }
{
    for n in 0..atoms.len() {
        if let Some(block) = block_of(&atoms[n], place) {
            return Some(block);
        }
    }
    None
}

// The type of a block, if it is at this place.
fn block_of(atom: &Atom, place: Var) -> Option<TypeId>
    ensures { IfSome result (λ t. (atom.now.place.0 ≡ place.0) × (atom.now.block.0 ≡ t.0)) }
{
    if atom.place.0 == place.0 {
        Some(atom.block)
    } else {
        None
    }
}

fn assumed_block(state: &State, pointer: Var) -> Option<Known>
    ensures { IfSome result (λ k. LeadsTo state.now k × (k.pointer ≡ pointer)) }
{
    block_in(state, state.pure.as_slice(), pointer)
}

// The first block that a pointer is by one of these conjuncts.
fn block_in(state: &State, pure: &[Conj], pointer: Var) -> Option<Known>
    ensures { IfSome result (λ k. IsAssumed state.now pure.now k × (k.pointer ≡ pointer)) }
{
    for n in 0..pure.len() {
        if let Some(known) = block_by(state, pointer, &pure[n]) {
            return Some(known);
        }
    }
    None
}

// The block that a pointer leads to by a conjunct.
fn block_by(state: &State, pointer: Var, conjunct: &Conj) -> Option<Known>
    ensures { IfSome result (λ k. IsMetAt state.now k.place k.block × (conjunct.now ≡ same_places k.pointer k.place) × (k.pointer ≡ pointer)) }
{
    let place = place_by(pointer, conjunct)?;
    let block = block_at(state, place)?;
    Some(Known {
        pointer,
        place,
        block,
    })
}

// The place that a conjunct takes a pointer to be.
fn place_by(pointer: Var, conjunct: &Conj) -> Option<Var>
    ensures { IfSome result (λ y. conjunct.now ≡ same_places pointer y) }
{
    match conjunct {
        Conj::SamePlace(first, second) => other_place(pointer, *first, *second),
        _ => None,
    }
}

// The second place, where the first is a pointer's.
fn other_place(pointer: Var, first: Place, second: Place) -> Option<Var>
    ensures { IfSome result (λ y. (first ≡ place.Var pointer) × (second ≡ place.Var y)) }
{
    let x = variable_of(first)?;
    let y = variable_of(second)?;
    if x.0 == pointer.0 { Some(y) } else { None }
}

fn variable_of(at: Place) -> Option<Var>
    ensures { IfSome result (λ x. at ≡ place.Var x) }
{
    match at {
        Place::Var(x) => Some(x),
        Place::Null => None,
    }
}

// Whether a way leads to another block of the type than the one that is known to be there.
pub(crate) fn leads_elsewhere(state: &State, known: Known, way: Way) -> bool
    ensures { result ≡ true → LeadsElsewhere state.now known way }
{
    match way {
        Way::Atom(n) => is_other_at(state, known, n),
        _ => false,
    }
}

fn is_other_at(state: &State, known: Known, n: u32) -> bool
    ensures { result ≡ true → LeadsElsewhere state.now known (way.Atom n) }
{
    match state.atoms.get(n as usize) {
        Some(atom) => is_other(state.vars.as_slice(), known, atom),
        None => false,
    }
}

fn is_other(vars: &[VarInfo], known: Known, atom: &Atom) -> bool
    ensures { result ≡ true → IsOther vars.now known atom.now }
{
    if atom.place.0 == known.pointer.0 {
        return false;
    }
    if atom.place.0 == known.place.0 {
        return false;
    }
    if atom.block.0 != known.block.0 {
        return false;
    }
    !is_made(vars, atom.place)
}
