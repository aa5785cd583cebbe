ghost use Rattle.std.specs.Prelude.{◌≡◌, ◌∷◌, true, List, slice_get, IfOk, IfSome};
ghost use Rattle.px_terms.specs.declared.conjuncts.Conj.{Conj as ConjOf};
ghost use Rattle.px_core.specs.CommandTree.{command_tree};
ghost use Rattle.px_core.specs.Control.{Item, Act};
ghost use Rattle.px_callgraph.specs.JobTree.{JobTree};
ghost use Rattle.px_callgraph.specs.Alternatives.{at};
ghost use Rattle.px_terms.specs.declared.conjuncts.Content.TheVariants.{Cell};
ghost use Rattle.px_callgraph.specs.States.{operand_content, content_at};
ghost use Rattle.px_walks.specs.Walks.{walk_of};
ghost use Rattle.px_match.specs.Operated.{IsCompared};
ghost use Rattle.px_explore.specs.Said.{Says, IsNew, MayAdd, IsRead, IsTested, IsJoined, joined_place, told};
ghost use Rattle.px_explore.specs.Said as spec;

use px_callgraph::{State, Way};
use px_core::{Command, Comparison, Operand};
use px_match::{
    Compared, Growth, NOTHING, condition, contrary, limit_passed, operand_content, stands,
};
use px_terms::{Conj, Content, NoMemory, Place, TypeId, Var, VarInfo};
use px_walks::{Upcoming, Walk, is_calling, next_item};
use px_ways::accessed;
use std::alloc::Global;

// A command with one mark and one conjunct.
pub(crate) const ONE_CONJUNCT: Growth = Growth {
    marks: 1,
    commands: 1,
    conjuncts: 1,
    ..NOTHING
};

// What a way adds to what is assumed, where that is one conjunct that is known before the way is taken: by a read of a
// cell, by a test, and by an access that takes a pointer to be null or that of a block that was met. It isn't looked
// whether the conjunct is new.
pub(crate) fn said(alloc: Global, walk: &Walk, way: Way) -> Result<Option<Conj>, NoMemory>
    ensures { IfOk result (λ o. IfSome o (λ c. (j : JobTree) → IsNew walk.now.state c → Says j (walk_of walk.now) way c)) }
{
    if is_calling(walk) {
        return Ok(None);
    }
    match next_item(walk) {
        Upcoming::Command(command) => said_by(alloc, &walk.state, command, way),
        Upcoming::Nothing | Upcoming::End(_, _) => Ok(None),
    }
}

#[tactic(auto, using(px_core::proofs::CommandEquations::trees))]
fn said_by(
    alloc: Global,
    state: &State,
    command: &Command,
    way: Way,
) -> Result<Option<Conj>, NoMemory>
    ensures { IfOk result (λ o. IfSome o (λ c. (j : JobTree) (k : List Item) → IsNew state.now c → Says j (at (Act (command_tree command.now) ∷ k) state.now) way c)) }
{
    match command {
        Command::Read { slot, .. } => Ok(read(state, *slot, way)),
        Command::Test { how, a, b, .. } => tested(alloc, state, *how, *a, *b, way),
        Command::Load { at, block, .. } => Ok(joined(state, *block, *at, way)),
        Command::Store { at, block, .. } => Ok(joined(state, *block, *at, way)),
        Command::Free { at, block, .. } => Ok(joined(state, *block, *at, way)),
        _ => Ok(None),
    }
}

fn operand_of(alloc: Global, state: &State, operand: Operand) -> Result<Content, NoMemory>
    ensures { IfOk result (λ c. c ≡ operand_content state.now operand) }
{
    operand_content(alloc, state.slots.as_slice(), &operand)
}

// What a test assumes by this way.
fn side(
    alloc: Global,
    state: &State,
    how: Comparison,
    a: Operand,
    b: Operand,
    way: Way,
) -> Result<Compared, NoMemory>
    ensures { IfOk result (λ r. IsCompared r (spec.side state.now how a b way)) }
{
    match way {
        Way::Then => {
            let first = operand_of(alloc, state, a)?;
            let second = operand_of(alloc, state, b)?;
            condition(alloc, how, &first, &second)
        }
        Way::Else => {
            let first = operand_of(alloc, state, a)?;
            let second = operand_of(alloc, state, b)?;
            contrary(alloc, how, &first, &second)
        }
        _ => Ok(Compared::Unfit),
    }
}

fn tested(
    alloc: Global,
    state: &State,
    how: Comparison,
    a: Operand,
    b: Operand,
    way: Way,
) -> Result<Option<Conj>, NoMemory>
    ensures { IfOk result (λ o. IfSome o (λ c. IsNew state.now c → IsTested state.now how a b way c)) }
{
    match side(alloc, state, how, a, b, way)? {
        Compared::Assumes(conjunct) => Ok(Some(conjunct)),
        Compared::Unfit | Compared::TooLong => Ok(None),
    }
}

// The place that an access takes a pointer to be.
fn joined_place(state: &State, way: Way) -> Option<Place>
    ensures { result ≡ joined_place state.now way }
{
    match way {
        Way::Null => Some(Place::Null),
        Way::Atom(n) => Some(Place::Var(state.atoms.get(n as usize)?.place)),
        _ => None,
    }
}

fn joined(state: &State, block: TypeId, at: Operand, way: Way) -> Option<Conj>
    ensures { IfSome result (λ c. IsNew state.now c → IsJoined state.now block at way c) }
{
    let first = accessed(state, block, at)?;
    let second = joined_place(state, way)?;
    Some(Conj::SamePlace(first, second))
}

// The cell of a block that the path met, which a slot has got.
fn cell_at(slots: &[Content], slot: u32) -> Option<Var>
    ensures { IfSome result (λ x. content_at slots.now slot ≡ Cell x) }
{
    match slots.get(slot as usize) {
        Some(Content::Cell(x)) => Some(*x),
        None | Some(Content::Unwritten | Content::Word(_) | Content::Place(_)) => None,
    }
}

fn info_of(vars: &[VarInfo], x: Var) -> Option<VarInfo>
    ensures { result ≡ slice_get vars.now x.0 }
{
    vars.get(x.0 as usize).copied()
}

// What a read of a cell takes it to be.
fn told(cell: Var, way: Way) -> Option<Conj>
    ensures { result ≡ told cell way }
{
    match way {
        Way::Written => Some(Conj::Written(cell)),
        Way::Unwritten => Some(Conj::Unwritten(cell)),
        _ => None,
    }
}

fn read(state: &State, slot: u32, way: Way) -> Option<Conj>
    ensures { IfSome result (λ c. IsNew state.now c → IsRead state.now slot way c) }
{
    let cell = cell_at(state.slots.as_slice(), slot)?;
    let _info = info_of(state.vars.as_slice(), cell)?;
    told(cell, way)
}

// Whether a conjunct isn't decided true, and there is room for it. Whether it is one of those that are assumed isn't looked.
pub(crate) fn may_add(state: &State, conjunct: &Conj) -> bool
    ensures { result ≡ true → MayAdd state.now conjunct.now }
{
    let none: &[Conj] = &[];
    if stands(state.vars.as_slice(), none, conjunct) {
        return false;
    }
    match limit_passed(state, &ONE_CONJUNCT) {
        Some(_) => false,
        None => true,
    }
}
