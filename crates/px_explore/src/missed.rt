ghost use Rattle.std.specs.Prelude.{◌≡◌, ◌∷◌, List, IfSome};
ghost use Rattle.px_core.specs.CommandTree.{command_tree};
ghost use Rattle.px_core.specs.Control.{Item, Act};
ghost use Rattle.px_callgraph.specs.JobTree.{job_tree};
ghost use Rattle.px_callgraph.specs.Alternatives.{at};
ghost use Rattle.px_walks.specs.Walks.{walk_of};
ghost use Rattle.px_explore.specs.Missed.{IsMissed, IsThrough, Meets, cells_met};

use px_callgraph::{Job, State, Way};
use px_core::{Command, Operand};
use px_match::{Growth, NOTHING, is_made, limit_passed};
use px_terms::{BlockType, Place, TypeId, Var};
use px_walks::{Upcoming, Walk, is_calling, next_item};
use px_ways::{accessed, cells_of};

// A block that the path hasn't met.
#[derive(Clone, Copy)]
pub(crate) struct Missed {
    pub(crate) place: Var,
    pub(crate) block: TypeId,
}

// The block that is met where a way leads, where it is one by a pointer that isn't made, and no limit is passed.
pub(crate) fn block_missed(job: &Job, walk: &Walk, way: Way) -> Option<Missed>
    ensures { IfSome result (λ m. Meets (job_tree job.now) (walk_of walk.now) way m) }
{
    if is_calling(walk) {
        return None;
    }
    match next_item(walk) {
        Upcoming::Command(command) => missed_by(job, &walk.state, command, way),
        Upcoming::Nothing | Upcoming::End(_, _) => None,
    }
}

#[tactic(auto, using(px_core::proofs::CommandEquations::trees))]
fn missed_by(job: &Job, state: &State, command: &Command, way: Way) -> Option<Missed>
    ensures { IfSome result (λ m. (k : List Item) → Meets (job_tree job.now) (at (Act (command_tree command.now) ∷ k) state.now) way m) }
{
    match command {
        Command::Load { at, block, .. } => missed_at(job, state, *block, *at, way),
        Command::Store { at, block, .. } => missed_at(job, state, *block, *at, way),
        Command::Free { at, block, .. } => missed_at(job, state, *block, *at, way),
        _ => None,
    }
}

// How many cells are new by a way to a block that wasn't met.
fn cells_met(types: &[BlockType], block: TypeId, way: Way) -> Option<usize>
    ensures { result ≡ cells_met types.now block way }
{
    match way {
        Way::MissingLive => Some(cells_of(types, block).len()),
        Way::MissingFreed => Some(0),
        _ => None,
    }
}

// The variable that an access goes through.
pub(crate) fn variable_at(state: &State, block: TypeId, at: Operand) -> Option<Var>
    ensures { IfSome result (λ x. IsThrough state.now block at x) }
{
    match accessed(state, block, at) {
        Some(Place::Var(x)) => Some(x),
        None | Some(Place::Null) => None,
    }
}

fn missed_at(job: &Job, state: &State, block: TypeId, at: Operand, way: Way) -> Option<Missed>
    ensures { IfSome result (λ m. IsMissed (job_tree job.now).types state.now block at way m) }
{
    let cells = cells_met(job.types.as_slice(), block, way)?;
    let place = variable_at(state, block, at)?;
    if is_made(state.vars.as_slice(), place) {
        return None;
    }
    let growth = Growth {
        marks: 1,
        commands: 1,
        atoms: 1,
        variables: cells,
        ..NOTHING
    };
    match limit_passed(state, &growth) {
        Some(_) => None,
        None => Some(Missed { place, block }),
    }
}
