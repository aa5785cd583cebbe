ghost use Rattle.std.specs.Prelude.{◌≡◌, IfOk, length};
ghost use Rattle.px_base.specs.declared.trace.MarkKind.TheVariants as kind;
ghost use Rattle.px_terms.specs.declared.conjuncts.Content.TheVariants as content;
ghost use Rattle.px_terms.specs.declared.conjuncts.Place.TheVariants as place;
ghost use Rattle.px_callgraph.specs.JobTree.{job_tree};
ghost use Rattle.px_callgraph.specs.States.{on, begun, marked};
ghost use Rattle.px_callgraph.specs.States as states;
ghost use Rattle.px_callgraph.specs.Commands as commands;
ghost use Rattle.px_entry.specs.Contents.{variable_content};
ghost use Rattle.px_terms.specs.declared.types.ValueType.TheVariants as value;
ghost use Rattle.px_steps.specs.Led.{at_state, led_of};

use crate::control_acts::begin_alone;
use crate::led::{self, Led};
use crate::path_limits::{COMMAND, MARKED};
use px_base::{MarkKind, Site};
use px_callgraph::{Job, State, Way};
use px_match::{Growth, limit_passed};
use px_terms::{BlockType, Content, NoMemory, Place, TypeId};
use px_ways::{begin, mark, set_slot, take_block};
use std::alloc::Global;

/// A slot gets a content.
#[tactic(auto, unfolding(crate::specs::Led::led_of))]
pub(crate) fn give(
    alloc: Global,
    state: &mut State,
    to: u32,
    content: Content,
) -> Result<Led, NoMemory>
    ensures { IfOk result (λ r. at_state r state.new ≡ led_of state.old (on (states.set_slot to content (begun state.old)))) }
{
    match limit_passed(state, &COMMAND) {
        Some(kind) => led::cut(alloc, state, kind),
        None => {
            begin(state);
            set_slot(state, to, content);
            Ok(Led::Goes)
        }
    }
}

/// `malloc` gives null.
pub(crate) fn give_no_block(
    alloc: Global,
    state: &mut State,
    to: u32,
    site: Site,
) -> Result<Led, NoMemory>
    ensures { IfOk result (λ r. at_state r state.new ≡ led_of state.old (on (states.set_slot to (content.Place place.Null) (marked kind.NoBlock site (begun state.old))))) }
{
    match limit_passed(state, &MARKED) {
        Some(kind) => led::cut(alloc, state, kind),
        None => {
            begin(state);
            mark(state, MarkKind::NoBlock, site)?;
            set_slot(state, to, Content::Place(Place::Null));
            Ok(Led::Goes)
        }
    }
}

/// `malloc` gives null or a new block.
pub(crate) fn make(
    alloc: Global,
    job: &Job,
    state: &mut State,
    to: u32,
    block: TypeId,
    site: Site,
    way: Way,
) -> Result<Led, NoMemory>
    ensures { IfOk result (λ r. at_state r state.new ≡ led_of state.old (commands.malloc_done (job_tree job.now).types to block site way (begun state.old))) }
{
    match way {
        Way::Null => give_no_block(alloc, state, to, site),
        Way::Made => give_block(alloc, job.types.as_slice(), state, to, block, site),
        _ => begin_alone(alloc, state),
    }
}

// `malloc` gives a new block, all of whose cells are unwritten.
fn give_block(
    alloc: Global,
    types: &[BlockType],
    state: &mut State,
    to: u32,
    block: TypeId,
    site: Site,
) -> Result<Led, NoMemory>
    ensures { IfOk result (λ r. at_state r state.new ≡ led_of state.old (on (states.set_slot to (variable_content (value.Pointer block) (length state.old.vars)) (commands.make types.now block (marked kind.Got site (begun state.old)))))) }
{
    let growth = Growth {
        marks: 1,
        atoms: 1,
        variables: 1,
        ..COMMAND
    };
    match limit_passed(state, &growth) {
        Some(passed) => led::cut(alloc, state, passed),
        None => {
            take_block(alloc, types, state, to, block, site)?;
            Ok(Led::Goes)
        }
    }
}
