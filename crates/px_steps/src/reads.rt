ghost use Rattle.std.specs.Prelude.{◌≡◌, slice_get, IfOk};
ghost use Rattle.px_base.specs.declared.trace.Kind.TheVariants.{UninitialisedRead};
ghost use Rattle.px_terms.specs.declared.conjuncts.Conj.TheVariants as conjunct;
ghost use Rattle.px_entry.specs.Contents as contents;
ghost use Rattle.px_callgraph.specs.States.{on, begun, fails, assumed, content_at};
ghost use Rattle.px_callgraph.specs.States as states;
ghost use Rattle.px_callgraph.specs.Commands as commands;
ghost use Rattle.px_steps.specs.Led.{at_state, led_of};
ghost use Rattle.px_steps.specs.Additions.{found_in};

use crate::control_acts::begin_alone;
use crate::led::{self, Led};
use crate::path_limits::{COMMAND, assuming};
use px_base::{Kind, Site};
use px_callgraph::{State, Way};
use px_entry::Exit;
use px_match::limit_passed;
use px_terms::{Conj, Content, NoMemory, Var, VarInfo};
use px_ways::{add_conjunct, begin, set_slot, unless_there, variable_content};
use std::alloc::Global;

/// What a read finds in a slot.
#[derive(Clone, Copy)]
pub(crate) enum Found {
    Nothing,
    /// A word or a place.
    Value,
    /// What stands in a cell that was there before, which may be unwritten.
    Cell(Var),
}

/// A slot is read.
pub(crate) fn read(
    alloc: Global,
    state: &mut State,
    slot: u32,
    site: Site,
    way: Way,
) -> Result<Led, NoMemory>
    ensures { IfOk result (λ r. at_state r state.new ≡ led_of state.old (commands.read_done slot site (content_at state.old.slots slot) way (begun state.old))) }
{
    match way {
        Way::Written => read_written(alloc, state, slot),
        Way::Unwritten => read_unwritten(alloc, state, slot, site),
        _ => begin_alone(alloc, state),
    }
}

// What a read finds in a slot; nothing beyond the last.
fn find(slots: &[Content], slot: u32) -> Found
    ensures { result ≡ found_in (content_at slots.now slot) }
{
    match slots.get(slot as usize) {
        None | Some(Content::Unwritten) => Found::Nothing,
        Some(Content::Word(_) | Content::Place(_)) => Found::Value,
        Some(Content::Cell(x)) => Found::Cell(*x),
    }
}

fn read_written(alloc: Global, state: &mut State, slot: u32) -> Result<Led, NoMemory>
    ensures { IfOk result (λ r. at_state r state.new ≡ led_of state.old (commands.read_written slot (content_at state.old.slots slot) (begun state.old))) }
{
    match find(state.slots.as_slice(), slot) {
        Found::Cell(x) => read_cell(alloc, state, slot, x),
        Found::Nothing | Found::Value => begin_alone(alloc, state),
    }
}

fn read_cell(alloc: Global, state: &mut State, slot: u32, x: Var) -> Result<Led, NoMemory>
    ensures { IfOk result (λ r. at_state r state.new ≡ led_of state.old (commands.read_cell slot x (slice_get state.old.vars x.0) (begun state.old))) }
{
    match info_of(state.vars.as_slice(), x) {
        Some(info) => read_value(alloc, state, slot, x, info),
        None => begin_alone(alloc, state),
    }
}

fn info_of(vars: &[VarInfo], x: Var) -> Option<VarInfo>
    ensures { result ≡ slice_get vars.now x.0 }
{
    vars.get(x.0 as usize).copied()
}

// What stands in a cell is assumed to be written, and the slot gets it as a word or a place.
fn read_value(
    alloc: Global,
    state: &mut State,
    slot: u32,
    x: Var,
    info: VarInfo,
) -> Result<Led, NoMemory>
    ensures { IfOk result (λ r. at_state r state.new ≡ led_of state.old (on (states.set_slot slot (contents.variable_content info.value x.0) (assumed (conjunct.Written x) (begun state.old))))) }
{
    let added = unless_there(state, Conj::Written(x));
    let growth = assuming(0, &added);
    match limit_passed(state, &growth) {
        Some(kind) => led::cut(alloc, state, kind),
        None => {
            begin(state);
            add_conjunct(state, added)?;
            set_slot(state, slot, variable_content(alloc, info.value, x)?);
            Ok(Led::Goes)
        }
    }
}

fn read_unwritten(alloc: Global, state: &mut State, slot: u32, site: Site) -> Result<Led, NoMemory>
    ensures { IfOk result (λ r. at_state r state.new ≡ led_of state.old (commands.read_unwritten site (content_at state.old.slots slot) (begun state.old))) }
{
    match find(state.slots.as_slice(), slot) {
        Found::Nothing => fail_read(alloc, state, site),
        Found::Value => begin_alone(alloc, state),
        Found::Cell(x) => fail_cell(alloc, state, site, x),
    }
}

// The slot was never written.
#[tactic(auto, unfolding(crate::specs::Led::led_of))]
fn fail_read(alloc: Global, state: &mut State, site: Site) -> Result<Led, NoMemory>
    ensures { IfOk result (λ r. at_state r state.new ≡ led_of state.old (fails UninitialisedRead site (begun state.old))) }
{
    match limit_passed(state, &COMMAND) {
        Some(kind) => led::cut(alloc, state, kind),
        None => {
            begin(state);
            Ok(Led::Ends(Exit::Error(Kind::UninitialisedRead, site), None))
        }
    }
}

// What stands in a cell is assumed to be unwritten.
fn fail_cell(alloc: Global, state: &mut State, site: Site, x: Var) -> Result<Led, NoMemory>
    ensures { IfOk result (λ r. at_state r state.new ≡ led_of state.old (fails UninitialisedRead site (assumed (conjunct.Unwritten x) (begun state.old)))) }
{
    let added = unless_there(state, Conj::Unwritten(x));
    let growth = assuming(0, &added);
    match limit_passed(state, &growth) {
        Some(kind) => led::cut(alloc, state, kind),
        None => {
            begin(state);
            add_conjunct(state, added)?;
            Ok(Led::Ends(Exit::Error(Kind::UninitialisedRead, site), None))
        }
    }
}
