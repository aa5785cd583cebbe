ghost use Rattle.std.specs.Prelude.{◌≡◌, IfOk};
ghost use Rattle.px_base.specs.declared.trace.MarkKind.TheVariants as kind;
ghost use Rattle.px_callgraph.specs.States.{on, begun, marked, stops};
ghost use Rattle.px_callgraph.specs.States as states;
ghost use Rattle.px_callgraph.specs.Commands as commands;
ghost use Rattle.px_steps.specs.Led.{at_state, led_of};

use crate::led::{self, Led};
use crate::path_limits::{COMMAND, MARKED};
use px_base::{MarkKind, Site};
use px_callgraph::{State, StepOutcome};
use px_entry::Cause;
use px_match::{Growth, limit_passed};
use px_terms::NoMemory;
use px_ways::{begin, close_loop, innermost, mark, open_loop};
use std::alloc::Global;

/// Nothing is done but to begin the command.
#[tactic(auto, unfolding(crate::specs::Led::led_of))]
pub(crate) fn begin_alone(alloc: Global, state: &mut State) -> Result<Led, NoMemory>
    ensures { IfOk result (λ r. at_state r state.new ≡ led_of state.old (on (begun state.old))) }
{
    match limit_passed(state, &COMMAND) {
        Some(kind) => led::cut(alloc, state, kind),
        None => {
            begin(state);
            Ok(Led::Goes)
        }
    }
}

/// What isn't understood is reached: the path isn't followed, unless the command is one too many.
#[tactic(auto, unfolding(crate::specs::Led::led_of))]
pub(crate) fn stop(alloc: Global, state: &mut State, word: u32) -> Result<Led, NoMemory>
    ensures { IfOk result (λ r. at_state r state.new ≡ led_of state.old (stops word (begun state.old))) }
{
    match limit_passed(state, &COMMAND) {
        Some(kind) => led::cut(alloc, state, kind),
        None => led::dropped(alloc, state, Cause::Outside(word)),
    }
}

/// A loop is entered.
#[tactic(auto, unfolding(crate::specs::Led::led_of))]
pub(crate) fn enter(alloc: Global, state: &mut State, site: Site) -> Result<Led, NoMemory>
    ensures { IfOk result (λ r. at_state r state.new ≡ led_of state.old (on (commands.enter_loop site (begun state.old)))) }
{
    match limit_passed(state, &COMMAND) {
        Some(kind) => led::cut(alloc, state, kind),
        None => {
            begin(state);
            open_loop(state, site, 0)?;
            Ok(Led::Goes)
        }
    }
}

/// The innermost loop is left at its condition.
pub(crate) fn leave(alloc: Global, state: &mut State) -> Result<Led, NoMemory>
    ensures { IfOk result (λ r. at_state r state.new ≡ led_of state.old (commands.leaving (commands.last_loop state.old.loops) (begun state.old))) }
{
    match innermost(state.loops.as_slice()) {
        Some((site, _)) => leave_at(alloc, state, site),
        None => begin_alone(alloc, state),
    }
}

// The innermost loop is left, and is marked at its place.
fn leave_at(alloc: Global, state: &mut State, site: Site) -> Result<Led, NoMemory>
    ensures { IfOk result (λ r. at_state r state.new ≡ led_of state.old (on (commands.leave_loop (marked kind.Done site (begun state.old))))) }
{
    match limit_passed(state, &MARKED) {
        Some(kind) => led::cut(alloc, state, kind),
        None => {
            begin(state);
            mark(state, MarkKind::Done, site)?;
            close_loop(state);
            Ok(Led::Goes)
        }
    }
}

/// The innermost loop ends.
#[tactic(auto, unfolding(crate::specs::Led::led_of))]
pub(crate) fn break_loop(alloc: Global, state: &mut State) -> Result<Led, NoMemory>
    ensures { IfOk result (λ r. at_state r state.new ≡ led_of state.old (on (commands.leave_loop (begun state.old)))) }
{
    match limit_passed(state, &COMMAND) {
        Some(kind) => led::cut(alloc, state, kind),
        None => {
            begin(state);
            close_loop(state);
            Ok(Led::Goes)
        }
    }
}

/// Nothing is done but to mark the command.
pub(crate) fn mark_alone(
    alloc: Global,
    state: &mut State,
    kind: MarkKind,
    site: Site,
) -> Result<Led, NoMemory>
    ensures { IfOk result (λ r. at_state r state.new ≡ led_of state.old (on (marked kind site (begun state.old)))) }
{
    match limit_passed(state, &MARKED) {
        Some(passed) => led::cut(alloc, state, passed),
        None => {
            begin(state);
            mark(state, kind, site)?;
            Ok(Led::Goes)
        }
    }
}

/// At the end of its head a loop begins its body once more, where fewer turns were made than the bound allows.
/// Past the bound no limit is looked at.
#[tactic(auto, unfolding(crate::specs::Led::led_of))]
pub fn iteration_act(
    alloc: Global,
    unroll: u32,
    site: Site,
    made: u32,
    mut state: State,
) -> Result<StepOutcome<State>, NoMemory>
    ensures { IfOk result (λ r. r ≡ led_of state (commands.iteration unroll site made state)) }
{
    if made < unroll {
        let led = iteration_act_in(alloc, site, made + 1, &mut state)?;
        Ok(led.with_state(state))
    } else {
        Ok(StepOutcome::Past(state))
    }
}

/// The body of the innermost loop is begun once more, so often now, whatever the bound. The state is changed in its place:
/// after `NoMemory` it may be part of the way.
pub fn iteration_act_in(
    alloc: Global,
    site: Site,
    made: u32,
    state: &mut State,
) -> Result<Led, NoMemory>
    ensures { IfOk result (λ r. at_state r state.new ≡ led_of state.old (on (commands.repeat_loop site made (marked kind.Iter site state.old)))) }
{
    match limit_passed(
        state,
        &Growth {
            marks: 1,
            commands: 0,
            ..COMMAND
        },
    ) {
        Some(kind) => led::cut(alloc, state, kind),
        None => {
            mark(state, MarkKind::Iter, site)?;
            close_loop(state);
            open_loop(state, site, made)?;
            Ok(Led::Goes)
        }
    }
}
