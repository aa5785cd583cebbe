ghost use Rattle.std.specs.Prelude.{◌≡◌, Some, [], IfOk};
ghost use Rattle.px_entry.specs.declared.entries.Exit.TheVariants as exit;
ghost use Rattle.px_callgraph.specs.States.{begun, ends};
ghost use Rattle.px_callgraph.specs.Commands as commands;
ghost use Rattle.px_steps.specs.Led.{at_state, led_of};

use crate::control_acts::begin_alone;
use crate::led::{self, Led};
use crate::path_limits::COMMAND;
use crate::words::operand_of;
use px_callgraph::State;
use px_core::Operand;
use px_entry::Exit;
use px_match::limit_passed;
use px_terms::{Content, NoMemory, ValueType};
use px_ways::{begin, operand_fits};
use std::alloc::Global;

/// A procedure with such a result returns.
pub(crate) fn return_from(
    alloc: Global,
    state: &mut State,
    value: Option<ValueType>,
    from: Option<Operand>,
) -> Result<Led, NoMemory>
    ensures { IfOk result (λ r. at_state r state.new ≡ led_of state.old (commands.return_done (commands.returned (begun state.old) value from) (begun state.old))) }
{
    match returned(alloc, state, value, from)? {
        Some(content) => end(alloc, state, content),
        None => begin_alone(alloc, state),
    }
}

// What it gives back, where it returns so.
fn returned(
    alloc: Global,
    state: &State,
    value: Option<ValueType>,
    from: Option<Operand>,
) -> Result<Option<Option<Content>>, NoMemory>
    ensures { IfOk result (λ r. r ≡ commands.returned (begun state.now) value from) }
{
    match (value, from) {
        (None, None) => Ok(Some(None)),
        (None, Some(_)) => Ok(None),
        (Some(_), None) => Ok(Some(Some(Content::Unwritten))),
        (Some(wanted), Some(operand)) => returned_operand(alloc, state, wanted, operand),
    }
}

fn returned_operand(
    alloc: Global,
    state: &State,
    wanted: ValueType,
    operand: Operand,
) -> Result<Option<Option<Content>>, NoMemory>
    ensures { IfOk result (λ r. r ≡ commands.returned (begun state.now) (Some wanted) (Some operand)) }
{
    if operand_fits(state, wanted, operand) {
        Ok(Some(Some(operand_of(alloc, state, operand)?)))
    } else {
        Ok(None)
    }
}

// The procedure ends with this result.
#[tactic(auto, unfolding(crate::specs::Led::led_of))]
fn end(alloc: Global, state: &mut State, content: Option<Content>) -> Result<Led, NoMemory>
    ensures { IfOk result (λ r. at_state r state.new ≡ led_of state.old (record { state = begun state.old; terms = []; outcome = ends exit.Ok content })) }
{
    match limit_passed(state, &COMMAND) {
        Some(kind) => led::cut(alloc, state, kind),
        None => {
            begin(state);
            Ok(Led::Ends(Exit::Ok, content))
        }
    }
}
