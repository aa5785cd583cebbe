ghost use Rattle.std.specs.Prelude.{◌≡◌, ℕ, List, Option, true, IfOk};
ghost use Rattle.std.specs.List.{list_any};
ghost use Rattle.px_terms.specs.Polynomials.{Polynomial};
ghost use Rattle.px_terms.specs.declared.conjuncts.Content.{Content as content};
ghost use Rattle.px_entry.specs.Sorts.{is_long};
ghost use Rattle.px_callgraph.specs.States.{on, begun, operand_content as content_of};
ghost use Rattle.px_callgraph.specs.States as states;
ghost use Rattle.px_callgraph.specs.Operations as operations;
ghost use Rattle.px_callgraph.specs.Commands as commands;
ghost use Rattle.px_match.specs.Operated.{IsOperated};
ghost use Rattle.px_steps.specs.Led.{at_state, led_of};

use crate::block_acts::give;
use crate::control_acts::begin_alone;
use crate::led::{self, Led};
use crate::path_limits::COMMAND;
use px_callgraph::State;
use px_core::{Operand, Operator};
use px_match::{Growth, Operated, limit_of_long, operand_content, operation};
use px_terms::{Content, NoMemory};
use std::alloc::Global;

/// The content of an operand, before the command begins and after that.
pub(crate) fn operand_of(
    alloc: Global,
    state: &State,
    operand: Operand,
) -> Result<Content, NoMemory>
    ensures { IfOk result (λ c. c ≡ content_of (begun state.now) operand) }
{
    operand_content(alloc, state.slots.as_slice(), &operand)
}

/// A slot gets what an operator makes.
pub(crate) fn assign(
    alloc: Global,
    state: &mut State,
    to: u32,
    op: Operator,
    a: Operand,
    b: Operand,
) -> Result<Led, NoMemory>
    ensures { IfOk result (λ r. at_state r state.new ≡ led_of state.old (commands.assign_done to (commands.terms_of (operations.operation op (content_of (begun state.old) a) (content_of (begun state.old) b)) (operations.made_terms op)) (operations.operation op (content_of (begun state.old) a) (content_of (begun state.old) b)) (begun state.old))) }
{
    match op {
        Operator::Copy => {
            let content = operand_of(alloc, state, a)?;
            give(alloc, state, to, content)
        }
        _ => operate(alloc, state, to, op, a, b),
    }
}

// The same by way of what the operator makes, for which a copy would be copied twice.
fn operate(
    alloc: Global,
    state: &mut State,
    to: u32,
    op: Operator,
    a: Operand,
    b: Operand,
) -> Result<Led, NoMemory>
    ensures { IfOk result (λ r. at_state r state.new ≡ led_of state.old (commands.assign_done to (commands.terms_of (operations.operation op (content_of (begun state.old) a) (content_of (begun state.old) b)) (operations.made_terms op)) (operations.operation op (content_of (begun state.old) a) (content_of (begun state.old) b)) (begun state.old))) }
{
    let a = operand_of(alloc, state, a)?;
    let b = operand_of(alloc, state, b)?;
    let operated = operation(alloc, op, &a, &b)?;
    assign_by(alloc, state, to, operated)
}

fn assign_by(alloc: Global, state: &mut State, to: u32, operated: Operated) -> Result<Led, NoMemory>
    ensures { IfOk result (λ r. (o : Option content) (terms : content → List Polynomial) → IsOperated operated o terms → at_state r state.new ≡ led_of state.old (commands.assign_done to (commands.terms_of o terms) o (begun state.old))) }
{
    match operated {
        Operated::Unfit => begin_alone(alloc, state),
        Operated::Made(made) => give(alloc, state, to, made),
        Operated::TooLong => cut_assign(alloc, state),
    }
}

// Where the polynomial is too long, some limit is passed, whatever the slot.
fn cut_assign(alloc: Global, state: &mut State) -> Result<Led, NoMemory>
    ensures { IfOk result (λ r. (to : ℕ) (c : content) (terms : List Polynomial) → list_any is_long terms ≡ true → at_state r state.new ≡ led_of state.old (record (on (states.set_slot to c (begun state.old))) { terms = terms })) }
{
    let growth = Growth {
        long_term: true,
        ..COMMAND
    };
    let passed = limit_of_long(state, &growth);
    led::cut(alloc, state, passed)
}
