ghost use Rattle.std.specs.Prelude.{◌≡◌, true, IfOk};
ghost use Rattle.px_core.specs.CommandTree.{command_tree};
ghost use Rattle.px_callgraph.specs.JobTree.{job_tree};
ghost use Rattle.px_callgraph.specs.Commands as spec;
ghost use Rattle.px_steps.specs.Accessing.{is_access};
ghost use Rattle.px_steps.specs.Led.{at_state, led_of};

use crate::accesses::{freeing, loading, pointer_act, storing};
use crate::block_acts::{give, make};
use crate::control_acts::{begin_alone, break_loop, enter, leave, mark_alone, stop};
use crate::divide_acts::divide;
use crate::input_acts::input;
use crate::led::Led;
use crate::reads::read;
use crate::return_acts::return_from;
use crate::test_acts::{Test, take_side};
use crate::words::{assign, operand_of};
use px_base::MarkKind;
use px_callgraph::{Job, State, StepOutcome, Way};
use px_core::Command;
use px_terms::{Content, NoMemory};
use std::alloc::Global;

/// Where a way of a command leads from a state, listed or not. A call is only entered.
pub fn command_act(
    alloc: Global,
    job: &Job,
    mut state: State,
    command: &Command,
    way: Way,
) -> Result<StepOutcome<State>, NoMemory>
    ensures { IfOk result (λ r. r ≡ led_of state (spec.command_done (job_tree job.now) (command_tree command.now) way state)) }
{
    let led = command_act_in(alloc, job, &mut state, command, way)?;
    Ok(led.with_state(state))
}

/// The same where the state is changed in its place. After `NoMemory` it may be part of the way.
#[tactic(auto, using(px_core::proofs::CommandEquations::trees))]
pub fn command_act_in(
    alloc: Global,
    job: &Job,
    state: &mut State,
    command: &Command,
    way: Way,
) -> Result<Led, NoMemory>
    ensures { IfOk result (λ r. at_state r state.new ≡ led_of state.old (spec.command_done (job_tree job.now) (command_tree command.now) way state.old)) }
{
    match command {
        Command::Assign { to, op, a, b } => assign(alloc, state, *to, *op, *a, *b),
        Command::Unset { to } => give(alloc, state, *to, Content::Unwritten),
        Command::Read { slot, site } => read(alloc, state, *slot, *site, way),
        Command::Test {
            to,
            how,
            a,
            b,
            site,
        } => take_side(alloc, state, Test::new(*to, *how, *a, *b, *site), way),
        Command::If { .. } | Command::Continue => begin_alone(alloc, state),
        Command::Loop { site, .. } => enter(alloc, state, *site),
        Command::Leave => leave(alloc, state),
        Command::Break => break_loop(alloc, state),
        Command::Load { .. } | Command::Store { .. } | Command::Free { .. } => access(
            alloc, job, state, command, way,
        ),
        Command::Malloc { to, block, site } => make(alloc, job, state, *to, *block, *site, way),
        Command::Input { to, site } => input(alloc, state, *to, *site),
        Command::Call { proc, site, .. } => mark_alone(alloc, state, MarkKind::Enter(*proc), *site),
        Command::Return { from } => return_from(alloc, state, job.body.result, *from),
        Command::Stop { word, .. } => stop(alloc, state, *word),
        Command::Divide { to, a, b, site } => { divide(alloc, state, *to, *a, *b, *site, way) }
    }
}

// The same of a command that goes through a pointer.
#[tactic(auto, using(px_core::proofs::CommandEquations::trees))]
fn access(
    alloc: Global,
    job: &Job,
    state: &mut State,
    command: &Command,
    way: Way,
) -> Result<Led, NoMemory>
    requires access { is_access (command_tree command.now) ≡ true }
    ensures { IfOk result (λ r. at_state r state.new ≡ led_of state.old (spec.command_done (job_tree job.now) (command_tree command.now) way state.old)) }
{
    match command {
        Command::Load {
            to,
            at,
            field,
            block,
            site,
        } => {
            let used = loading(*block, *site, *to, *field);
            pointer_act(alloc, job, state, *at, used, way)
        }
        Command::Store {
            at,
            field,
            block,
            from,
            site,
        } => {
            let content = operand_of(alloc, state, *from)?;
            let used = storing(*block, *site, *field, content);
            pointer_act(alloc, job, state, *at, used, way)
        }
        Command::Free { at, block, site } => {
            pointer_act(alloc, job, state, *at, freeing(*block, *site), way)
        }
        _ => begin_alone(alloc, state),
    }
}
