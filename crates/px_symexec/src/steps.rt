ghost use Rattle.std.specs.Prelude.{◌≡◌, ◌<◌, ◌^◌, [], ◌∷◌, length, map, IfOk};
ghost use Rattle.px_core.specs.CommandTree.{command_tree};
ghost use Rattle.px_callgraph.specs.JobTree.{job_tree};
ghost use Rattle.px_callgraph.specs.Commands.{command_done, last_loop};
ghost use Rattle.px_callgraph.specs.Alternatives as spec;
ghost use Rattle.px_steps.specs.Led.{led_of};
ghost use Rattle.px_symexec.specs.Steps.{is_call, is_loop};

use crate::calls::call_alternatives;
use px_callgraph::{Alternative, Job, State, StepOutcome, Way};
use px_core::Command;
use px_steps::{command_act, copy_state, iteration_act};
use px_terms::NoMemory;
use px_ways::{command_ways, innermost};
use std::alloc::Global;

/// The alternatives of a command on a state, in order. Of a loop they are those at the end of the head of the
/// innermost open loop, and of a call where it is over. There is none where the command doesn't fit the state.
#[tactic(auto, using(crate::proofs::StepLemmas::of_loops, crate::proofs::StepLemmas::of_others))]
pub fn alternatives(
    alloc: Global,
    job: &Job,
    state: &State,
    command: &Command,
) -> Result<Vec<Alternative>, NoMemory>
    requires few { length state.now.atoms < 2 ^ 32 }
    ensures { IfOk result (λ r. r.items ≡ spec.alternatives (job_tree job.now) state.now (command_tree command.now)) }
{
    if is_loop(command) {
        loop_alternatives(alloc, job, state)
    } else if is_call(command) {
        call_alternatives(alloc, job, state, command)
    } else {
        command_alternatives(alloc, job, state, command)
    }
}

#[tactic(auto, using(px_core::proofs::CommandEquations::trees))]
fn is_call(command: &Command) -> bool
    ensures { result ≡ is_call (command_tree command.now) }
{
    matches!(command, Command::Call { .. })
}

#[tactic(auto, using(px_core::proofs::CommandEquations::trees))]
fn is_loop(command: &Command) -> bool
    ensures { result ≡ is_loop (command_tree command.now) }
{
    matches!(command, Command::Loop { .. })
}

// Those at the end of the head of the innermost open loop.
#[tactic(auto, unfolding(px_steps::specs::Led::led_of))]
fn loop_alternatives(alloc: Global, job: &Job, state: &State) -> Result<Vec<Alternative>, NoMemory>
    ensures { IfOk result (λ r. r.items ≡ spec.loop_alternatives (job_tree job.now) state.now (last_loop state.now.loops)) }
{
    match innermost(state.loops.as_slice()) {
        Some((site, made)) => {
            let copy = copy_state(alloc, state)?;
            let led = iteration_act(alloc, job.limits.unroll(), site, made, copy)?;
            only(alloc, as_alternative(led))
        }
        None => Ok(Vec::new(alloc)),
    }
}

fn only(alloc: Global, alternative: Alternative) -> Result<Vec<Alternative>, NoMemory>
    ensures { IfOk result (λ r. r.items ≡ alternative ∷ []) }
{
    let mut found = Vec::new(alloc);
    found.push(alternative)?;
    Ok(found)
}

// One for each way that is listed of a command.
#[tactic(auto, using(crate::proofs::StepLemmas::of_command))]
fn command_alternatives(
    alloc: Global,
    job: &Job,
    state: &State,
    command: &Command,
) -> Result<Vec<Alternative>, NoMemory>
    requires few { length state.now.atoms < 2 ^ 32 }
    ensures { IfOk result (λ r. r.items ≡ spec.command_alternatives (job_tree job.now) state.now (command_tree command.now)) }
{
    let ways = command_ways(alloc, job, state, command)?;
    by_ways(alloc, job, state, command, &ways)
}

// Where each of these ways leads.
fn by_ways(
    alloc: Global,
    job: &Job,
    state: &State,
    command: &Command,
    ways: &[Way],
) -> Result<Vec<Alternative>, NoMemory>
    ensures { IfOk result (λ r. r.items ≡ map (λ w. spec.alternative_of (led_of state.now (command_done (job_tree job.now) (command_tree command.now) w state.now))) ways.now) }
{
    let mut found = Vec::new(alloc);
    for way in ways {
        found.push(by_way(alloc, job, state, command, *way)?)?;
    }
    Ok(found)
}

// Where a way of a command leads.
fn by_way(
    alloc: Global,
    job: &Job,
    state: &State,
    command: &Command,
    way: Way,
) -> Result<Alternative, NoMemory>
    ensures { IfOk result (λ r. r ≡ spec.alternative_of (led_of state.now (command_done (job_tree job.now) (command_tree command.now) way state.now))) }
{
    let copy = copy_state(alloc, state)?;
    Ok(as_alternative(command_act(alloc, job, copy, command, way)?))
}

// Where a step leads, as an alternative: a drop keeps no state, and neither does a path past the bound.
fn as_alternative(to: StepOutcome<State>) -> Alternative
    ensures { result ≡ spec.alternative_of to }
{
    match to {
        StepOutcome::Next(state) => Alternative::Next(state),
        StepOutcome::Ends(state, exit, result) => Alternative::Ends(state, exit, result),
        StepOutcome::Cut(_, gap) => Alternative::Cut(gap),
        StepOutcome::Past(_) => Alternative::Beyond,
    }
}
