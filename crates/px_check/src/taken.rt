ghost use Rattle.std.specs.Prelude.{◌≡◌, ◌∷◌, [], false, true, List, IfOk};
ghost use Rattle.px_core.specs.CommandTree.{command_tree};
ghost use Rattle.px_core.specs.Control.{Item, Act};
ghost use Rattle.px_callgraph.specs.JobTree.{job_tree};
ghost use Rattle.px_callgraph.specs.Derivations as spec;
ghost use Rattle.px_walks.specs.Nexts.{items_from, IsNext};
ghost use Rattle.px_walks.specs.Walks.{walk_of};
ghost use Rattle.px_check.specs.Leading.{lead_at, leads_at};
ghost use Rattle.px_check.specs.Steps.{is_call, take_named, is_call_rule};

use crate::listed::take_listed;
use crate::named::named_way;
use px_callgraph::{Job, Way};
use px_core::Command;
use px_entry::{Rule, Step};
use px_steps::Led;
use px_terms::NoMemory;
use px_walks::{Upcoming, Walk, choice_way};
use std::alloc::Global;

#[tactic(auto, using(px_core::proofs::CommandEquations::trees))]
fn is_call_command(command: &Command) -> bool
    ensures { (rest : List Item) → result ≡ is_call (Act (command_tree command.now) ∷ rest) }
{
    matches!(command, Command::Call { .. })
}

// Whether a call comes next.
fn is_call(next: Upcoming) -> bool
    ensures { (rest : List Item) → result ≡ is_call (items_from next.entry rest) }
{
    match next {
        Upcoming::Command(command) => is_call_command(command),
        Upcoming::Nothing | Upcoming::End(_, _) => false,
    }
}

// Takes the way that a choice names, where the path goes on.
fn take_choice<'a>(
    alloc: Global,
    job: &'a Job,
    walk: &mut Walk<'a>,
    led: Led,
    choice: u32,
) -> Result<Option<Led>, NoMemory>
    ensures { IfOk result (λ taken. leads_at (walk_of walk.new) taken ≡ spec.take_way (job_tree job.now) (spec.choice_way choice) (lead_at (walk_of walk.old) led)) }
{
    match led {
        Led::Goes => {
            let way = choice_way(walk, choice);
            take_listed(alloc, job, walk, way)
        }
        Led::Ends(_, _) | Led::Cut(_) => Ok(None),
    }
}

// Takes the only way, where the path goes on.
fn take_on<'a>(
    alloc: Global,
    job: &'a Job,
    walk: &mut Walk<'a>,
    led: Led,
) -> Result<Option<Led>, NoMemory>
    ensures { IfOk result (λ taken. leads_at (walk_of walk.new) taken ≡ spec.take_choices (job_tree job.now) [] (lead_at (walk_of walk.old) led)) }
{
    match led {
        Led::Goes => take_listed(alloc, job, walk, Way::On),
        Led::Ends(_, _) | Led::Cut(_) => Ok(None),
    }
}

// The choices of a call that was entered, and then what its entry says.
fn take_choices<'a>(
    alloc: Global,
    job: &'a Job,
    walk: &mut Walk<'a>,
    led: Led,
    choices: &[u32],
) -> Result<Option<Led>, NoMemory>
    ensures { IfOk result (λ taken. leads_at (walk_of walk.new) taken ≡ spec.take_choices (job_tree job.now) choices.now (lead_at (walk_of walk.old) led)) }
{
    let mut led = led;
    for i in 0..choices.len() {
        match take_choice(alloc, job, walk, led, choices[i])? {
            Some(next) => led = next,
            None => return Ok(None),
        }
    }
    take_on(alloc, job, walk, led)
}

// A whole call.
fn take_call<'a>(
    alloc: Global,
    job: &'a Job,
    walk: &mut Walk<'a>,
    choices: &[u32],
) -> Result<Option<Led>, NoMemory>
    ensures { IfOk result (λ taken. leads_at (walk_of walk.new) taken ≡ spec.then_take (spec.take_choices (job_tree job.now) choices.now) (spec.take_listed (job_tree job.now) (walk_of walk.old) Way.On)) }
{
    match take_listed(alloc, job, walk, Way::On)? {
        Some(led) => take_choices(alloc, job, walk, led, choices),
        None => Ok(None),
    }
}

fn is_call_rule(rule: Rule) -> bool
    ensures { result ≡ is_call_rule rule }
{
    matches!(rule, Rule::Call)
}

// What a step takes where a call comes next.
fn call_step<'a>(
    alloc: Global,
    job: &'a Job,
    walk: &mut Walk<'a>,
    step: &Step,
) -> Result<Option<Led>, NoMemory>
    requires { is_call (walk_of walk.old).control ≡ true }
    ensures { IfOk result (λ taken. leads_at (walk_of walk.new) taken ≡ spec.item_step (job_tree job.now) (walk_of walk.old) (walk_of walk.old).control step.now.rule step.now.choices) }
{
    if is_call_rule(step.rule) {
        take_call(alloc, job, walk, step.choices.as_slice())
    } else {
        Ok(None)
    }
}

// Takes a way that was named, if one was.
fn take_named<'a>(
    alloc: Global,
    job: &'a Job,
    walk: &mut Walk<'a>,
    named: Option<Way>,
) -> Result<Option<Led>, NoMemory>
    ensures { IfOk result (λ taken. leads_at (walk_of walk.new) taken ≡ take_named (job_tree job.now) (walk_of walk.old) named) }
{
    match named {
        Some(way) => take_listed(alloc, job, walk, way),
        None => Ok(None),
    }
}

// What a step takes where anything else comes next.
fn named_step<'a>(
    alloc: Global,
    job: &'a Job,
    walk: &mut Walk<'a>,
    next: Upcoming<'a>,
    step: &Step,
) -> Result<Option<Led>, NoMemory>
    requires next { (rest : List Item) × IsNext next (walk_of walk.old).control rest }
    requires other { is_call (walk_of walk.old).control ≡ false }
    ensures { IfOk result (λ taken. leads_at (walk_of walk.new) taken ≡ spec.item_step (job_tree job.now) (walk_of walk.old) (walk_of walk.old).control step.now.rule step.now.choices) }
{
    let named = named_way(
        walk.state.atoms.as_slice(),
        next,
        step.rule,
        step.choices.as_slice(),
    );
    take_named(alloc, job, walk, named)
}

/// Takes what a step says of what comes next: a way, or a whole call.
pub(crate) fn take_step<'a>(
    alloc: Global,
    job: &'a Job,
    walk: &mut Walk<'a>,
    next: Upcoming<'a>,
    step: &Step,
) -> Result<Option<Led>, NoMemory>
    requires { (rest : List Item) × IsNext next (walk_of walk.old).control rest }
    ensures { IfOk result (λ taken. leads_at (walk_of walk.new) taken ≡ spec.item_step (job_tree job.now) (walk_of walk.old) (walk_of walk.old).control step.now.rule step.now.choices) }
{
    if is_call(next) {
        call_step(alloc, job, walk, step)
    } else {
        named_step(alloc, job, walk, next, step)
    }
}
