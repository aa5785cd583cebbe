ghost use Rattle.std.specs.Prelude.{◌≡◌, ◌+◌, ◌<◌, ◌^◌, true, false, List, drop, IfOk};
ghost use Rattle.px_core.specs.Control.{Item};
ghost use Rattle.px_entry.specs.declared.derivations.Step.{Step as StepOf};
ghost use Rattle.px_callgraph.specs.JobTree.{job_tree};
ghost use Rattle.px_callgraph.specs.Derivations as spec;
ghost use Rattle.px_walks.specs.Nexts.{items_from, IsNext};
ghost use Rattle.px_walks.specs.Walks.{walk_of};
ghost use Rattle.px_check.specs.Steps.{is_only, is_step_that};
ghost use Rattle.px_check.specs.Courses.{IsBehindUse, TakesTurn};

use crate::listed::take_listed;
use crate::named::is_same_rule;
use crate::taken::take_step;
use px_callgraph::{Job, Way};
use px_entry::{Rule, Step};
use px_steps::Led;
use px_terms::NoMemory;
use px_walks::{Upcoming, Walk, freed_rule, is_silent, live_rule, next_item};
use std::alloc::Global;

/// What comes of the next item of a path.
#[derive(Drop)]
pub(crate) enum Turn {
    /// A turn was taken, and the step with this number is the next.
    Taken(u32, Led),
    /// The step with this number fails, or is missing.
    Fails(u32),
}

// The rule of the second step, where a block that wasn't met yet is one act and two steps.
fn use_rule(next: Upcoming, rule: Rule) -> Option<Rule>
    ensures { (rest : List Item) → result ≡ spec.use_rule (items_from next.entry rest) rule }
{
    match rule {
        Rule::MissingLive => Some(live_rule(next)),
        Rule::MissingFreed => Some(freed_rule(next)),
        _ => None,
    }
}

// Whether this choice is the only one.
fn is_only(choices: &[u32], wanted: usize) -> bool
    ensures { result ≡ is_only choices.now wanted }
{
    match choices {
        [choice] => *choice as usize == wanted,
        _ => false,
    }
}

// Whether a step uses the atom with this number, by this rule.
fn uses_atom(rule: Rule, atom: usize, step: &Step) -> bool
    ensures { result ≡ spec.uses_atom rule atom step.now }
{
    is_same_rule(step.rule, rule) && is_only(step.choices.as_slice(), atom)
}

// Whether the step at this place uses the block that was met just now.
fn is_used(steps: &[Step], place: u32, rule: Rule, atom: usize) -> bool
    ensures { result ≡ is_step_that (spec.uses_atom rule atom) (drop place steps.now) }
{
    match steps.get(place as usize) {
        Some(step) => uses_atom(rule, atom, step),
        None => false,
    }
}

// The next step after the use of a block, where one is owed; none where it fails.
fn after_use(steps: &[Step], place: u32, owed: Option<Rule>, atom: usize) -> Option<u32>
    requires { place + 1 < 2 ^ 32 }
    ensures { IsBehindUse steps.now place atom owed result }
{
    match owed {
        None => Some(place),
        Some(rule) => {
            if is_used(steps, place, rule, atom) {
                Some(place + 1)
            } else {
                None
            }
        }
    }
}

// What takes no step of its own.
fn silent_turn<'a>(
    alloc: Global,
    job: &'a Job,
    place: u32,
    walk: &mut Walk<'a>,
) -> Result<Turn, NoMemory>
    requires { spec.is_silent (walk_of walk.old).control ≡ true }
    ensures { IfOk result (λ turn. (steps : List StepOf) → TakesTurn (job_tree job.now) steps (walk_of walk.old) place (walk_of walk.new) turn) }
{
    match take_listed(alloc, job, walk, Way::On)? {
        Some(led) => Ok(Turn::Taken(place, led)),
        None => Ok(Turn::Fails(place)),
    }
}

// What takes a step, or two.
fn step_turn<'a>(
    alloc: Global,
    job: &'a Job,
    steps: &[Step],
    place: u32,
    walk: &mut Walk<'a>,
    next: Upcoming<'a>,
) -> Result<Turn, NoMemory>
    requires few { place + 2 < 2 ^ 32 }
    requires next { (rest : List Item) × IsNext next (walk_of walk.old).control rest }
    requires own { spec.is_silent (walk_of walk.old).control ≡ false }
    ensures { IfOk result (TakesTurn (job_tree job.now) steps.now (walk_of walk.old) place (walk_of walk.new)) }
{
    let Some(step) = steps.get(place as usize) else {
        return Ok(Turn::Fails(place));
    };
    let atom = walk.state.atoms.len();
    let owed = use_rule(next, step.rule);
    let taken = take_step(alloc, job, walk, next, step)?;
    let Some(led) = taken else {
        return Ok(Turn::Fails(place));
    };
    match after_use(steps, place + 1, owed, atom) {
        Some(behind) => Ok(Turn::Taken(behind, led)),
        None => Ok(Turn::Fails(place + 1)),
    }
}

/// Does what comes next of a path, by the step with this number where it takes one.
pub(crate) fn do_next<'a>(
    alloc: Global,
    job: &'a Job,
    steps: &[Step],
    place: u32,
    walk: &mut Walk<'a>,
) -> Result<Turn, NoMemory>
    requires { place + 2 < 2 ^ 32 }
    ensures { IfOk result (TakesTurn (job_tree job.now) steps.now (walk_of walk.old) place (walk_of walk.new)) }
{
    let next = next_item(walk);
    if is_silent(next) {
        silent_turn(alloc, job, place, walk)
    } else {
        step_turn(alloc, job, steps, place, walk, next)
    }
}
