ghost use Rattle.std.specs.Prelude.{◌≡◌, ◌<◌, ◌^◌, ◌++◌, ◌∷◌, [], length, map, flat_map, reverse, IfOk, OnOk};
ghost use Rattle.px_core.specs.CommandTree.{command_tree};
ghost use Rattle.px_core.specs.Control.{Act};
ghost use Rattle.px_callgraph.specs.JobTree.{job_tree};
ghost use Rattle.px_callgraph.specs.Commands.{command_ways};
ghost use Rattle.px_callgraph.specs.declared.outcomes.StepOutcome.TheVariants as outcome;
ghost use Rattle.px_callgraph.specs.Alternatives as spec;
ghost use Rattle.px_walks.specs.Walks.{walk_of, leads_of};
ghost use Rattle.px_symexec.specs.Ends.{end_at, places_after, ends};

use px_callgraph::{Alternative, Job, State, StepOutcome, Way};
use px_core::Command;
use px_steps::copy_state;
use px_terms::NoMemory;
use px_walks::{Walk, act, act_command, copy_walk, is_calling, ways};
use px_ways::command_ways;
use std::alloc::Global;

/// Where each listed way of a call leads, and each way on from there, up to where the call is over. There is no recursion.
pub(crate) fn call_alternatives(
    alloc: Global,
    job: &Job,
    state: &State,
    command: &Command,
) -> Result<Vec<Alternative>, NoMemory>
    requires few { length state.now.atoms < 2 ^ 32 }
    ensures { IfOk result (λ r. r.items ≡ flat_map (λ w. ends (job_tree job.now) (spec.item_act (job_tree job.now) state.now (Act (command_tree command.now) ∷ []) w)) (command_ways (job_tree job.now) state.now (command_tree command.now))) }
{
    let mut found = Vec::new(alloc);
    let listed = command_ways(alloc, job, state, command)?;
    for way in &listed {
        let copy = copy_state(alloc, state)?;
        let entered = act_command(alloc, job, copy, command, Vec::new(alloc), *way)?;
        put_ends(alloc, job, entered, &mut found)?;
    }
    Ok(found)
}

// Puts where a call leads from there after what is found, depth first.
fn put_ends<'a>(
    alloc: Global,
    job: &'a Job,
    from: StepOutcome<Walk<'a>>,
    found: &mut Vec<Alternative>,
) -> Result<(), NoMemory>
    ensures { OnOk result (found.new.items ≡ found.old.items ++ ends (job_tree job.now) (leads_of from.entry)) }
{
    let mut stack = Vec::new(alloc);
    stack.push(from)?;
    while let Some(here) = stack.pop() {
        take_up(alloc, job, here, &mut stack, found)?;
    }
    Ok(())
}

// Puts what a place gives where the call is over after what is found, and the places after any other upon the stack,
// of which the last comes first.
fn take_up<'a>(
    alloc: Global,
    job: &'a Job,
    here: StepOutcome<Walk<'a>>,
    stack: &mut Vec<StepOutcome<Walk<'a>>>,
    found: &mut Vec<Alternative>,
) -> Result<(), NoMemory>
    ensures found { OnOk result (found.new.items ≡ found.old.items ++ end_at (leads_of here.entry)) }
    ensures stack { OnOk result (map leads_of stack.new.items ≡ map leads_of stack.old.items ++ reverse (places_after (job_tree job.now) (leads_of here.entry))) }
{
    match here {
        StepOutcome::Next(walk) => take_up_walk(alloc, job, walk, stack, found),
        StepOutcome::Ends(state, exit, result) => put(
            found,
            Alternative::Ends(state, exit, result),
        ),
        StepOutcome::Cut(_, gap) => put(found, Alternative::Cut(gap)),
        StepOutcome::Past(_) => put(found, Alternative::Beyond),
    }
}

fn put(found: &mut Vec<Alternative>, end: Alternative) -> Result<(), NoMemory>
    ensures { OnOk result (found.new.items ≡ found.old.items ++ end ∷ []) }
{
    found.push(end)?;
    Ok(())
}

// The same where the path goes on.
fn take_up_walk<'a>(
    alloc: Global,
    job: &'a Job,
    walk: Walk<'a>,
    stack: &mut Vec<StepOutcome<Walk<'a>>>,
    found: &mut Vec<Alternative>,
) -> Result<(), NoMemory>
    ensures found { OnOk result (found.new.items ≡ found.old.items ++ end_at (outcome.Next (walk_of walk.entry))) }
    ensures stack { OnOk result (map leads_of stack.new.items ≡ map leads_of stack.old.items ++ reverse (places_after (job_tree job.now) (outcome.Next (walk_of walk.entry)))) }
{
    if is_calling(&walk) {
        put_places_after(alloc, job, walk, stack)
    } else {
        put(found, Alternative::Next(walk.state))
    }
}

// Puts where the listed ways on lead upon the stack, the first one last. It takes the walk itself, and the others take
// copies.
fn put_places_after<'a>(
    alloc: Global,
    job: &'a Job,
    walk: Walk<'a>,
    stack: &mut Vec<StepOutcome<Walk<'a>>>,
) -> Result<(), NoMemory>
    ensures { OnOk result (map leads_of stack.new.items ≡ map leads_of stack.old.items ++ reverse (map (spec.act (job_tree job.now) (walk_of walk.entry)) (spec.ways (job_tree job.now) (walk_of walk.entry)))) }
{
    let listed = ways(alloc, job, &walk)?;
    let Some((first, others)) = listed.split_first() else {
        return Ok(());
    };
    put_others(alloc, job, &walk, others, stack)?;
    stack.push(act(alloc, job, walk, *first)?)?;
    Ok(())
}

// Puts where these ways lead upon the stack, the first one last.
fn put_others<'a>(
    alloc: Global,
    job: &'a Job,
    walk: &Walk<'a>,
    others: &[Way],
    stack: &mut Vec<StepOutcome<Walk<'a>>>,
) -> Result<(), NoMemory>
    ensures { OnOk result (map leads_of stack.new.items ≡ map leads_of stack.old.items ++ reverse (map (spec.act (job_tree job.now) (walk_of walk.now)) others.now)) }
{
    let mut n = others.len();
    while n > 0 {
        n -= 1;
        let copy = copy_walk(alloc, walk)?;
        stack.push(act(alloc, job, copy, others[n])?)?;
    }
    Ok(())
}
