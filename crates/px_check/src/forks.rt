ghost use Rattle.std.specs.Prelude.{◌+◌, ◌<◌, ◌≤◌, ◌^◌, length, take, All, IfOk, IfSome, OnOk};
ghost use Rattle.px_callgraph.specs.JobTree.{JobTree, job_tree};
ghost use Rattle.px_callgraph.specs.declared.outcomes.StepOutcome.TheVariants as outcome;
ghost use Rattle.px_walks.specs.Walks.{walk_of};
ghost use Rattle.px_check.specs.Follows.{Follows, IsForkOf, IsForkFor};

use crate::plans::{Plan, shared_steps};
use px_callgraph::Job;
use px_entry::Step;
use px_terms::NoMemory;
use px_walks::{Walk, copy_walk, start};
use std::alloc::Global;

/// A place that steps lead to, kept for others that begin with the same steps.
#[derive(Drop)]
pub(crate) struct Fork<'a, 's> {
    /// The steps that lead there.
    pub(crate) taken: &'s [Step],
    /// How many they are.
    pub(crate) place: u32,
    pub(crate) walk: Walk<'a>,
}

// The start of a job's procedure, where none of the steps led.
fn first_fork<'a, 's>(
    alloc: Global,
    job: &'a Job,
    steps: &'s [Step],
) -> Result<Fork<'a, 's>, NoMemory>
    ensures { IfOk result (IsForkFor (job_tree job.now) steps.now) }
{
    Ok(Fork {
        taken: &steps[..0],
        place: 0,
        walk: start(alloc, job)?,
    })
}

// A copy of a fork is put upon the others, if it doesn't stand behind a place.
fn put_copy<'a, 's>(
    alloc: Global,
    fork: &Fork<'a, 's>,
    place: usize,
    forks: &mut Vec<Fork<'a, 's>>,
) -> Result<(), NoMemory>
    ensures { (j : JobTree) → IsForkOf j fork.now → All (IsForkOf j) forks.old.items → OnOk result (All (IsForkOf j) forks.new.items) }
{
    if fork.place as usize > place {
        return Ok(());
    }
    forks.push(Fork {
        taken: fork.taken,
        place: fork.place,
        walk: copy_walk(alloc, &fork.walk)?,
    })?;
    Ok(())
}

// Takes the forks off that stand behind a place.
fn go_back(forks: &mut Vec<Fork>, place: usize)
    ensures { (j : JobTree) → All (IsForkOf j) forks.old.items → All (IsForkOf j) forks.new.items }
{
    while let Some(fork) = forks.last() {
        if fork.place as usize <= place {
            return;
        }
        forks.pop();
    }
}

// Takes the last fork off that doesn't stand behind a place, if steps begin with those that lead to it.
fn last_shared<'a, 's>(
    steps: &[Step],
    place: usize,
    forks: &mut Vec<Fork<'a, 's>>,
) -> Option<Fork<'a, 's>>
    ensures fork { (j : JobTree) → All (IsForkOf j) forks.old.items → IfSome result (IsForkFor j steps.now) }
    ensures forks { (j : JobTree) → All (IsForkOf j) forks.old.items → All (IsForkOf j) forks.new.items }
{
    go_back(forks, place);
    let Some(fork) = forks.pop() else {
        return None;
    };
    if shared_steps(fork.taken, steps) < fork.taken.len() {
        return None;
    }
    Some(fork)
}

/// Where the steps with this number go on: at the last fork whose steps they begin with, else at the start. A copy is
/// left, if the next ones go on there too.
pub(crate) fn take_fork<'a, 's>(
    alloc: Global,
    job: &'a Job,
    steps: &'s [Step],
    plan: &Plan,
    number: usize,
    forks: &mut Vec<Fork<'a, 's>>,
) -> Result<Fork<'a, 's>, NoMemory>
    requires few { number + 1 < 2 ^ 64 }
    requires forks { All (IsForkOf (job_tree job.now)) forks.old.items }
    ensures fork { IfOk result (IsForkFor (job_tree job.now) steps.now) }
    ensures forks { OnOk result (All (IsForkOf (job_tree job.now)) forks.new.items) }
{
    let Some(fork) = last_shared(steps, plan.shared_at(number), forks) else {
        return first_fork(alloc, job, steps);
    };
    put_copy(alloc, &fork, plan.shared_at(number + 1), forks)?;
    Ok(fork)
}

/// Keeps the place where steps lead, where the last of these places is reached, and answers how many are left.
pub(crate) fn keep<'a, 's>(
    alloc: Global,
    steps: &'s [Step],
    place: u32,
    walk: &Walk<'a>,
    wanted: &[usize],
    left: usize,
    forks: &mut Vec<Fork<'a, 's>>,
) -> Result<usize, NoMemory>
    requires { place ≤ length steps.now }
    ensures { (j : JobTree) → Follows j (take place steps.now) place (outcome.Next (walk_of walk.now)) → All (IsForkOf j) forks.old.items → OnOk result (All (IsForkOf j) forks.new.items) }
{
    if left == 0 {
        return Ok(0);
    }
    match wanted.get(left - 1) {
        Some(next) if *next <= place as usize => {
            forks.push(Fork {
                taken: &steps[..place as usize],
                place,
                walk: copy_walk(alloc, walk)?,
            })?;
            Ok(left - 1)
        }
        _ => Ok(left),
    }
}
