ghost use Rattle.std.specs.Prelude.{◌≡◌, ◌+◌, ◌<◌, ◌^◌, length, All, IfOk, OnOk};
ghost use Rattle.px_callgraph.specs.JobTree.{job_tree};
ghost use Rattle.px_callgraph.specs.Derivations.{RunsTo};
ghost use Rattle.px_check.specs.Follows.{IsForkOf};
ghost use Rattle.px_check.specs.Courses.{course_of, place_of, IsSortedCourse};
ghost use Rattle.px_check.specs.Answers.{IsAnswer, AreAnswers, fault_of};

use crate::ends::first_fault;
use crate::forks::{Fork, take_fork};
use crate::plans::Plan;
use crate::steps::{Course, follow};
use crate::{CheckFault, Checked, TableFault};
use px_callgraph::Job;
use px_entry::{Derivation, Entry, Step};
use px_terms::{Items, NoMemory};
use std::alloc::Global;
use std::snapshot::Snapshot;

// Where the steps with this number lead, from the last fork whose steps they begin with.
fn course_at<'a, 's>(
    alloc: Global,
    job: &'a Job,
    steps: &'s [Step],
    plan: &Plan,
    number: usize,
    forks: &mut Vec<Fork<'a, 's>>,
) -> Result<Course, NoMemory>
    requires few { number + 1 < 2 ^ 64 }
    requires forks { All (IsForkOf (job_tree job.now)) forks.old.items }
    ensures runs { IfOk result (λ course. RunsTo (job_tree job.now) steps.now (course_of steps.now course)) }
    ensures few { IfOk result (λ course. place_of course + 1 < 2 ^ 32) }
    ensures sorted { IfOk result (λ course. IsSortedCourse course) }
    ensures forks { OnOk result (All (IsForkOf (job_tree job.now)) forks.new.items) }
{
    let from = take_fork(alloc, job, steps, plan, number, forks)?;
    follow(alloc, job, steps, from, plan.wanted_at(number), forks)
}

// Checks that the steps with this number derive an entry.
fn check_next<'a, 's>(
    alloc: Global,
    job: &'a Job,
    entry: Entry,
    steps: &'s [Step],
    plan: &Plan,
    number: usize,
    forks: &mut Vec<Fork<'a, 's>>,
) -> Result<Checked, CheckFault>
    requires few { number + 1 < 2 ^ 64 }
    requires forks { All (IsForkOf (job_tree job.now)) forks.old.items }
    ensures answer { IsAnswer (job_tree job.now) entry steps.now result }
    ensures forks { OnOk result (All (IsForkOf (job_tree job.now)) forks.new.items) }
{
    let Ok(course) = course_at(alloc, job, steps, plan, number, forks) else {
        return Err(CheckFault::NoMemory);
    };
    match first_fault(job, &entry, steps, course) {
        Some((step, rule)) => Err(CheckFault::Refused { step, rule, entry }),
        None => Ok(Checked {
            entry,
            job: Snapshot::of(job),
        }),
    }
}

/// Checks that the steps of a derivation derive an entry from a job. One pass over the steps; nothing is asked of a solver.
pub fn check(
    alloc: Global,
    job: &Job,
    entry: Entry,
    derivation: &Derivation,
) -> Result<Checked, CheckFault>
    ensures { IsAnswer (job_tree job.now) entry derivation.now.steps result }
{
    let steps = derivation.steps.as_slice();
    let mut forks = Vec::new(alloc);
    check_next(alloc, job, entry, steps, &Plan::new(alloc), 0, &mut forks)
}

// Why a table isn't checked, of which the entry at this place is refused, or for which memory is lacking.
fn fault_of(entry: usize, fault: CheckFault) -> TableFault
    ensures { result ≡ fault_of entry fault }
{
    match fault {
        CheckFault::Refused { step, rule, .. } => TableFault::Refused { entry, step, rule },
        CheckFault::NoMemory => TableFault::NoMemory,
    }
}

/// Checks that each derivation derives the entry beside it, as `check` does. What derivations that stand side by side have in
/// common at first is followed once.
pub fn check_each(
    alloc: Global,
    job: &Job,
    entries: Items<Entry>,
    derivations: &[Derivation],
) -> Result<Items<Checked>, TableFault>
    requires { length entries ≡ length derivations.now }
    ensures { AreAnswers (job_tree job.now) entries derivations.now result }
{
    let Ok(plan) = Plan::of(alloc, derivations) else {
        return Err(TableFault::NoMemory);
    };
    let mut forks = Vec::new(alloc);
    let mut all = Items::new(alloc);
    let mut place = 0;
    for entry in entries.into_vec() {
        let own = derivations[place].steps.as_slice();
        match check_next(alloc, job, entry, own, &plan, place, &mut forks) {
            Ok(checked) => {
                let Ok(()) = all.push(checked) else {
                    return Err(TableFault::NoMemory);
                };
            }
            Err(fault) => return Err(fault_of(place, fault)),
        }
        place += 1;
    }
    Ok(all)
}
