ghost use Rattle.std.specs.Prelude.{◌≡◌, ◌+◌, ◌<◌, ◌^◌, true, Bool, cond, Option, drop, All, IfOk, OnOk};
ghost use Rattle.px_terms.specs.declared.conjuncts.Content.{Content as ContentOf};
ghost use Rattle.px_entry.specs.declared.entries.Exit.{Exit as ExitOf};
ghost use Rattle.px_callgraph.specs.declared.states.State.{State as StateOf};
ghost use Rattle.px_callgraph.specs.JobTree.{job_tree};
ghost use Rattle.px_callgraph.specs.Laws.{IsSorted};
ghost use Rattle.px_callgraph.specs.Derivations as spec;
ghost use Rattle.px_check.specs.Steps.{is_step_that, is_end};
ghost use Rattle.px_check.specs.Follows.{IsForkOf, IsForkFor};
ghost use Rattle.px_check.specs.Courses.{course_of, place_of, IsSortedCourse};

use crate::forks::{Fork, keep};
use crate::turns::{Turn, do_next};
use px_callgraph::{Job, State};
use px_entry::{Exit, Rule, Step};
use px_steps::Led;
use px_terms::{Content, NoMemory};
use std::alloc::Global;

/// Where steps lead.
#[derive(Drop)]
pub(crate) enum Course {
    /// The step with this number fails, which has this rule.
    FailsAt(u32, Rule),
    /// The path has ended, and the step with this number is an `End`.
    ComesTo(u32, State, Exit, Option<Content>),
}

// The rule of a step that fails: `End` where it is missing.
fn rule_at(steps: &[Step], place: u32) -> Rule
    ensures { spec.fails_next place (drop place steps.now) ≡ spec.fails_at place result }
{
    match steps.get(place as usize) {
        Some(step) => step.rule,
        None => Rule::End,
    }
}

// A step fails, or is missing.
fn failed(steps: &[Step], place: u32) -> Course
    ensures course { course_of steps.now result ≡ spec.fails_next place (drop place steps.now) }
    ensures place { place_of result ≡ place }
    ensures sorted { IsSortedCourse result }
{
    Course::FailsAt(place, rule_at(steps, place))
}

fn is_end(step: &Step) -> bool
    ensures { result ≡ is_end step.now }
{
    matches!(step.rule, Rule::End) && step.choices.is_empty()
}

// Whether the step at this place is an `End`.
fn is_end_at(steps: &[Step], place: u32) -> bool
    ensures { result ≡ is_step_that is_end (drop place steps.now) }
{
    match steps.get(place as usize) {
        Some(step) => is_end(step),
        None => false,
    }
}

// The path has ended.
fn ended(steps: &[Step], place: u32, state: State, exit: Exit, given: Option<Content>) -> Course
    requires { IsSorted state }
    ensures course { course_of steps.now result ≡ spec.at_end place state exit given (drop place steps.now) }
    ensures place { place_of result ≡ place }
    ensures sorted { IsSortedCourse result }
{
    if is_end_at(steps, place) {
        Course::ComesTo(place, state, exit, given)
    } else {
        failed(steps, place)
    }
}

/// Follows steps from where some of them led, and keeps the places that are wanted, the last of which comes first.
pub(crate) fn follow<'a, 's>(
    alloc: Global,
    job: &'a Job,
    steps: &'s [Step],
    from: Fork<'a, 's>,
    wanted: &[usize],
    forks: &mut Vec<Fork<'a, 's>>,
) -> Result<Course, NoMemory>
    requires from { IsForkFor (job_tree job.now) steps.now from }
    requires forks { All (IsForkOf (job_tree job.now)) forks.old.items }
    ensures runs { IfOk result (λ course. spec.RunsTo (job_tree job.now) steps.now (course_of steps.now course)) }
    ensures few { IfOk result (λ course. place_of course + 1 < 2 ^ 32) }
    ensures sorted { IfOk result (λ course. IsSortedCourse course) }
    ensures forks { OnOk result (All (IsForkOf (job_tree job.now)) forks.new.items) }
{
    let mut place = from.place;
    let mut walk = from.walk;
    let mut led = Led::Goes;
    let mut left = wanted.len();
    loop {
        match led {
            Led::Goes => {
                left = keep(alloc, steps, place, &walk, wanted, left, forks)?;
                match do_next(alloc, job, steps, place, &mut walk)? {
                    Turn::Taken(next, to) => {
                        place = next;
                        led = to;
                    }
                    Turn::Fails(next) => return Ok(failed(steps, next)),
                }
            }
            Led::Ends(exit, given) => {
                return Ok(ended(steps, place, walk.state, exit, given));
            }
            Led::Cut(_) => return Ok(failed(steps, place)),
        }
    }
}
