ghost use Rattle.std.specs.Prelude.{◌≡◌, ◌↔◌, ◌+◌, ◌<◌, ◌^◌, true, drop};
ghost use Rattle.px_callgraph.specs.JobTree.{job_tree};
ghost use Rattle.px_callgraph.specs.Laws.{IsSorted};
ghost use Rattle.px_callgraph.specs.Derivations.{RunsTo, IsEndOf};
ghost use Rattle.px_check.specs.Courses.{course_of, place_of, IsSortedCourse};
ghost use Rattle.px_check.specs.Answers.{IsVerdict, HasEnd, IsAfterEnd};

use crate::steps::Course;
use crate::values::is_satisfied;
use px_callgraph::{Job, State};
use px_entry::{Entry, Exit, Rule, Step, equal_marks, equal_results};
use px_terms::Content;

// Whether an entry's fields are those that the path reached.
fn has_end(job: &Job, state: &State, exit: Exit, given: &Option<Content>, entry: &Entry) -> bool
    ensures { result ≡ true ↔ HasEnd (job_tree job.now) state.now exit given.now entry.now }
{
    entry.proc == job.proc
        && equal_marks(entry.trace.as_slice(), state.trace.as_slice())
        && entry.exit == exit
        && equal_results(&entry.result, given)
        && entry.vars.equals(&state.vars)
        && entry.pure.equals(&state.pure)
        && entry.pre.equals(&state.pre)
        && entry.post.equals(&state.atoms)
}

// Whether an entry is the end of a path.
fn is_end_of(job: &Job, state: &State, exit: Exit, given: &Option<Content>, entry: &Entry) -> bool
    requires { IsSorted state.now }
    ensures { result ≡ true ↔ IsEndOf (job_tree job.now) state.now exit given.now entry.now }
{
    if has_end(job, state, exit, given, entry) {
        is_satisfied(entry)
    } else {
        false
    }
}

// After an `End` each step fails.
fn after_end(steps: &[Step], place: u32) -> Option<(u32, Rule)>
    ensures { IsAfterEnd (drop place steps.now) place result }
{
    match steps.get(place as usize) {
        Some(step) => Some((place, step.rule)),
        None => None,
    }
}

/// The first step that fails, with its rule, if one does.
pub(crate) fn first_fault(
    job: &Job,
    entry: &Entry,
    steps: &[Step],
    course: Course,
) -> Option<(u32, Rule)>
    requires runs { RunsTo (job_tree job.now) steps.now (course_of steps.now course) }
    requires few { place_of course + 1 < 2 ^ 32 }
    requires sorted { IsSortedCourse course }
    ensures { IsVerdict (job_tree job.now) entry.now steps.now result }
{
    match course {
        Course::FailsAt(place, rule) => Some((place, rule)),
        Course::ComesTo(place, state, exit, given) => {
            if is_end_of(job, &state, exit, &given, entry) {
                after_end(steps, place + 1)
            } else {
                Some((place, Rule::End))
            }
        }
    }
}
