ghost use Rattle.std.specs.Prelude.{◌≡◌, ◌<◌, ◌^◌, List, length, IfOk};
ghost use Rattle.px_core.specs.Control.{Item};
ghost use Rattle.px_callgraph.specs.JobTree.{job_tree};
ghost use Rattle.px_callgraph.specs.Alternatives as spec;
ghost use Rattle.px_calls.specs.Calls.{call_of, calling_of, called, IsFewCalled};
ghost use Rattle.px_calls.specs.Meeting.{stage_at};
ghost use Rattle.px_calls.specs.Progress.{progress_at};

use crate::choosing::choosing_act;
use crate::finishing::finish;
use crate::meeting::{Progress, meet};
use crate::{Call, CallLed, CallProgress, Calling, Matching, Stage};
use px_callgraph::{Job, State, StepOutcome, Way};
use px_entry::Entry;
use px_terms::NoMemory;
use std::alloc::Global;

/// Where a way of a call leads, by name, listed or not.
pub fn call_act<'a>(
    alloc: Global,
    job: &'a Job,
    mut state: State,
    call: Call<'a>,
    way: Way,
) -> Result<StepOutcome<CallProgress<'a>>, NoMemory>
    requires { length state.atoms < 2 ^ 32 }
    ensures leads { IfOk result (λ to. (k : List Item) → called k to ≡ spec.stage_act (job_tree job.now) state (call_of call.entry).0 k (call_of call.entry).1 way) }
    ensures few { IfOk result (λ to. IsFewCalled to) }
{
    let led = call_act_in(alloc, job, &mut state, call, way)?;
    Ok(led.with_state(state))
}

/// The same where the caller's state is changed in its place. After `NoMemory` it may be part of the way.
pub fn call_act_in<'a>(
    alloc: Global,
    job: &'a Job,
    state: &mut State,
    call: Call<'a>,
    way: Way,
) -> Result<CallLed<'a>, NoMemory>
    requires { length state.old.atoms < 2 ^ 32 }
    ensures leads { IfOk result (λ led. (k : List Item) → called k (progress_at led state.new) ≡ spec.stage_act (job_tree job.now) state.old (call_of call.entry).0 k (call_of call.entry).1 way) }
    ensures few { IfOk result (λ led. IsFewCalled (progress_at led state.new)) }
{
    let Call { calling, stage } = call;
    match stage {
        Stage::Choosing => choosing_act(alloc, job, state, calling, way),
        Stage::Matching(
            Matching {
                entry,
                substitution,
                met,
                used,
            },
        ) => matching_act(
            alloc,
            job,
            state,
            calling,
            entry,
            Progress {
                substitution,
                met,
                used,
            },
            way,
        ),
        Stage::Unfit => Ok(CallLed::Past),
    }
}

// The same where an entry was chosen.
fn matching_act<'a>(
    alloc: Global,
    job: &'a Job,
    state: &mut State,
    calling: Calling,
    entry: &'a Entry,
    progress: Progress,
    way: Way,
) -> Result<CallLed<'a>, NoMemory>
    requires { length state.old.atoms < 2 ^ 32 }
    ensures leads { IfOk result (λ led. (k : List Item) → called k (progress_at led state.new) ≡ spec.stage_act (job_tree job.now) state.old (calling_of calling) k (stage_at entry.now progress) way) }
    ensures few { IfOk result (λ led. IsFewCalled (progress_at led state.new)) }
{
    match entry.pre.get(progress.met) {
        Some(required) => meet(
            alloc,
            job.types.as_slice(),
            state,
            calling,
            entry,
            progress,
            required,
            way,
        ),
        None => finish(alloc, state, calling, entry, progress),
    }
}
